//! Reads: at once or in segments (CiA 301, 7.2.4.3.6 and 7.2.4.3.7: SDO upload initiate and segment).
ghost use Rattle.std.specs.Prelude.{drop};
ghost use Rattle.node.specs.Nodes.{Turns, shown};
ghost use Rattle.node.specs.Steps.{announced, given as given-step, start_upload, next_segment, upload_segment};

use super::Node;
use crate::activity::Activity;
use crate::delivery::Delivery;
use crate::reaction::Reaction;
use crate::served::Served;
use dictionary::Readable;
use sdo::{Answer, ExpeditedData, Segment, SegmentData, Toggle};
use wire::{AbortCode, Multiplexor};

impl Node {
    /// The start of a read: the value is given, unless the dictionary has a verdict on the read.
    pub(super) fn start_upload<D: Readable>(
        &mut self,
        dictionary: &D,
        multiplexor: Multiplexor,
    ) -> Reaction
        ensures { Turns (start_upload (D.Readable.meaning dictionary.now) multiplexor) self.old self.new result }
    {
        if let Err(code) = self.buffer.load(dictionary, multiplexor) {
            return self.refuse(multiplexor, code);
        }
        self.give(multiplexor)
    }

    /// The value in the buffer is given: up to four bytes in the answer, a longer one by segments.
    #[tactic(auto, using(crate::proofs::Turning::segments_given))]
    fn give(&mut self, multiplexor: Multiplexor) -> Reaction
        ensures { Turns (given-step multiplexor self.old.buffer) self.old self.new result }
    {
        match ExpeditedData::new(self.buffer.held()) {
            Some(data) => self.send(
                Activity::Idle,
                Served::Answered,
                Answer::InitiateUpload {
                    multiplexor,
                    transfer: sdo::Transfer::Expedited { data },
                },
            ),
            None => self.give_segments(multiplexor),
        }
    }

    /// The value in the buffer is announced, to be given by segments.
    fn give_segments(&mut self, multiplexor: Multiplexor) -> Reaction
        ensures { Turns (announced multiplexor self.old.buffer) self.old self.new result }
    {
        let size = Some(self.buffer.len() as u32);
        self.send(
            Activity::Upload {
                delivery: Delivery {
                    multiplexor,
                    toggle: Toggle::Zero,
                    given: 0,
                },
            },
            Served::Answered,
            Answer::InitiateUpload {
                multiplexor,
                transfer: sdo::Transfer::Segmented { size },
            },
        )
    }

    /// A segment of a read is asked for: its toggle is judged, then the segment is given.
    pub(super) fn upload_segment(&mut self, toggle: Toggle) -> Reaction
        ensures { Turns (upload_segment (shown self.old).activity toggle) self.old self.new result }
    {
        let Activity::Upload { delivery } = self.activity else {
            return self.unexpected();
        };
        if toggle != delivery.toggle {
            return self.refuse(delivery.multiplexor, AbortCode::ToggleNotAlternated);
        }
        self.next_segment(delivery)
    }

    /// The next seven bytes of the value in the buffer, or the last ones, after which the node is idle.
    fn next_segment(&mut self, delivery: Delivery) -> Reaction
        ensures { Turns (next_segment delivery.multiplexor delivery.toggle (drop delivery.given self.old.buffer)) self.old self.new result }
    {
        let toggle = delivery.toggle;
        let rest = self.buffer.rest(delivery.given);
        let left = rest.len();
        let bytes = SegmentData::front(rest);
        if left <= 7 {
            let segment = Answer::UploadSegment(Segment {
                toggle,
                bytes,
                last: true,
            });
            return self.send(Activity::Idle, Served::Answered, segment);
        }
        let next = Activity::Upload {
            delivery: Delivery {
                multiplexor: delivery.multiplexor,
                toggle: toggle.other(),
                given: delivery.given + 7,
            },
        };
        let segment = Answer::UploadSegment(Segment {
            toggle,
            bytes,
            last: false,
        });
        self.send(next, Served::Answered, segment)
    }
}
