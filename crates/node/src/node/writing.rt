//! Writes: at once or in segments (CiA 301, 7.2.4.3.3 and 7.2.4.3.4: SDO download initiate and segment).
ghost use Rattle.std.specs.Prelude.{◌≡◌, ◌++◌};
ghost use Rattle.sdo.specs.Answers.{shown_answer};
ghost use Rattle.sdo.specs.FrameData.{value_in};
ghost use Rattle.sdo.specs.Transfers.{Segmented, shown_transfer as shown-coming};
ghost use Rattle.node.specs.Nodes.{Turns, Does, shown};
ghost use Rattle.node.specs.Steps.{start_download, completed, received, download_segment};

use super::Node;
use crate::activity::Activity;
use crate::download_start::DownloadStart;
use crate::reaction::Reaction;
use crate::served::Served;
use dictionary::{Readable, Writable, check_start};
use sdo::{Answer, Segment, Toggle, differs};
use wire::{AbortCode, LONGEST, Multiplexor};

impl Node {
    /// The start of a write: a value that comes at once is committed, for a longer one its segments are awaited.
    pub(super) fn start_download<D: Writable>(
        &mut self,
        dictionary: &mut D,
        multiplexor: Multiplexor,
        transfer: sdo::Transfer,
    ) -> Reaction
        ensures { Does D.Readable.meaning (λ d. start_download d multiplexor (shown-coming transfer)) self.old self.new dictionary.old dictionary.new result }
    {
        match transfer {
            sdo::Transfer::Expedited { data } => {
                let outcome = dictionary.commit(multiplexor, data.value());
                self.conclude(
                    multiplexor,
                    outcome,
                    Answer::InitiateDownload { multiplexor },
                )
            }
            sdo::Transfer::Segmented { size } => {
                self.start_segments(dictionary, DownloadStart { multiplexor, size })
            },
        }
    }

    /// The start of a write in segments: they are awaited, unless the dictionary has a verdict on the write already.
    fn start_segments<D: Readable>(&mut self, dictionary: &D, start: DownloadStart) -> Reaction
        ensures { Turns (start_download (D.Readable.meaning dictionary.now) start.multiplexor (Segmented start.size)) self.old self.new result }
    {
        if let Err(code) = check_start(dictionary, start.multiplexor, start.size) {
            return self.refuse(start.multiplexor, code);
        }
        self.buffer.clear();
        let next = Activity::Download {
            start,
            toggle: Toggle::Zero,
        };
        let answer = Answer::InitiateDownload {
            multiplexor: start.multiplexor,
        };
        self.send(next, Served::Answered, answer)
    }

    /// A segment of a write: its toggle is judged, then its data is taken.
    pub(super) fn download_segment<D: Writable>(
        &mut self,
        dictionary: &mut D,
        segment: Segment,
    ) -> Reaction
        ensures { Does D.Readable.meaning (λ d. download_segment d (shown self.old).activity segment.toggle (value_in segment.bytes) segment.last) self.old self.new dictionary.old dictionary.new result }
    {
        let Activity::Download { start, toggle } = self.activity else {
            return self.unexpected();
        };
        if segment.toggle != toggle {
            return self.refuse(start.multiplexor, AbortCode::ToggleNotAlternated);
        }
        self.receive(dictionary, start, segment)
    }

    /// The data of a segment: it is kept behind what is there, and behind the last segment the value is complete.
    fn receive<D: Writable>(
        &mut self,
        dictionary: &mut D,
        start: DownloadStart,
        segment: Segment,
    ) -> Reaction
        ensures { Does D.Readable.meaning (λ d. received d start segment.toggle segment.last (self.old.buffer ++ value_in segment.bytes)) self.old self.new dictionary.old dictionary.new result }
    {
        let toggle = segment.toggle;
        if self.buffer.len() + segment.bytes.value().len() > LONGEST {
            return self.refuse(start.multiplexor, AbortCode::LengthTooHigh);
        }
        self.buffer.append(segment.bytes.value());
        if segment.last {
            return self.complete(dictionary, start, Answer::DownloadSegment { toggle });
        }
        self.send(
            Activity::Download {
                start,
                toggle: toggle.other(),
            },
            Served::Answered,
            Answer::DownloadSegment { toggle },
        )
    }

    /// All bytes of a write are in the buffer: their number is compared with an announced size, then they are committed.
    #[inline(always)]
    pub(super) fn complete<D: Writable>(
        &mut self,
        dictionary: &mut D,
        start: DownloadStart,
        answer: Answer,
    ) -> Reaction
        ensures { Does D.Readable.meaning (λ d. completed d start self.old.buffer (shown_answer answer)) self.old self.new dictionary.old dictionary.new result }
    {
        if differs(start.size, self.buffer.len()) {
            return self.refuse(start.multiplexor, AbortCode::LengthMismatch);
        }
        let outcome = dictionary.commit(start.multiplexor, self.buffer.held());
        self.conclude(start.multiplexor, outcome, answer)
    }
}
