//! Reads: the answer to the start, and segment after segment (CiA 301, 7.2.4.3.6 and 7.2.4.3.7: SDO upload initiate and segment).
ghost use Rattle.std.specs.Prelude.{◌≡◌, ◌≤◌, ◌++◌, length};
ghost use Rattle.sdo.specs.FrameData.{value_in};
ghost use Rattle.sdo.specs.Transfers.{shown_transfer, Segmented};
ghost use Rattle.master.specs.declared.phase.Awaiting.TheVariants.{UploadSegment};
ghost use Rattle.master.specs.Values.{may_come};
ghost use Rattle.master.specs.Steps.{ask_segment, upload_started, read_whole, read_on};
ghost use Rattle.master.specs.Shown.{Follows};

use super::{Master, SEGMENT_CAP};
use crate::phase::Awaiting;
use crate::plan::{Batch, Step};
use sdo::{Request, Segment, SegmentData, Toggle, Transfer, differs};
use wire::{AbortCode, LONGEST};

impl Master {
    /// The node gives the value, or announces it.
    pub(crate) fn start_reading(&mut self, awaiting: Awaiting, transfer: Transfer) -> Step
        ensures { Follows (upload_started self.old awaiting (shown_transfer transfer)) self.new result }
    {
        match transfer {
            Transfer::Expedited { data } => {
                self.value.clear();
                self.value.try_extend_from_slice(data.value()).unwrap();
                self.succeed()
            }
            Transfer::Segmented { size } => self.start_segments(awaiting, size),
        }
    }

    /// The value comes in segments.
    fn start_segments(&mut self, awaiting: Awaiting, size: Option<u32>) -> Step
        ensures { Follows (upload_started self.old awaiting (Segmented size)) self.new result }
    {
        if may_come(size) {
            self.value.clear();
            self.ask_segment(Toggle::Zero, size)
        } else {
            self.find(awaiting, AbortCode::OutOfMemory)
        }
    }

    /// One more segment of the value is there.
    pub(crate) fn read_on(&mut self, size: Option<u32>, segment: Segment) -> Step
        ensures { Follows (read_on self.old (UploadSegment segment.toggle size) segment.toggle size segment.last (self.old.value ++ value_in segment.bytes)) self.new result }
    {
        let toggle = segment.toggle;
        let bytes = segment.bytes;
        let awaiting = Awaiting::UploadSegment { toggle, size };
        let total = self.value.len() + bytes.value().len();
        if total > LONGEST {
            self.find(awaiting, AbortCode::OutOfMemory)
        } else if segment.last {
            self.read_whole(awaiting, size, bytes)
        } else {
            self.value.try_extend_from_slice(bytes.value()).unwrap();
            self.ask_segment(toggle.other(), size)
        }
    }

    /// The last segment of the value is there.
    fn read_whole(&mut self, awaiting: Awaiting, size: Option<u32>, bytes: SegmentData) -> Step
        requires { length (self.old.value ++ value_in bytes) ≤ 1024 }
        ensures { Follows (read_whole self.old awaiting size (self.old.value ++ value_in bytes)) self.new result }
    {
        let total = self.value.len() + bytes.value().len();
        if total < 1 {
            self.find(awaiting, AbortCode::OutOfMemory)
        } else if differs(size, total) {
            self.find(awaiting, AbortCode::LengthMismatch)
        } else {
            self.value.try_extend_from_slice(bytes.value()).unwrap();
            self.succeed()
        }
    }

    /// One more segment is asked for.
    fn ask_segment(&mut self, toggle: Toggle, size: Option<u32>) -> Step
        ensures { Follows (ask_segment self.old toggle size self.old.value) self.new result }
    {
        let highest = self.highest.min(SEGMENT_CAP - 1) + 1;
        self.send(
            Awaiting::UploadSegment { toggle, size },
            highest,
            Batch::One(Request::UploadSegment { toggle }.to_frame(self.node)),
        )
    }
}

/// Whether an announced size is one that a value can have, where there is one.
fn may_come(size: Option<u32>) -> bool
    ensures { result ≡ may_come size }
{
    size.is_none_or(|size| size >= 1 && size as usize <= LONGEST)
}
