//! Writes in segments, each answered before the next (CiA 301, 7.2.4.3.4: SDO download segment).
ghost use Rattle.master.specs.Steps.{send_segment, segment_taken};
ghost use Rattle.master.specs.Shown.{Follows};

use super::Master;
use crate::phase::Awaiting;
use crate::plan::{Batch, Step};
use crate::value::{is_last, segment};
use sdo::{Request, Segment, Toggle};

impl Master {
    /// A segment of a write was taken: the next one goes, and after the last one the transfer has succeeded.
    pub(crate) fn take_segment(&mut self, toggle: Toggle, number: u16) -> Step
        ensures { Follows (segment_taken self.old toggle number) self.new result }
    {
        if is_last(&self.value, number as usize) {
            self.succeed()
        } else {
            self.send_segment(toggle.other(), number + 1)
        }
    }

    /// A segment of a write is sent.
    pub(crate) fn send_segment(&mut self, toggle: Toggle, number: u16) -> Step
        ensures { Follows (send_segment self.old toggle number) self.new result }
    {
        let request = Request::DownloadSegment(Segment {
            toggle,
            bytes: segment(&self.value, number as usize),
            last: is_last(&self.value, number as usize),
        });
        self.send(
            Awaiting::DownloadSegment { toggle, number },
            number,
            Batch::One(request.to_frame(self.node)),
        )
    }
}
