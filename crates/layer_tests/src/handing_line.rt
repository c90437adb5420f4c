//! A layer over any line.
ghost use Rattle.std.specs.Prelude.{◌≡◌};

use line::{End, Line};
use wire::Frame;

/// A line that hands every call on to the one below it.
#[derive(Drop)]
pub struct HandingLine<L: Line> {
    line: L,
}

impl<L: Line> HandingLine<L> {
    /// A layer over a line.
    pub fn new(line: L) -> Self
        ensures { result.line ≡ line }
    {
        HandingLine { line }
    }
}

/// It loses what the line below loses.
impl<L: Line> Line for HandingLine<L> {
    ghost shows = { λ h. L.Line.shows h.line };

    fn send(&mut self, to: End, frame: Frame) {
        self.line.send(to, frame);
    }

    fn take(&mut self, end: End) -> Option<Frame> {
        self.line.take(end)
    }

    fn quiet(&mut self) {
        self.line.quiet();
    }
}
