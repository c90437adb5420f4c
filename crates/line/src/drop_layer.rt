//! A layer over any line that loses frames by a pattern.
ghost use Rattle.std.specs.Prelude.{◌≡◌, Bool, false, ◌||◌};
ghost use Rattle.line.specs.Meanings.{sent, handed_out, taken, quieted};
ghost use Rattle.line.specs.Patterns.{lowest_bit, turned, BitsInTurn};
ghost use Rattle.line.specs.Drops.{layer_shown, passed};

use crate::end::End;
use crate::line::Line;
use crate::pattern::Pattern;
use wire::Frame;

/// A line that loses a frame wherever the lowest bit of its pattern is 1, and turns the pattern at every send.
#[derive(Drop)]
pub struct DropLayer<L: Line> {
    line: L,
    pattern: Pattern,
    lost: bool,
}

impl<L: Line> DropLayer<L> {
    /// A layer over a line that has lost nothing itself. The bits of the pattern decide in turn, from the lowest up and round.
    pub fn new(line: L, pattern: u64) -> Self
        ensures below { result.line ≡ line }
        ensures starts { result.pattern ≡ pattern }
        ensures unmarked { result.lost ≡ false }
        ensures in_turn { BitsInTurn }
    {
        DropLayer {
            line,
            pattern: Pattern::new(pattern),
            lost: false,
        }
    }
}

/// The lists are those of the line below; the mark is set where that of the line below or the layer's own is.
impl<L: Line> Line for DropLayer<L> {
    ghost shows = { layer_shown L.Line.shows };

    fn send(&mut self, to: End, frame: Frame)
        ensures exactly { (lost : Bool) × (layer_shown L.Line.shows self.new ≡ sent to frame (lowest_bit self.old.pattern || lost) (layer_shown L.Line.shows self.old)) × (L.Line.shows self.new.line ≡ passed (lowest_bit self.old.pattern) to frame lost (L.Line.shows self.old.line)) }
        ensures turns { self.new.pattern ≡ turned self.old.pattern }
    {
        if self.pattern.turn() {
            self.lost = true;
        } else {
            self.line.send(to, frame);
        }
    }

    fn take(&mut self, end: End) -> Option<Frame>
        ensures answer { result ≡ handed_out end (layer_shown L.Line.shows self.old) }
        ensures after { layer_shown L.Line.shows self.new ≡ taken end (layer_shown L.Line.shows self.old) }
        ensures stays { self.new.pattern ≡ self.old.pattern }
    {
        self.line.take(end)
    }

    fn quiet(&mut self)
        ensures after { layer_shown L.Line.shows self.new ≡ quieted }
        ensures stays { self.new.pattern ≡ self.old.pattern }
    {
        self.line.quiet();
        self.lost = false;
    }
}
