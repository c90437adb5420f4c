//! What every line promises.
ghost use Rattle.std.specs.Prelude.{◌≡◌, Bool};
ghost use Rattle.line.specs.Meanings.{Meaning, sent, handed_out, taken, quieted};

use crate::end::End;
use wire::Frame;

/// A line between a master and a node. Only whether a frame that is sent gets lost is left open.
pub trait Line {
    ghost shows: { Self → Meaning };

    /// Puts a frame behind all that wait for an end, or loses it.
    fn send(&mut self, to: End, frame: Frame)
        ensures sends { (lost : Bool) × (shows self.new ≡ sent to frame lost (shows self.old)) };

    /// Takes the first frame that waits for an end; none where none waits.
    fn take(&mut self, end: End) -> Option<Frame>
        ensures answer { result ≡ handed_out end (shows self.old) }
        ensures after { shows self.new ≡ taken end (shows self.old) };

    /// Lets go of all that waits, and forgets that a frame was lost.
    fn quiet(&mut self)
        ensures after { shows self.new ≡ quieted };
}
