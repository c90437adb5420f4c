//! What every line promises that keeps the frames that are sent.
ghost use Rattle.std.specs.Prelude.{◌≡◌, ◌-◌, ℕ, List};
ghost use Rattle.line.specs.declared.sent.Sent.{Sent};
ghost use Rattle.line.specs.Records.{newest};

use crate::line::Line;
use crate::sent::Sent;

/// A line that tells which frames were sent last, lost or not.
pub trait Recording: Line {
    ghost frames_kept: { Self → List Sent };

    ghost frames_sent: { Self → ℕ };

    /// How many frames were sent; from 2^64 - 1 on the number stays.
    fn sent(&self) -> u64
        ensures { result ≡ frames_sent self.now };

    /// The frames that were sent after so many others, the first in first, as far as they are kept.
    fn since(&self, number: u64) -> &[Sent]
        ensures { result.now ≡ newest (frames_sent self.now - number) (frames_kept self.now) };
}
