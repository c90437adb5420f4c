//! A layer over any line that keeps the frames that were sent.
ghost use Rattle.std.specs.Prelude.{◌≡◌, Bool, [], ◌∷◌, ◌++◌};
ghost use Rattle.line.specs.Meanings.{sent, handed_out, taken, quieted};
ghost use Rattle.line.specs.Records.{newest, counted, NewestOfAll};

use crate::end::End;
use crate::kept::Kept;
use crate::line::Line;
use crate::recording::Recording;
use crate::sent::Sent;
use wire::Frame;

/// A line that keeps the last `ROOM` frames that were sent, lost or not, and counts all of them.
#[derive(Drop)]
pub struct Recorder<L: Line, const ROOM: usize> {
    line: L,
    kept: Kept<ROOM>,
    sent: u64,
}

impl<L: Line, const ROOM: usize> Recorder<L, ROOM> {
    /// A layer over a line on which no frame was sent yet. Frame by frame it keeps the newest of all that were sent.
    pub fn new(line: L) -> Self
        ensures below { result.line ≡ line }
        ensures nothing { result.kept ≡ [] }
        ensures none { result.sent ≡ 0 }
        ensures newest_of_all { NewestOfAll }
    {
        Recorder {
            line,
            kept: Kept::new(),
            sent: 0,
        }
    }

    /// Keeps one frame more, and lets the oldest go where there is no room.
    fn record(&mut self, sent: Sent)
        ensures kept { self.new.kept ≡ newest ROOM (self.old.kept ++ sent ∷ []) }
        ensures count { self.new.sent ≡ counted self.old.sent }
        ensures stays { self.new.line ≡ self.old.line }
    {
        self.kept.put(sent);
        self.sent = self.sent.saturating_add(1);
    }
}

/// It means what the line below means. A frame is kept whether that line loses it or not.
impl<L: Line, const ROOM: usize> Line for Recorder<L, ROOM> {
    ghost shows = { λ r. L.Line.shows r.line };

    fn send(&mut self, to: End, frame: Frame)
        ensures sends { (lost : Bool) × (L.Line.shows self.new.line ≡ sent to frame lost (L.Line.shows self.old.line)) }
        ensures kept { self.new.kept ≡ newest ROOM (self.old.kept ++ record { to = to; frame = frame } ∷ []) }
        ensures count { self.new.sent ≡ counted self.old.sent }
    {
        self.record(Sent { to, frame });
        self.line.send(to, frame);
    }

    fn take(&mut self, end: End) -> Option<Frame>
        ensures answer { result ≡ handed_out end (L.Line.shows self.old.line) }
        ensures after { L.Line.shows self.new.line ≡ taken end (L.Line.shows self.old.line) }
        ensures kept { self.new.kept ≡ self.old.kept }
        ensures count { self.new.sent ≡ self.old.sent }
    {
        self.line.take(end)
    }

    fn quiet(&mut self)
        ensures after { L.Line.shows self.new.line ≡ quieted }
        ensures kept { self.new.kept ≡ self.old.kept }
        ensures count { self.new.sent ≡ self.old.sent }
    {
        self.line.quiet();
    }
}

/// It keeps up to `ROOM` frames.
impl<L: Line, const ROOM: usize> Recording for Recorder<L, ROOM> {
    ghost frames_kept = { λ r. r.kept };

    ghost frames_sent = { λ r. r.sent };

    fn sent(&self) -> u64 {
        self.sent
    }

    fn since(&self, number: u64) -> &[Sent] {
        let kept = self.kept.as_slice();
        let count = self.sent.saturating_sub(number) as usize;
        &kept[kept.len().saturating_sub(count)..]
    }
}
