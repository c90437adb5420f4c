//! A line that is chosen at run time.
ghost use Rattle.std.specs.Prelude.{◌≡◌, ◌||◌, Bool};
ghost use Rattle.line.specs.declared.named_line.NamedLine.TheVariants.{Memory, Mailbox};
ghost use Rattle.line.specs.Drops.{fresh_layer};
ghost use Rattle.line.specs.Meanings.{sent, handed_out, taken, quieted};
ghost use Rattle.line.specs.Named.{named_shown, dropped_by};
ghost use Rattle.line.specs.Patterns.{lowest_bit, turned};

use crate::bounded_line::{MailboxLine, MemoryLine};
use crate::drop_layer::DropLayer;
use crate::end::End;
use crate::line::Line;
use wire::Frame;

/// One of the lines that have a name, under a drop layer; the pattern 0 drops nothing.
#[derive(Drop)]
pub enum NamedLine {
    Memory(DropLayer<MemoryLine>),
    Mailbox(DropLayer<MailboxLine>),
}

impl NamedLine {
    /// A line that holds 130 frames each way and loses some by a pattern. Nothing waits on it, and nothing was lost.
    pub fn memory(pattern: u64) -> NamedLine
        ensures { result ≡ Memory (fresh_layer quieted pattern) }
    {
        NamedLine::Memory(DropLayer::new(MemoryLine::new(), pattern))
    }

    /// A line that holds one frame each way and loses some by a pattern. Nothing waits on it, and nothing was lost.
    pub fn mailbox(pattern: u64) -> NamedLine
        ensures { result ≡ Mailbox (fresh_layer quieted pattern) }
    {
        NamedLine::Mailbox(DropLayer::new(MailboxLine::new(), pattern))
    }
}

/// It means what its layer means, and turns its pattern as the layer does.
impl Line for NamedLine {
    ghost shows = { named_shown };

    fn send(&mut self, to: End, frame: Frame)
        ensures exactly { (lost : Bool) × (named_shown self.new ≡ sent to frame (lowest_bit (dropped_by self.old) || lost) (named_shown self.old)) }
        ensures turns { dropped_by self.new ≡ turned (dropped_by self.old) }
    {
        match self {
            NamedLine::Memory(layer) => layer.send(to, frame),
            NamedLine::Mailbox(layer) => layer.send(to, frame),
        }
    }

    fn take(&mut self, end: End) -> Option<Frame>
        ensures answer { result ≡ handed_out end (named_shown self.old) }
        ensures after { named_shown self.new ≡ taken end (named_shown self.old) }
        ensures stays { dropped_by self.new ≡ dropped_by self.old }
    {
        match self {
            NamedLine::Memory(layer) => layer.take(end),
            NamedLine::Mailbox(layer) => layer.take(end),
        }
    }

    fn quiet(&mut self)
        ensures after { named_shown self.new ≡ quieted }
        ensures stays { dropped_by self.new ≡ dropped_by self.old }
    {
        match self {
            NamedLine::Memory(layer) => layer.quiet(),
            NamedLine::Mailbox(layer) => layer.quiet(),
        }
    }
}
