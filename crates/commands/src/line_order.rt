//! Lines by their names.
ghost use Rattle.std.specs.Prelude.{◌≡◌, Some, []};
ghost use Rattle.commands.specs.Names.{line_name, line_named};
ghost use Rattle.commands.specs.Lines.{line_ordered};

use line::{NamedLine, Recorder};
use std::fmt;

/// How many frames a line of a program keeps: more than are sent from one look at it to the next. In a round these are 301 at most of the node,
/// one for each serve and one in the tick, and 1,300 of the master, which are all that it sends in a transfer.
const KEPT: usize = 2_048;

/// A line of a program, which keeps the last 2,048 frames that were sent.
pub type RecordedLine = Recorder<NamedLine, KEPT>;

/// A line, and the pattern by which it loses frames; 0 for none.
#[derive(Clone, Copy)]
pub struct LineOrder {
    pub kind: LineKind,
    pub pattern: u64,
}

/// The lines that have a name.
#[derive(Clone, Copy)]
pub enum LineKind {
    /// A line that holds 130 frames each way.
    Memory,
    /// A line that holds one frame each way.
    Mailbox,
}

impl LineOrder {
    /// The line that is ordered, on which nothing was sent yet.
    pub fn line(self) -> RecordedLine
        ensures below { result.line ≡ line_ordered self.kind self.pattern }
        ensures nothing { result.kept ≡ [] }
        ensures none { result.sent ≡ 0 }
    {
        Recorder::new(match self.kind {
            LineKind::Memory => NamedLine::memory(self.pattern),
            LineKind::Mailbox => NamedLine::mailbox(self.pattern),
        })
    }
}

impl LineKind {
    const ALL: [LineKind; 2] = [LineKind::Memory, LineKind::Mailbox];

    /// The line that a word names.
    pub fn named(word: &[u8]) -> Option<LineKind>
        ensures { result ≡ line_named word.now }
    {
        LineKind::ALL
            .into_iter()
            .find(|kind| word == kind.name().as_bytes())
    }

    /// The line's name.
    fn name(self) -> &'static str
        ensures { result.now ≡ line_name self }
    {
        match self {
            LineKind::Memory => "memory",
            LineKind::Mailbox => "mailbox",
        }
    }
}

impl fmt::Display for LineKind {
    ghost output = { λ kind. Some (line_name kind) };

    fn fmt<W: fmt::Write>(&self, f: &mut fmt::Formatter<W>) -> fmt::Result {
        f.write_str(self.name())
    }
}
