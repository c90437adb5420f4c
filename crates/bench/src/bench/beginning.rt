//! How a transfer begins.
ghost use Rattle.std.specs.Prelude.{◌≡◌, Bool, List};
ghost use Rattle.master.specs.Sendings.{shown_sending};
ghost use Rattle.bench.specs.Model.Lines.{carried};

use super::sending::put_on_line;
use crate::ticket::Ticket;
use line::Line;
use master::Begun;

/// Sends the start of a transfer that was begun, and hands out its ticket.
#[inline(always)]
pub(super) fn start<L: Line>(line: &mut L, begun: Begun) -> Ticket
    ensures number { result ≡ begun.entry.number }
    ensures after { (ls : List Bool) × (L.Line.shows line.new ≡ carried (shown_sending begun.entry.sending) ls (L.Line.shows line.old)) }
{
    put_on_line(line, begun.sending);
    Ticket::new(begun.number)
}
