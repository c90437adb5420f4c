//! The rooms of the lines that have a name.
ghost use Rattle.std.specs.Prelude.{◌≡◌};
ghost use Rattle.line.specs.Meanings.{sent_within};

use crate::{End, Line, MailboxLine, MemoryLine};
use wire::Frame;

/// Sends a frame over a memory line and over a mailbox line; its contract states when they lose it.
pub fn named_rooms(memory: &mut MemoryLine, mailbox: &mut MailboxLine, to: End, frame: Frame)
    ensures memory { memory.new ≡ sent_within 130 to frame memory.old }
    ensures mailbox { mailbox.new ≡ sent_within 1 to frame mailbox.old }
{
    memory.send(to, frame);
    mailbox.send(to, frame);
}
