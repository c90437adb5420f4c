//! A dictionary that can be read.
ghost use Rattle.std.specs.Prelude.{◌≡◌, List, length};
ghost use Rattle.dictionary.specs.Entries.{Entry, Lawful};
ghost use Rattle.dictionary.specs.Questions.{attributes, copied, buffer_after, next_above};

use crate::attributes::Attributes;
use crate::refusal::CopyRefusal;
use wire::{AbortCode, Multiplexor};

/// What can be asked of a dictionary. Questions change nothing.
pub trait Readable {
    ghost meaning: { Self → List Entry };

    ghost lawful: { (d : Self) → Lawful (meaning d) };

    /// The access and lengths of an entry, or the code that says why there is none: 0602 0000 where no entry has the index,
    /// else 0609 0011.
    fn attributes(&self, multiplexor: Multiplexor) -> Result<Attributes, AbortCode>
        ensures { result ≡ attributes (meaning self.now) multiplexor };

    /// Copies an entry's value to the front of a buffer and tells its length. It is refused by the verdict on the read, then by 12
    /// where the buffer is shorter than the value; a refusal leaves the buffer as it was.
    fn copy_value(&self, multiplexor: Multiplexor, buffer: &mut [u8]) -> Result<usize, CopyRefusal>
        ensures answer { result ≡ copied (meaning self.now) multiplexor (length buffer.old) }
        ensures after { buffer.new ≡ buffer_after (meaning self.now) multiplexor buffer.old };

    /// The lowest multiplexor above a given one.
    fn next(&self, above: Multiplexor) -> Option<Multiplexor>
        ensures { result ≡ next_above (meaning self.now) above };
}
