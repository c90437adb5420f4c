//! Bytes put into a buffer, and taken from it.
ghost use Rattle.std.specs.Prelude.{◌≡◌, ◌+◌, ◌-◌, ◌≤◌, [], ◌++◌, length, take, drop, None};
ghost use Rattle.dictionary.specs.Commits.{decided};
ghost use Rattle.dictionary.specs.Questions.{value_at};
ghost use Rattle.dictionary.specs.Verdicts.{read_verdict};
ghost use Rattle.node.specs.Buffers.{full};

use super::{Buffer, ROOM};
use dictionary::Readable;
use wire::{AbortCode, Multiplexor};

impl Buffer {
    /// A buffer that holds nothing.
    pub(crate) fn new() -> Buffer
        ensures { result ≡ [] }
    {
        Buffer {
            bytes: [0; ROOM],
            len: 0,
        }
    }

    /// The bytes that are held.
    pub(crate) fn held(&self) -> &[u8]
        ensures { result.now ≡ self.now }
    {
        &self.bytes[..self.len]
    }

    /// The bytes that are held behind the first few.
    pub(crate) fn rest(&self, given: usize) -> &[u8]
        ensures value { result.now ≡ drop given self.now }
        ensures bound { length self.now ≤ 1029 }
    {
        if given < self.len {
            &self.bytes[given..self.len]
        } else {
            &[]
        }
    }

    /// How many bytes are held.
    pub(crate) fn len(&self) -> usize
        ensures value { result ≡ length self.now }
        ensures bound { result ≤ 1029 }
    {
        self.len
    }

    /// Whether no further segment of seven bytes has room.
    pub(crate) fn is_full(&self) -> bool
        ensures { result ≡ full self.now }
    {
        self.len + 7 > ROOM
    }

    /// Holds nothing any more.
    pub(crate) fn clear(&mut self)
        ensures { self.new ≡ [] }
    {
        self.len = 0;
    }

    /// Holds some bytes more behind the others.
    pub(crate) fn append(&mut self, more: &[u8])
        requires { length self.old + length more.now ≤ 1029 }
        ensures { self.new ≡ self.old ++ more.now }
    {
        let end = self.len + more.len();
        self.bytes[self.len..end].copy_from_slice(more);
        self.len = end;
    }

    /// Holds some bytes fewer: the last ones are let go.
    pub(crate) fn shorten(&mut self, unused: usize)
        ensures { self.new ≡ take (length self.old - unused) self.old }
    {
        self.len = self.len.saturating_sub(unused);
    }

    /// Holds an entry's value and nothing else, or tells the verdict on its read.
    pub(crate) fn load<D: Readable>(
        &mut self,
        dictionary: &D,
        multiplexor: Multiplexor,
    ) -> Result<(), AbortCode>
        ensures answer { result ≡ decided (read_verdict (D.Readable.meaning dictionary.now) multiplexor) }
        ensures after { read_verdict (D.Readable.meaning dictionary.now) multiplexor ≡ None → self.new ≡ value_at (D.Readable.meaning dictionary.now) multiplexor }
    {
        self.len = dictionary.copy_value(multiplexor, &mut self.bytes)?;
        Ok(())
    }
}
