//! A dictionary that can be written too.
ghost use Rattle.std.specs.Prelude.{◌≡◌};
ghost use Rattle.dictionary.specs.Verdicts.{write_verdict};
ghost use Rattle.dictionary.specs.Commits.{decided, committed};

use crate::readable::Readable;
use wire::{AbortCode, Multiplexor};

/// A readable dictionary whose values can be set.
pub trait Writable: Readable {
    /// Sets an entry's value where nothing speaks against it; else answers the verdict's code and changes nothing.
    fn commit(&mut self, multiplexor: Multiplexor, value: &[u8]) -> Result<(), AbortCode>
        ensures answer { result ≡ decided (write_verdict (Self.Readable.meaning self.old) multiplexor value.now) }
        ensures after { Self.Readable.meaning self.new ≡ committed (Self.Readable.meaning self.old) multiplexor value.now };
}
