//! A layer over any dictionary.
ghost use Rattle.std.specs.Prelude.{◌≡◌};

use dictionary::{Attributes, CopyRefusal, Readable, Writable};
use wire::{AbortCode, Multiplexor};

/// A dictionary that hands every call on to the one below it.
#[derive(Drop)]
pub struct HandingDictionary<D: Writable> {
    dictionary: D,
}

impl<D: Writable> HandingDictionary<D> {
    /// A layer over a dictionary.
    pub fn new(dictionary: D) -> Self
        ensures { result.dictionary ≡ dictionary }
    {
        HandingDictionary { dictionary }
    }
}

/// It answers what the dictionary below answers.
impl<D: Writable> Readable for HandingDictionary<D> {
    ghost meaning = { λ h. D.Readable.meaning h.dictionary };

    ghost lawful = { λ h. D.Readable.lawful h.dictionary };

    fn attributes(&self, multiplexor: Multiplexor) -> Result<Attributes, AbortCode> {
        self.dictionary.attributes(multiplexor)
    }

    fn copy_value(
        &self,
        multiplexor: Multiplexor,
        buffer: &mut [u8],
    ) -> Result<usize, CopyRefusal> {
        self.dictionary.copy_value(multiplexor, buffer)
    }

    fn next(&self, above: Multiplexor) -> Option<Multiplexor> {
        self.dictionary.next(above)
    }
}

/// It takes what the dictionary below takes.
impl<D: Writable> Writable for HandingDictionary<D> {
    fn commit(&mut self, multiplexor: Multiplexor, value: &[u8]) -> Result<(), AbortCode> {
        self.dictionary.commit(multiplexor, value)
    }
}
