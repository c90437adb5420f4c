//! The verdict on a write before its value is there.
ghost use Rattle.std.specs.Prelude.{◌≡◌};
ghost use Rattle.dictionary.specs.Commits.{decided};
ghost use Rattle.dictionary.specs.Verdicts.{start_verdict};

use crate::readable::Readable;
use wire::{AbortCode, Multiplexor};

/// Says what a dictionary has against the start of a write, whose length is known or not yet.
pub fn check_start<D: Readable>(
    dictionary: &D,
    multiplexor: Multiplexor,
    size: Option<u32>,
) -> Result<(), AbortCode>
    ensures { result ≡ decided (start_verdict (D.Readable.meaning dictionary.now) multiplexor size) }
{
    dictionary.attributes(multiplexor)?.check_start(size)
}
