//! Why a call on a dictionary was turned away, with the numbers of docs/refusals.md.
ghost use Rattle.std.specs.Prelude.{◌≡◌};
ghost use Rattle.dictionary.specs.Refusals.{add_number, copy_number, code_of};
ghost use Rattle.dictionary.specs.declared.refusal.CopyRefusal.TheVariants.{Verdict};

use wire::AbortCode;

/// Why a table did not take an entry.
#[derive(Clone, Copy, PartialEq, Eq, Debug)]
pub enum AddRefusal {
    /// 64 entries are there.
    Full = 8,
    /// The multiplexor is not above the last one.
    NotAbove = 9,
    /// The lengths are out of order or out of range, or the value's length is not between them.
    Unlawful = 10,
    /// The longest lengths would need more than 4,096 bytes.
    NoRoom = 11,
}

/// The refusal's number, 8 to 11.
impl From<AddRefusal> for u8 {
    ghost from_gives = { λ refusal n. n ≡ add_number refusal };

    fn from(refusal: AddRefusal) -> u8 {
        refusal as u8
    }
}

/// Why a value was not copied.
#[derive(Clone, Copy, PartialEq, Eq, Debug)]
pub enum CopyRefusal {
    /// The dictionary's verdict on the read.
    Verdict(AbortCode),
    /// The buffer is shorter than the value.
    ShortBuffer,
}

impl CopyRefusal {
    /// The refusal's number, 12; a verdict is told by its code and has none.
    pub fn number(self) -> Option<u8>
        ensures { result ≡ copy_number self }
    {
        match self {
            CopyRefusal::Verdict(_) => None,
            CopyRefusal::ShortBuffer => Some(12),
        }
    }
}

/// A verdict on the read is why the value is not copied.
impl From<AbortCode> for CopyRefusal {
    ghost from_gives = { λ code refusal. refusal ≡ Verdict code };

    fn from(code: AbortCode) -> CopyRefusal {
        CopyRefusal::Verdict(code)
    }
}

/// What a master is told of a value that was not copied: the verdict, or that the memory does not suffice.
impl From<CopyRefusal> for AbortCode {
    ghost from_gives = { λ refusal code. code ≡ code_of refusal };

    fn from(refusal: CopyRefusal) -> AbortCode {
        match refusal {
            CopyRefusal::Verdict(verdict) => verdict,
            CopyRefusal::ShortBuffer => AbortCode::OutOfMemory,
        }
    }
}
