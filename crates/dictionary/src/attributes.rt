//! What is told of an entry beside its value.
ghost use Rattle.std.specs.Prelude.{◌≡◌, None};
ghost use Rattle.dictionary.specs.Commits.{decided};
ghost use Rattle.dictionary.specs.Plain.{lawful_lengths, objection, start_objection};

use crate::access::Access;
use wire::{AbortCode, LONGEST};

/// An entry's access and the lengths in bytes that its value may have, from shortest to longest.
#[derive(Clone, Copy, PartialEq, Eq, Debug)]
pub struct Attributes {
    pub access: Access,
    pub shortest: u16,
    pub longest: u16,
}

impl Attributes {
    /// Says what speaks against writing a value of some length to an entry with these attributes: 0601 0002 where it may not be written,
    /// 0607 0013 where the value is too short, 0607 0012 where it is too long.
    pub fn check(self, len: usize) -> Result<(), AbortCode>
        ensures { result ≡ decided (objection self len) }
    {
        self.check_access()?;
        if len < usize::from(self.shortest) {
            return Err(AbortCode::LengthTooLow);
        }
        if len > usize::from(self.longest) {
            return Err(AbortCode::LengthTooHigh);
        }
        Ok(())
    }

    /// Says what speaks against starting a write to an entry with these attributes, where its length is known or not yet.
    pub fn check_start(self, size: Option<u32>) -> Result<(), AbortCode>
        ensures { result ≡ decided (start_objection self size) }
    {
        match size {
            Some(len) => self.check(len as usize),
            None => self.check_access(),
        }
    }

    /// Says what speaks against writing any value.
    fn check_access(self) -> Result<(), AbortCode>
        ensures { result ≡ decided (start_objection self None) }
    {
        if self.access.writes() {
            Ok(())
        } else {
            Err(AbortCode::ReadOnly)
        }
    }

    /// Whether the lengths are in order within 1 to 1,024, and a value's length fits them.
    pub(crate) fn are_lawful(self, len: usize) -> bool
        ensures { result ≡ lawful_lengths self len }
    {
        1 <= self.shortest
            && self.shortest <= self.longest
            && usize::from(self.longest) <= LONGEST
            && usize::from(self.shortest) <= len
            && len <= usize::from(self.longest)
    }
}
