//! What a partner may do with an entry (CiA 301, 7.4: the access attribute of an object dictionary entry).
ghost use Rattle.std.specs.Prelude.{◌≡◌};
ghost use Rattle.dictionary.specs.Accesses.{number, reads, writes};

/// Whether an entry's value may be read, written or both.
#[derive(Clone, Copy, PartialEq, Eq, Debug)]
pub enum Access {
    ReadOnly = 1,
    WriteOnly = 2,
    ReadWrite = 3,
}

impl Access {
    /// Whether a value may be read.
    pub fn reads(self) -> bool
        ensures { result ≡ reads self }
    {
        matches!(self, Access::ReadOnly | Access::ReadWrite)
    }

    /// Whether a value may be written.
    pub fn writes(self) -> bool
        ensures { result ≡ writes self }
    {
        matches!(self, Access::WriteOnly | Access::ReadWrite)
    }
}

/// The number of the access: 1 read, 2 write, 3 both.
impl From<Access> for u8 {
    ghost from_gives = { λ access n. n ≡ number access };

    fn from(access: Access) -> u8 {
        access as u8
    }
}
