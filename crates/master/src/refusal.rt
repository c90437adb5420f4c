//! Why no transfer was begun, with the numbers of docs/refusals.md.
ghost use Rattle.std.specs.Prelude.{◌≡◌};
ghost use Rattle.master.specs.Refusals.{begin_number};

/// Why a master did not begin a transfer.
#[derive(Clone, Copy, PartialEq, Eq, Debug)]
pub enum BeginRefusal {
    /// An earlier transfer has not been cleared.
    NotCleared = 1,
    /// The master rests.
    Resting = 2,
    /// 65,535 transfers were begun.
    AllBegun = 3,
    /// The value has no bytes, or more than 1,024.
    ValueLength = 4,
    /// The value has more than four bytes, and was to go with its start.
    NotExpedited = 5,
}

/// The refusal's number, 1 to 5.
impl From<BeginRefusal> for u8 {
    ghost from_gives = { λ refusal result. result ≡ begin_number refusal };

    fn from(refusal: BeginRefusal) -> u8 {
        refusal as u8
    }
}
