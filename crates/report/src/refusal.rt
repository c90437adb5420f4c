//! Why a transfer was not settled, with the numbers of docs/refusals.md.
ghost use Rattle.std.specs.Prelude.{◌≡◌};
ghost use Rattle.report.specs.Refusals.{settle_number};

/// Why a ticket was not taken.
#[derive(Clone, Copy, PartialEq, Eq, Debug)]
pub enum SettleRefusal {
    /// The ticket's number is not that of the ticket that is out.
    NotOut = 6,
    /// The buffer has fewer than 1,024 bytes.
    ShortBuffer = 7,
}

/// The refusal's number, 6 or 7.
impl From<SettleRefusal> for u8 {
    ghost from_gives = { λ refusal result. result ≡ settle_number refusal };

    fn from(refusal: SettleRefusal) -> u8 {
        refusal as u8
    }
}
