//! The ticket of a transfer.
ghost use Rattle.std.specs.Prelude.{◌≡◌};

use std::marker::Model;

/// The number of a transfer that has to be settled. For other crates begin alone makes one, and settle alone takes it back.
/// It has no `Drop`, so that a program which lets one go does not compile.
pub struct Ticket {
    number: u16,
}

impl Model for Ticket {
    ghost use Rattle.std.specs.Prelude.{ℕ};

    ghost Value = { ℕ };

    ghost view = { λ ticket. ticket.number };
}

impl Ticket {
    /// The ticket of a number: of a transfer that has just begun, or of any that a list of calls names.
    pub(crate) fn new(number: u16) -> Ticket
        ensures { result ≡ number }
    {
        Ticket { number }
    }

    /// The transfer's number, from 1.
    pub fn number(&self) -> u16
        ensures { result ≡ self.now }
    {
        self.number
    }

    /// Takes a ticket whose transfer is settled, or that was never out.
    pub(crate) fn take_back(self) {
        let Ticket { number: _ } = self;
    }
}
