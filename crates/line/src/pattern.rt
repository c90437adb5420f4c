//! Which frames a drop layer loses.
ghost use Rattle.std.specs.Prelude.{◌≡◌};
ghost use Rattle.line.specs.Patterns.{lowest_bit, turned};

use std::marker::Model;

/// A pattern of 64 bits, read from the lowest bit on and round.
#[derive(Drop)]
pub struct Pattern {
    bits: u64,
}

/// Clauses see the bits as a number.
impl Model for Pattern {
    ghost use Rattle.std.specs.Prelude.{ℕ};

    ghost Value = { ℕ };

    ghost view = { λ p. p.bits };
}

impl Pattern {
    /// The pattern of some bits.
    pub fn new(bits: u64) -> Self
        ensures { result ≡ bits }
    {
        Pattern { bits }
    }

    /// Tells whether the lowest bit is 1, and turns the pattern right by one bit.
    pub fn turn(&mut self) -> bool
        ensures answer { result ≡ lowest_bit self.old }
        ensures after { self.new ≡ turned self.old }
    {
        let lowest = self.bits % 2 == 1;
        self.bits = self.bits.rotate_right(1);
        lowest
    }
}
