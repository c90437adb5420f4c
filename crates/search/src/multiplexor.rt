//! Multiplexors as keys.
ghost use Rattle.wire.proofs.Multiplexors.{connected as one_before_the_other};

use crate::key::Key;
use wire::Multiplexor;

/// Multiplexors, by index and then by subindex.
impl Key for Multiplexor {
    ghost connected = { one_before_the_other };
}
