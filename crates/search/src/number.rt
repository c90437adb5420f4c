//! Numbers as keys.
ghost use Rattle.std.proofs.Math.Nat.{le_antisymm};
ghost use Rattle.std.proofs.lemmas.Map.Keys.{ge_from_not_lt};

use crate::key::Key;

/// Numbers of 32 bits, as abort codes have them, by their size.
impl Key for u32 {
    ghost connected = { λ a b p q. le_antisymm (ge_from_not_lt b a q) (ge_from_not_lt a b p) };
}
