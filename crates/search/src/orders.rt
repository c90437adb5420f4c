//! What it means that keys are in order.
ghost use Rattle.std.specs.Prelude.{◌≡◌, ℕ, nat_lt};
ghost use Rattle.search.specs.Orders.{earlier, Irreflexive, Transitive, Connected};

/// States that the order of keys of any kind is strict.
pub fn ordered<K: Ord>()
    ensures irreflexive { Irreflexive (earlier K.cmp) }
    ensures transitive { Transitive (earlier K.cmp) }
{}

/// States that numbers of 32 bits, as abort codes have them, stand in order of size, and that of two others one stands before the other.
pub fn numbers_ordered()
    ensures before { (a b : ℕ) → earlier ⟦<u32 as Ord>⟧.cmp a b ≡ nat_lt a b }
    ensures connected { Connected (earlier ⟦<u32 as Ord>⟧.cmp) }
{}
