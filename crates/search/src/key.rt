//! What rows are found by.
ghost use Rattle.search.specs.Orders.{earlier, Connected};

/// Values in a strict total order: what holds of every order (`Ord`), and that of two different keys one stands before the other.
pub trait Key: Ord + Copy {
    // Of two different keys one stands before the other.
    ghost connected: { Connected (earlier Self.cmp) };
}
