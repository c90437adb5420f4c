//! One binary search for rows with keys of any kind that is in order.
#![tactic(auto)]

mod binary;
mod key;
mod keyed;
mod multiplexor;
mod number;
mod orders;
#[cfg(test)]
mod tests;

pub use binary::{count_before, place};
pub use key::Key;
pub use keyed::Keyed;
pub use orders::{numbers_ordered, ordered};
