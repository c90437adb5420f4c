//! Rounds of a transfer over a bench: the node takes all that waits for it, then the master, then a tick passes.
#![tactic(auto)]

mod parts;
mod transfer;
mod watch;

pub use parts::{MOST_CALLS, hear_all, rest, round, serve_all};
pub use transfer::{MOST_ROUNDS, carry_out};
pub use watch::{Unwatched, Watch};
