//! The bench: a master, a node, the line between them and the node's dictionary, stepped by calls.
#![tactic(auto)]

mod bench;
mod call;
mod cases;
mod laws;
mod response;
mod run;
mod session;
mod steppable;
mod ticket;

pub use bench::Bench;
pub use call::Call;
pub use cases::sample_cases;
pub use laws::{law_says, law_stands, verdict_layers};
pub use response::{Response, Ticked};
pub use run::{Ran, run_calls};
pub use session::Session;
pub use steppable::Steppable;
pub use ticket::Ticket;
