//! The node: the SDO server of CiA 301, which sets and reads the values of its dictionary as a master asks.
#![tactic(auto)]

mod activity;
mod block_segment;
mod block_start;
mod buffer;
mod delivery;
mod download_start;
mod laws;
mod node;
mod reaction;
mod reception;
mod served;

pub use laws::{answer_laws, commit_laws, time_laws};
pub use node::Node;
pub use reaction::Reaction;
pub use served::Served;
