//! What becomes of a transfer: the report that a caller gets of it when it is settled.
#![tactic(auto)]

mod refusal;
mod report;

pub use refusal::SettleRefusal;
pub use report::{Failure, Outcome, Report, report_of};
