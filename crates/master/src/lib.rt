//! The master: the SDO client of CiA 301, which reads and writes the values of a node. It is stepped by calls and says what is to be done on the line.
#![tactic(auto)]

mod direction;
mod frames;
mod heard;
mod laws;
mod master;
mod method;
mod phase;
mod plan;
mod refusal;
mod sending;
mod value;

pub use direction::Direction;
pub use frames::{Frames, Segments};
pub use heard::Heard;
pub use laws::master_laws;
pub use master::{MOST_TRANSFERS, Master, REST};
pub use method::{MOST_EXPEDITED, MOST_SEGMENTED, Method};
pub use phase::{Aborted, Ending, Finder};
pub use refusal::BeginRefusal;
pub use sending::{Begun, Hearing, Sending, Tick};
