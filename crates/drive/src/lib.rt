//! A drive: a dictionary that holds numbers and shows bytes, with two objects of CiA 402.
#![tactic(auto)]

mod acceleration;
mod drive;
mod laws;
mod mode;
mod object;

pub use acceleration::ProfileAcceleration;
pub use drive::Drive;
pub use laws::drive_laws;
pub use mode::ModeOfOperation;
