//! The orders of a load as text: one order a line, a multiplexor and the bytes to write there, and how to write them.
#![tactic(auto)]

mod bad_line;
mod fault;
mod hex;
mod hex_bytes;
mod line;
mod method;
mod order;
mod reading;
mod round_trip;

pub use bad_line::BadLine;
pub use fault::Fault;
pub use hex::{read_byte, read_multiplexor};
pub use hex_bytes::HexBytes;
pub use line::{read_line, without_return};
pub use method::{method_word, read_method};
pub use order::Order;
pub use reading::{Reading, read_orders};
pub use round_trip::orders_read_back;
