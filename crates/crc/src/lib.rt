//! The check value (CRC) of SDO block transfers (CiA 301, 7.2.4.3.16): generator x^16 + x^12 + x^5 + 1, start 0, highest bit first.
#![tactic(auto)]

mod laws;
mod register;
mod table;
#[cfg(test)]
mod tests;

pub use laws::known_values;
pub use register::checksum;
