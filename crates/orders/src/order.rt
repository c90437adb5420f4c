//! One order of a load.
use master::Method;
use wire::Multiplexor;

/// A value to write, the address to write it at, and how to write it.
#[derive(PartialEq, Debug, Drop)]
pub struct Order {
    pub method: Method,
    pub multiplexor: Multiplexor,
    pub value: Vec<u8>,
}
