//! How far a read in segments has come (CiA 301, 7.2.4.3.7: SDO upload segment).
use sdo::Toggle;
use wire::Multiplexor;

/// Where the value comes from, the toggle of the next request, and the number of bytes given.
#[derive(Clone, Copy)]
pub struct Delivery {
    pub multiplexor: Multiplexor,
    pub toggle: Toggle,
    pub given: usize,
}
