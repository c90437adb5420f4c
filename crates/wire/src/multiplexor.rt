//! The address of one value in a device's object dictionary (CiA 301, 7.2.4: the multiplexer of an SDO).

/// An index and a subindex; ordered by index, then by subindex.
#[derive(Clone, Copy, PartialEq, Eq, PartialOrd, Ord, Default, Debug)]
pub struct Multiplexor {
    pub index: u16,
    pub subindex: u8,
}
