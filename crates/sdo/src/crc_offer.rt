//! Whether an end of a block transfer can check its value (CiA 301, 7.2.4.3.9: the bits cc and sc).
ghost use Rattle.std.specs.Prelude.{◌≡◌, ◌≤◌};
ghost use Rattle.sdo.specs.Blocks.{offer_bit};

/// A CRC is offered, or none.
#[derive(Clone, Copy, PartialEq, Eq, Debug)]
pub enum CrcOffer {
    Offered,
    NotOffered,
}

impl CrcOffer {
    /// The bit as a number.
    pub(crate) fn bit(self) -> u8
        ensures value { result ≡ offer_bit self }
        ensures bound { result ≤ 1 }
    {
        match self {
            CrcOffer::Offered => 1,
            CrcOffer::NotOffered => 0,
        }
    }
}
