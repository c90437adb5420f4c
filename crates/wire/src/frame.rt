//! A CAN data frame as SDO uses it: an identifier and always eight bytes (CiA 301, 7.2.4.3).
use crate::identifier::Identifier;

/// An identifier of 11 bits and the bytes b0 to b7.
#[derive(Clone, Copy, PartialEq, Eq, Debug)]
pub struct Frame {
    pub identifier: Identifier,
    pub bytes: [u8; 8],
}
