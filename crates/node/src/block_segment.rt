//! What a block segment says (CiA 301, 7.2.4.3.10: SDO block download sub-block).
use sdo::SequenceNumber;

/// Whether it is the last of all, its number within its sub-block, and its seven bytes.
#[derive(Clone, Copy)]
pub struct BlockSegment {
    pub last: bool,
    pub number: SequenceNumber,
    pub data: [u8; 7],
}
