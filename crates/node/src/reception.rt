//! How far a block write has come (CiA 301, 7.2.4.3.10: SDO block download sub-block).
use crate::block_start::BlockStart;

/// What the start said, the number of the next segment in its sub-block, and whether there was one too many.
#[derive(Clone, Copy)]
pub struct Reception {
    pub start: BlockStart,
    pub expected: u8,
    pub spoiled: bool,
}
