//! What the start of a block write says (CiA 301, 7.2.4.3.9: SDO block download initiate).
use crate::download_start::DownloadStart;
use sdo::CrcOffer;

/// What the start of every write says, and whether the master offered a CRC.
#[derive(Clone, Copy)]
pub struct BlockStart {
    pub download: DownloadStart,
    pub crc: CrcOffer,
}
