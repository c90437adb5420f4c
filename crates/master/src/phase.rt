//! How far a transfer is (CiA 301, 7.2.4.3: the client's side of each SDO protocol).
use sdo::{CrcOffer, Toggle};
use wire::AbortCode;

/// What a master does.
#[derive(Clone, Copy)]
pub enum Phase {
    /// No transfer is there.
    Idle,
    /// A transfer is open, and an answer is awaited.
    Open(Awaiting),
    /// A transfer is over, and was not cleared yet.
    Over(Ending),
}

/// The answer that an open transfer awaits.
#[derive(Clone, Copy)]
pub enum Awaiting {
    /// That to the start of a write that carries its value.
    ExpeditedDownload,
    /// That to the start of a write in segments.
    InitiateDownload,
    /// That to a segment of a write, by its toggle and its number within the value.
    DownloadSegment { toggle: Toggle, number: u16 },
    /// That to the start of a read.
    InitiateUpload,
    /// A segment of a read, by its toggle and the size that was announced.
    UploadSegment { toggle: Toggle, size: Option<u32> },
    /// That to the start of a block write.
    InitiateBlockDownload,
    /// The acknowledgement of a sub-block.
    BlockDownload(SubBlock),
    /// That to the end of a block write.
    EndBlockDownload,
}

/// A sub-block that was sent.
#[derive(Clone, Copy)]
pub struct SubBlock {
    /// Whether the node offered a CRC.
    pub crc: CrcOffer,
    /// How many segments of the value the node had acknowledged before.
    pub acknowledged: u16,
    /// How many segments the sub-block has.
    pub count: u8,
    /// How many sub-blocks before it were not wholly acknowledged.
    pub short: u8,
}

/// How a transfer ended: by success, or by an abort, sent or heard.
pub type Ending = Result<(), Aborted>;

/// Why a transfer failed, and how far it was.
#[derive(Clone, Copy)]
pub struct Aborted {
    pub code: AbortCode,
    pub finder: Finder,
    /// Whether the node may have set the value all the same.
    pub may_be_set: bool,
    /// The highest segment of the value that was sent or asked for; 0 if none was.
    pub segment: u16,
}

/// Who ended a transfer.
#[derive(Clone, Copy, PartialEq)]
pub enum Finder {
    Master,
    Node,
}
