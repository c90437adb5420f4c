//! What a node is doing (CiA 301, 7.2.4.3: the server's side of each SDO protocol).
use crate::block_start::BlockStart;
use crate::delivery::Delivery;
use crate::download_start::DownloadStart;
use crate::reception::Reception;
use sdo::Toggle;

/// The transfer that a node is in. Its bytes are in the node's buffer.
#[derive(Clone, Copy)]
pub enum Activity {
    Idle,
    /// A write in segments, with what its start said and the toggle of the next segment.
    Download {
        start: DownloadStart,
        toggle: Toggle,
    },
    /// A read in segments.
    Upload {
        delivery: Delivery,
    },
    /// A block write whose segments come in.
    BlockDownload {
        reception: Reception,
    },
    /// A block write whose last segment is there.
    BlockEnd {
        start: BlockStart,
    },
}
