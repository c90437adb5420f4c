//! What the start of a write says (CiA 301, 7.2.4.3.3: SDO download initiate).
use wire::Multiplexor;

/// Where the value goes, and its size where it was announced.
#[derive(Clone, Copy)]
pub struct DownloadStart {
    pub multiplexor: Multiplexor,
    pub size: Option<u32>,
}
