//! What a master asks of a node (CiA 301, 7.2.4.3: the client's frames of each SDO protocol but the segments of a block).
ghost use Rattle.std.specs.Prelude.{◌≡◌};
ghost use Rattle.std.specs.Option.{option_map};
ghost use Rattle.sdo.specs.Frames.{request_frame};
ghost use Rattle.sdo.specs.Blocks.{end_bytes};
ghost use Rattle.sdo.specs.Requests.{request_bytes, request_in, shown_request, block_start_in, block_end_in, block_download_in};

use crate::crc_offer::CrcOffer;
use crate::layout::{self, Initiate};
use crate::ranged::UnusedBytes;
use crate::segment_frame::Segment;
use crate::toggle::Toggle;
use crate::transfer::Transfer;
use wire::{AbortCode, Frame, Identifier, Multiplexor, NodeNumber};

/// A request, by the CiA 301 name of its protocol.
#[derive(Clone, Copy, PartialEq, Eq, Debug)]
pub enum Request {
    /// The start of a write.
    InitiateDownload {
        multiplexor: Multiplexor,
        transfer: Transfer,
    },
    /// A segment of a value that is written.
    DownloadSegment(Segment),
    /// The start of a read.
    InitiateUpload {
        multiplexor: Multiplexor,
    },
    /// The next segment of a value that is read.
    UploadSegment {
        toggle: Toggle,
    },
    /// The start of a block write.
    InitiateBlockDownload {
        multiplexor: Multiplexor,
        crc: CrcOffer,
        size: Option<u32>,
    },
    /// The end of a block write.
    EndBlockDownload {
        unused: UnusedBytes,
        crc: u16,
    },
    /// The end of any transfer, and why.
    Abort {
        multiplexor: Multiplexor,
        code: AbortCode,
    },
}

impl Request {
    /// The eight bytes of the request.
    pub fn to_bytes(&self) -> [u8; 8]
        ensures { result ≡ request_bytes (shown_request self.now) }
    {
        self.spelled()
    }

    /// The eight bytes, folded into the caller's code where it knows the kind.
    #[inline(always)]
    fn spelled(&self) -> [u8; 8]
        ensures { result ≡ request_bytes (shown_request self.now) }
    {
        match *self {
            Request::InitiateDownload {
                multiplexor,
                transfer,
            } => Initiate::Download.message(multiplexor, transfer),
            Request::DownloadSegment(segment) => segment.to_bytes(),
            Request::InitiateUpload { multiplexor } => layout::message(0x40, multiplexor, [0; 4]),
            Request::UploadSegment { toggle } => layout::bare(0x60 + 16 * toggle.bit()),
            Request::InitiateBlockDownload {
                multiplexor,
                crc,
                size,
            } => layout::message(
                0xc0 + 4 * crc.bit() + 2 * size.is_some() as u8,
                multiplexor,
                size.unwrap_or(0).to_le_bytes(),
            ),
            Request::EndBlockDownload { unused, crc } => block_end_bytes(unused, crc),
            Request::Abort { multiplexor, code } => layout::abort(multiplexor, code),
        }
    }

    /// The request in eight bytes, as a node reads them that receives no block segments; none where no request is of their kind.
    #[inline(always)]
    pub fn from_bytes(bytes: [u8; 8]) -> Option<Request>
        ensures { option_map shown_request result ≡ request_in bytes }
    {
        match bytes[0] / 32 {
            0 => Some(Request::DownloadSegment(Segment::from_bytes(bytes))),
            1 => Some(Request::InitiateDownload {
                multiplexor: layout::multiplexor(bytes),
                transfer: Transfer::from_frame(bytes),
            }),
            2 => Some(Request::InitiateUpload {
                multiplexor: layout::multiplexor(bytes),
            }),
            3 => Some(Request::UploadSegment {
                toggle: layout::toggle(bytes),
            }),
            4 => Some(Request::Abort {
                multiplexor: layout::multiplexor(bytes),
                code: layout::abort_code(bytes),
            }),
            6 => Some(block_download(bytes)),
            _ => None,
        }
    }

    /// The frame of the request to a node.
    #[inline(always)]
    pub fn to_frame(self, node: NodeNumber) -> Frame
        ensures { result ≡ request_frame node (shown_request self) }
    {
        Frame {
            identifier: Identifier::of_requests(node),
            bytes: self.spelled(),
        }
    }
}

/// The start of a block write or its end, by bit 0 of b0.
fn block_download(bytes: [u8; 8]) -> Request
    ensures { shown_request result ≡ block_download_in bytes }
{
    if bytes[0] % 2 == 1 {
        block_end(bytes)
    } else {
        block_start(bytes)
    }
}

/// The start of a block write by its bytes.
fn block_start(bytes: [u8; 8]) -> Request
    ensures { shown_request result ≡ block_start_in bytes }
{
    let size = (bytes[0] / 2 % 2 == 1).then_some(layout::number(bytes));
    Request::InitiateBlockDownload {
        multiplexor: layout::multiplexor(bytes),
        crc: layout::crc_offer(bytes),
        size,
    }
}

/// The end of a block write by its bytes.
fn block_end(bytes: [u8; 8]) -> Request
    ensures { shown_request result ≡ block_end_in bytes }
{
    Request::EndBlockDownload {
        unused: UnusedBytes::wrapped(bytes[0] / 4),
        crc: u16::from_le_bytes([bytes[1], bytes[2]]),
    }
}

/// The end of a block write.
fn block_end_bytes(unused: UnusedBytes, crc: u16) -> [u8; 8]
    ensures { result ≡ end_bytes unused.number crc }
{
    let [low, high] = crc.to_le_bytes();
    [0xc1 + 4 * unused.number(), low, high, 0, 0, 0, 0, 0]
}
