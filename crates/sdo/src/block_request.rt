//! What a master sends to a node that receives block segments (CiA 301, 7.2.4.3.10: SDO block download sub-block).
ghost use Rattle.std.specs.Prelude.{◌≡◌};
ghost use Rattle.sdo.specs.Frames.{block_request_frame};
ghost use Rattle.sdo.specs.BlockRequests.{block_request_bytes, block_request_in, shown_block_request, block_segment_in};

use crate::layout;
use crate::ranged::SequenceNumber;
use wire::{AbortCode, Frame, Identifier, Multiplexor, NodeNumber};

/// A segment of a sub-block, or an abort.
#[derive(Clone, Copy, PartialEq, Eq, Debug)]
pub enum BlockRequest {
    /// Seven bytes, of which a last segment may leave some unused.
    Segment {
        last: bool,
        number: SequenceNumber,
        data: [u8; 7],
    },
    /// The end of the transfer, and why.
    Abort {
        multiplexor: Multiplexor,
        code: AbortCode,
    },
}

impl BlockRequest {
    /// The eight bytes of the request.
    pub fn to_bytes(&self) -> [u8; 8]
        ensures { result ≡ block_request_bytes (shown_block_request self.now) }
    {
        match *self {
            BlockRequest::Segment { last, number, data } => layout::full(
                128 * last as u8 + number.number(),
                data,
            ),
            BlockRequest::Abort { multiplexor, code } => layout::abort(multiplexor, code),
        }
    }

    /// The request in eight bytes, as a node reads them that receives block segments.
    pub fn from_bytes(bytes: [u8; 8]) -> BlockRequest
        ensures { shown_block_request result ≡ block_request_in bytes }
    {
        if bytes[0] == 0x80 {
            BlockRequest::Abort {
                multiplexor: layout::multiplexor(bytes),
                code: layout::abort_code(bytes),
            }
        } else {
            segment(bytes)
        }
    }

    /// The frame of the request to a node.
    pub fn to_frame(self, node: NodeNumber) -> Frame
        ensures { result ≡ block_request_frame node (shown_block_request self) }
    {
        Frame {
            identifier: Identifier::of_requests(node),
            bytes: self.to_bytes(),
        }
    }
}

/// A segment by its bytes.
fn segment(bytes: [u8; 8]) -> BlockRequest
    ensures { shown_block_request result ≡ block_segment_in bytes }
{
    let [command, a, b, c, d, e, f, g] = bytes;
    BlockRequest::Segment {
        last: command / 128 % 2 == 1,
        number: SequenceNumber::wrapped(command),
        data: [a, b, c, d, e, f, g],
    }
}
