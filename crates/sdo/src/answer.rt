//! What a node answers a master (CiA 301, 7.2.4.3: the server's frames of each SDO protocol).
ghost use Rattle.std.specs.Prelude.{◌≡◌};
ghost use Rattle.std.specs.Option.{option_map};
ghost use Rattle.sdo.specs.Frames.{answer_frame};
ghost use Rattle.sdo.specs.Answers.{answer_bytes, answer_in, shown_answer, block_started_in, acknowledgement_in, block_answer_in};

use crate::crc_offer::CrcOffer;
use crate::layout::{self, Initiate};
use crate::segment_frame::Segment;
use crate::toggle::Toggle;
use crate::transfer::Transfer;
use wire::{AbortCode, Frame, Identifier, Multiplexor, NodeNumber};

/// An answer, by the CiA 301 name of its protocol.
#[derive(Clone, Copy, PartialEq, Eq, Debug)]
pub enum Answer {
    /// A write may go on, or is done where its start had the value.
    InitiateDownload {
        multiplexor: Multiplexor,
    },
    /// A segment of a value that is written was taken.
    DownloadSegment {
        toggle: Toggle,
    },
    /// A read may go on, or is done where this has the value.
    InitiateUpload {
        multiplexor: Multiplexor,
        transfer: Transfer,
    },
    /// A segment of a value that is read.
    UploadSegment(Segment),
    /// A block write may go on, with sub-blocks of a size that the master has to judge.
    InitiateBlockDownload {
        multiplexor: Multiplexor,
        crc: CrcOffer,
        block_size: u8,
    },
    /// A sub-block was taken up to a segment, and the next has a size; the master has to judge both.
    AcknowledgeBlock {
        last_kept: u8,
        block_size: u8,
    },
    /// A block write is done.
    EndBlockDownload,
    /// The end of any transfer, and why.
    Abort {
        multiplexor: Multiplexor,
        code: AbortCode,
    },
}

impl Answer {
    /// The eight bytes of the answer.
    pub fn to_bytes(&self) -> [u8; 8]
        ensures { result ≡ answer_bytes (shown_answer self.now) }
    {
        self.spelled()
    }

    /// The eight bytes, folded into the caller's code where it knows the kind.
    #[inline(always)]
    fn spelled(&self) -> [u8; 8]
        ensures { result ≡ answer_bytes (shown_answer self.now) }
    {
        match *self {
            Answer::InitiateDownload { multiplexor } => layout::message(0x60, multiplexor, [0; 4]),
            Answer::DownloadSegment { toggle } => layout::bare(0x20 + 16 * toggle.bit()),
            Answer::InitiateUpload {
                multiplexor,
                transfer,
            } => Initiate::Upload.message(multiplexor, transfer),
            Answer::UploadSegment(segment) => segment.to_bytes(),
            Answer::InitiateBlockDownload {
                multiplexor,
                crc,
                block_size,
            } => layout::message(0xa0 + 4 * crc.bit(), multiplexor, [block_size, 0, 0, 0]),
            Answer::AcknowledgeBlock {
                last_kept,
                block_size,
            } => [0xa2, last_kept, block_size, 0, 0, 0, 0, 0],
            Answer::EndBlockDownload => layout::bare(0xa1),
            Answer::Abort { multiplexor, code } => layout::abort(multiplexor, code),
        }
    }

    /// The answer in eight bytes; none where no answer is of their kind.
    #[inline(always)]
    pub fn from_bytes(bytes: [u8; 8]) -> Option<Answer>
        ensures { option_map shown_answer result ≡ answer_in bytes }
    {
        match bytes[0] / 32 {
            0 => Some(Answer::UploadSegment(Segment::from_bytes(bytes))),
            1 => Some(Answer::DownloadSegment {
                toggle: layout::toggle(bytes),
            }),
            2 => Some(Answer::InitiateUpload {
                multiplexor: layout::multiplexor(bytes),
                transfer: Transfer::from_frame(bytes),
            }),
            3 => Some(Answer::InitiateDownload {
                multiplexor: layout::multiplexor(bytes),
            }),
            4 => Some(Answer::Abort {
                multiplexor: layout::multiplexor(bytes),
                code: layout::abort_code(bytes),
            }),
            5 => match bytes[0] % 4 {
                0 => Some(block_started(bytes)),
                1 => Some(Answer::EndBlockDownload),
                2 => Some(acknowledgement(bytes)),
                _ => None,
            },
            _ => None,
        }
    }

    /// The frame of the answer of a node.
    #[inline(always)]
    pub fn to_frame(self, node: NodeNumber) -> Frame
        ensures { result ≡ answer_frame node (shown_answer self) }
    {
        Frame {
            identifier: Identifier::of_answers(node),
            bytes: self.spelled(),
        }
    }
}

/// The answer to the start of a block write by its bytes.
fn block_started(bytes: [u8; 8]) -> Answer
    ensures { shown_answer result ≡ block_started_in bytes }
{
    Answer::InitiateBlockDownload {
        multiplexor: layout::multiplexor(bytes),
        crc: layout::crc_offer(bytes),
        block_size: bytes[4],
    }
}

/// The acknowledgement of a sub-block by its bytes.
fn acknowledgement(bytes: [u8; 8]) -> Answer
    ensures { shown_answer result ≡ acknowledgement_in bytes }
{
    Answer::AcknowledgeBlock {
        last_kept: bytes[1],
        block_size: bytes[2],
    }
}
