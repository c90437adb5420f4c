//! The fields that frames share (CiA 301, 7.2.4.3): b0 the command and its bits, b1 to b3 the multiplexor, b4 to b7 what else they carry.
ghost use Rattle.std.specs.Prelude.{◌≡◌, ◌<◌, ◌∷◌, ◌++◌};
ghost use Rattle.sdo.specs.Transfers.{initiate_command, initiate_bytes, shown_transfer};
ghost use Rattle.sdo.specs.Fields.{bare, multiplexor_bytes, multiplexor_in, number_in, abort_bytes, abort_code_in};
ghost use Rattle.sdo.specs.Blocks.{offer_in};
ghost use Rattle.sdo.specs.Segments.{toggle_in};

use crate::crc_offer::CrcOffer;
use crate::toggle::Toggle;
use crate::transfer::Transfer;
use wire::{AbortCode, Multiplexor};

/// Which start carries how a value comes across: a master's of a write, or a node's answer to that of a read.
#[derive(Clone, Copy)]
pub(crate) enum Initiate {
    Download,
    Upload,
}

impl Initiate {
    /// The command, whose low four bits are free.
    fn command(self) -> u8
        ensures value { result ≡ initiate_command self }
        ensures bound { result < 0xf0 }
    {
        match self {
            Initiate::Download => 0x20,
            Initiate::Upload => 0x40,
        }
    }

    /// The eight bytes of the start.
    pub(crate) fn message(self, multiplexor: Multiplexor, transfer: Transfer) -> [u8; 8]
        ensures { result ≡ initiate_bytes self multiplexor (shown_transfer transfer) }
    {
        message(
            self.command() + transfer.bits(),
            multiplexor,
            transfer.bytes(),
        )
    }
}

/// A command, a multiplexor and four bytes.
pub(crate) fn message(command: u8, multiplexor: Multiplexor, rest: [u8; 4]) -> [u8; 8]
    ensures { result ≡ command ∷ (multiplexor_bytes multiplexor ++ rest) }
{
    let [low, high] = multiplexor.index.to_le_bytes();
    let [a, b, c, d] = rest;
    [command, low, high, multiplexor.subindex, a, b, c, d]
}

/// A command alone.
pub(crate) fn bare(command: u8) -> [u8; 8]
    ensures { result ≡ bare command }
{
    [command, 0, 0, 0, 0, 0, 0, 0]
}

/// A command and seven bytes.
pub(crate) fn full(command: u8, rest: [u8; 7]) -> [u8; 8]
    ensures { result ≡ command ∷ rest }
{
    let [a, b, c, d, e, f, g] = rest;
    [command, a, b, c, d, e, f, g]
}

/// An abort, the same in both directions.
pub(crate) fn abort(multiplexor: Multiplexor, code: AbortCode) -> [u8; 8]
    ensures { result ≡ abort_bytes multiplexor code }
{
    message(0x80, multiplexor, u32::from(code).to_le_bytes())
}

/// The multiplexor in b1 to b3.
pub(crate) fn multiplexor(bytes: [u8; 8]) -> Multiplexor
    ensures { result ≡ multiplexor_in bytes }
{
    Multiplexor {
        index: u16::from_le_bytes([bytes[1], bytes[2]]),
        subindex: bytes[3],
    }
}

/// The number in b4 to b7.
pub(crate) fn number(bytes: [u8; 8]) -> u32
    ensures { result ≡ number_in bytes }
{
    u32::from_le_bytes([bytes[4], bytes[5], bytes[6], bytes[7]])
}

/// The abort code in b4 to b7.
pub(crate) fn abort_code(bytes: [u8; 8]) -> AbortCode
    ensures { result ≡ abort_code_in bytes }
{
    AbortCode::from(number(bytes))
}

/// The toggle of a segment, or of what asks for or answers one.
pub(crate) fn toggle(bytes: [u8; 8]) -> Toggle
    ensures { result ≡ toggle_in bytes }
{
    if bytes[0] / 16 % 2 == 1 {
        Toggle::One
    } else {
        Toggle::Zero
    }
}

/// Whether a block's start, or the answer to it, offers a CRC.
pub(crate) fn crc_offer(bytes: [u8; 8]) -> CrcOffer
    ensures { result ≡ offer_in bytes }
{
    if bytes[0] / 4 % 2 == 1 {
        CrcOffer::Offered
    } else {
        CrcOffer::NotOffered
    }
}
