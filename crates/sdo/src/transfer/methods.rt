//! A transfer's start in its frame, and back.
ghost use Rattle.std.specs.Prelude.{◌≡◌, ◌<◌};
ghost use Rattle.sdo.specs.FrameData.{value_in};
ghost use Rattle.sdo.specs.Transfers.{transfer_bits, transfer_bytes, transfer_in, expedited_in, shown_transfer};

use super::Transfer;
use crate::frame_data::ExpeditedData;
use crate::layout::number;

impl Transfer {
    /// The low four bits of a start's b0.
    pub fn bits(self) -> u8
        ensures value { result ≡ transfer_bits (shown_transfer self) }
        ensures bound { result < 16 }
    {
        match self {
            Transfer::Expedited { data } => 4 * data.unused() as u8 + 3,
            Transfer::Segmented { size } => size.is_some() as u8,
        }
    }

    /// A start's b4 to b7.
    pub fn bytes(self) -> [u8; 4]
        ensures { result ≡ transfer_bytes (shown_transfer self) }
    {
        match self {
            Transfer::Expedited { data } => data.padded(),
            Transfer::Segmented { size } => size.unwrap_or(0).to_le_bytes(),
        }
    }

    /// What the eight bytes of a start say.
    pub fn from_frame(bytes: [u8; 8]) -> Transfer
        ensures { shown_transfer result ≡ transfer_in bytes }
    {
        if bytes[0] / 2 % 2 == 1 {
            return Transfer::Expedited {
                data: expedited(bytes),
            };
        }
        Transfer::Segmented {
            size: (bytes[0] % 2 == 1).then_some(number(bytes)),
        }
    }
}

/// The data of an expedited start: all four bytes where no number of unused ones stands.
fn expedited(bytes: [u8; 8]) -> ExpeditedData
    ensures { value_in result ≡ expedited_in bytes }
{
    let unused = if bytes[0] % 2 == 1 {
        bytes[0] / 4 % 4
    } else {
        0
    };
    ExpeditedData::fitting(&bytes[4..8 - unused as usize])
}
