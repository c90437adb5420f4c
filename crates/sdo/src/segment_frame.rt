//! A segment of a value, the same in both directions (CiA 301, 7.2.4.3.4 and 7.2.4.3.7: SDO download segment and SDO upload segment).
ghost use Rattle.std.specs.Prelude.{◌≡◌};
ghost use Rattle.sdo.specs.FrameData.{value_in};
ghost use Rattle.sdo.specs.Segments.{segment_bytes, toggle_in, data_in, last_in};

use crate::layout;
use crate::segment_data::SegmentData;
use crate::toggle::Toggle;

/// A segment by its toggle, its bytes of the value, and whether it is the last.
#[derive(Clone, Copy, PartialEq, Eq, Debug)]
pub struct Segment {
    pub toggle: Toggle,
    pub bytes: SegmentData,
    pub last: bool,
}

impl Segment {
    /// The eight bytes of the segment.
    pub(crate) fn to_bytes(&self) -> [u8; 8]
        ensures { result ≡ segment_bytes self.now.toggle (value_in self.now.bytes) self.now.last }
    {
        let command = 16 * self.toggle.bit() + 2 * self.bytes.unused() as u8 + self.last as u8;
        layout::full(command, self.bytes.padded())
    }

    /// The segment in eight bytes.
    pub(crate) fn from_bytes(bytes: [u8; 8]) -> Segment
        ensures toggle { result.toggle ≡ toggle_in bytes }
        ensures data { value_in result.bytes ≡ data_in bytes }
        ensures last { result.last ≡ last_in bytes }
    {
        Segment {
            toggle: layout::toggle(bytes),
            bytes: carried(bytes),
            last: bytes[0] % 2 == 1,
        }
    }
}

/// The bytes of the value that a segment carries.
fn carried(bytes: [u8; 8]) -> SegmentData
    ensures { value_in result ≡ data_in bytes }
{
    let unused = bytes[0] / 2 % 8;
    SegmentData::front(&bytes[1..8 - unused as usize])
}
