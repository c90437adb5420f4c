//! The value that is written, or what has been read of one, and the segments that it is cut into.
ghost use Rattle.std.specs.Prelude.{◌≡◌, ◌≤◌, IsTrue};
ghost use Rattle.sdo.specs.FrameData.{padded, value_in};
ghost use Rattle.sdo.specs.Segments.{segment};
ghost use Rattle.master.specs.Values.{segments, unused, is_last, closing_crc};

use arrayvec::ArrayVec;
use sdo::{CrcOffer, SegmentData, UnusedBytes};
use wire::LONGEST;

/// The bytes of a value.
pub(crate) type Value = ArrayVec<u8, LONGEST>;

/// How many segments there are.
pub(crate) fn segments(value: &Value) -> usize
    ensures value { result ≡ segments value.now.items }
    ensures bound { result ≤ 147 }
{
    value.len().div_ceil(7)
}

/// Whether a segment is the last.
pub(crate) fn is_last(value: &Value, number: usize) -> bool
    requires { number ≤ 65792 }
    ensures value { result ≡ is_last value.now.items number }
    ensures late { 147 ≤ number → IsTrue result }
{
    value.len() <= 7 * number
}

/// The data of a segment.
pub(crate) fn segment(value: &Value, number: usize) -> SegmentData
    ensures { value_in result ≡ segment number value.now.items }
{
    SegmentData::new(sdo::segment(value, number)).unwrap()
}

/// A segment as block segments carry it: seven bytes, zero where the value does not use them.
pub(crate) fn padded_segment(value: &Value, number: usize) -> [u8; 7]
    ensures { result ≡ padded 7 (segment number value.now.items) }
{
    segment(value, number).padded()
}

/// How many bytes of the last segment are not of the value.
pub(crate) fn unused(value: &Value) -> UnusedBytes
    ensures { result.number ≡ unused value.now.items }
{
    UnusedBytes::new((7 * segments(value) - value.len()) as u8).unwrap()
}

/// The CRC at the end of a block write, zero where the node offered none.
pub(crate) fn closing_crc(value: &Value, offer: CrcOffer) -> u16
    ensures { result ≡ closing_crc offer value.now.items }
{
    match offer {
        CrcOffer::Offered => crc::checksum(value),
        CrcOffer::NotOffered => 0,
    }
}
