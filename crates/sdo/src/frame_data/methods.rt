//! Frame data from a value, and back.
ghost use Rattle.std.specs.Prelude.{◌≡◌, ◌+◌, ◌-◌, ◌≤◌, ◌++◌, length, take, drop};
ghost use Rattle.std.specs.Option.{option_map};
ghost use Rattle.sdo.specs.FrameData.{value_in, padded, data_of};

use super::FrameData;

impl<const LEAST: usize, const MOST: usize> FrameData<LEAST, MOST> {
    /// The value as data; none unless it has LEAST to MOST bytes.
    pub fn new(value: &[u8]) -> Option<FrameData<LEAST, MOST>>
        ensures { option_map value_in result ≡ data_of LEAST MOST value.now }
    {
        if LEAST <= value.len() && value.len() <= MOST {
            Some(FrameData::fitting(value))
        } else {
            None
        }
    }

    /// LEAST to MOST bytes as data.
    pub(crate) fn fitting(value: &[u8]) -> FrameData<LEAST, MOST>
        requires { (LEAST ≤ length value.now) × (length value.now ≤ MOST) }
        ensures { value_in result ≡ value.now }
    {
        // Where the bytes fill the field they are copied as an array, of a length that is known.
        match value.as_array() {
            Some(bytes) => FrameData {
                bytes: *bytes,
                len: MOST,
            },
            None => FrameData::filled_up(value),
        }
    }

    /// LEAST to MOST bytes as data, zeros behind them.
    fn filled_up(value: &[u8]) -> FrameData<LEAST, MOST>
        requires { (LEAST ≤ length value.now) × (length value.now ≤ MOST) }
        ensures { value_in result ≡ value.now }
    {
        let mut bytes = [0; MOST];
        overwrite(&mut bytes, value);
        FrameData {
            bytes,
            len: value.len(),
        }
    }

    /// The value.
    pub fn value(&self) -> &[u8]
        ensures { result.now ≡ value_in self.now }
    {
        let bytes = &self.bytes[..];
        &bytes[..self.len]
    }

    /// How many of the MOST bytes the value does not use.
    pub fn unused(&self) -> usize
        ensures value { result ≡ MOST - length (value_in self.now) }
        ensures bound { result + LEAST ≤ MOST }
    {
        MOST - self.len
    }

    /// The bytes as they stand in a frame: the value, then zeros.
    pub fn padded(&self) -> [u8; MOST]
        ensures { result ≡ padded MOST (value_in self.now) }
    {
        self.bytes
    }
}

impl<const MOST: usize> FrameData<0, MOST> {
    /// The first MOST bytes of a value, or all of them where they are fewer, as data.
    pub fn front(value: &[u8]) -> FrameData<0, MOST>
        ensures { value_in result ≡ take MOST value.now }
    {
        FrameData::fitting(&value[..value.len().min(MOST)])
    }
}

/// Writes a value over the first bytes.
fn overwrite(bytes: &mut [u8], value: &[u8])
    requires { length value.now ≤ length bytes.old }
    ensures { bytes.new ≡ value.now ++ drop (length value.now) bytes.old }
{
    // A copy of a length that is known only when it runs would be a call of C's memcpy.
    match value.len() {
        0 => {}
        1 => bytes[..1].copy_from_slice(&value[..1]),
        2 => bytes[..2].copy_from_slice(&value[..2]),
        3 => bytes[..3].copy_from_slice(&value[..3]),
        4 => bytes[..4].copy_from_slice(&value[..4]),
        5 => bytes[..5].copy_from_slice(&value[..5]),
        6 => bytes[..6].copy_from_slice(&value[..6]),
        len => bytes[..len].copy_from_slice(value),
    }
}
