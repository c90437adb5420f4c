//! Writing into a table's bytes.
ghost use Rattle.std.specs.Prelude.{◌≡◌, ◌+◌, ◌-◌, ◌≤◌, ◌++◌, length, replicate};
ghost use Rattle.dictionary.specs.Layouts.{overwritten};

use crate::table::MOST_BYTES;
use arrayvec::ArrayVec;
use wire::LONGEST;

/// What lies behind a value up to its longest length.
const SPARE: [u8; LONGEST] = [0; LONGEST];

/// Writes a value over the bytes from a place on.
pub(super) fn overwrite(bytes: &mut [u8], start: usize, value: &[u8])
    requires { start + length value.now ≤ length bytes.old }
    ensures { bytes.new ≡ overwritten start value.now bytes.old }
{
    bytes[start..start + value.len()].copy_from_slice(value);
}

/// Puts a value behind all bytes, and zeros behind it up to its longest length.
pub(super) fn reserve(bytes: &mut ArrayVec<u8, MOST_BYTES>, value: &[u8], longest: u16)
    requires short { length value.now ≤ longest }
    requires bounded { longest ≤ 1024 }
    requires room { length bytes.old.items + longest ≤ 4096 }
    ensures { bytes.new.items ≡ bytes.old.items ++ (value.now ++ replicate (longest - length value.now) 0) }
{
    let spare = &SPARE[..usize::from(longest) - value.len()];
    bytes.try_extend_from_slice(value).unwrap();
    bytes.try_extend_from_slice(spare).unwrap();
}
