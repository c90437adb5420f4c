//! A dictionary in fixed memory.
ghost use Rattle.std.specs.Prelude.{◌≡◌, ◌≤◌, true, length};
ghost use Rattle.dictionary.specs.Layouts.{laid};

use crate::row::Row;
use arrayvec::ArrayVec;

mod adding;
mod bytes;
mod reading;
mod searching;
mod writing;

/// How many entries a table has at most.
const MOST_ENTRIES: usize = 64;

/// How many bytes the longest lengths of a table's entries take together at most.
const MOST_BYTES: usize = 4096;

/// A dictionary of at most 64 entries, whose longest lengths add up to at most 4,096 bytes.
#[derive(Drop)]
pub struct Table {
    rows: ArrayVec<Row, MOST_ENTRIES>,
    bytes: ArrayVec<u8, MOST_BYTES>,
    ghost bounds: { (length rows.items ≤ 64) × (length bytes.items ≤ 4096) },
    ghost layout: { laid 0 rows.items (length bytes.items) ≡ true },
}
