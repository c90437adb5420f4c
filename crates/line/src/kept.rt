//! The newest frames in fixed memory, one behind the other.
ghost use Rattle.std.specs.Prelude.{◌≡◌, ◌<◌, [], ◌∷◌, ◌++◌, drop, slice_index_or, slice_set};
ghost use Rattle.line.specs.Records.{newest};

use crate::sent::Sent;
use std::marker::Model;

/// The newest of the frames that were put here, `ROOM` at most. They stand one behind the other in two rows of places,
/// none before `start` and none in the `free` last ones.
#[derive(Drop)]
pub struct Kept<const ROOM: usize> {
    rows: [[Sent; ROOM]; 2],
    start: usize,
    free: usize,
}

/// Clauses see the frames, the first in first.
impl<const ROOM: usize> Model for Kept<ROOM> {
    ghost use Rattle.std.specs.Prelude.{◌≡◌, ◌≤◌, List, [], ◌∷◌, length, map};
    ghost use Rattle.line.specs.declared.sent.Sent.{Sent};
    ghost use Rattle.line.specs.Records.{kept_in};

    ghost Value = { List Sent };

    ghost view = { λ k. kept_in ROOM k.rows k.start k.free };

    ghost invariant = { λ k. (map length k.rows ≡ ROOM ∷ ROOM ∷ []) × (k.start ≤ ROOM) × (k.free ≤ ROOM) };
}

impl<const ROOM: usize> Kept<ROOM> {
    /// No frame; the places have some value until they are used.
    pub fn new() -> Self
        ensures { result ≡ [] }
    {
        Kept {
            rows: [[Sent::default(); ROOM]; 2],
            start: ROOM,
            free: ROOM,
        }
    }

    /// Keeps one frame more, and lets the oldest go where there is no room.
    pub fn put(&mut self, sent: Sent)
        ensures { self.new ≡ newest ROOM (self.old ++ sent ∷ []) }
    {
        if self.free == 0 {
            turn(&mut self.rows);
            self.start = 0;
            self.free = ROOM;
        }
        if self.free > 0 {
            store(&mut self.rows, ROOM - self.free, sent);
            self.free -= 1;
        }
    }

    /// The frames that are kept, the first in first.
    pub fn as_slice(&self) -> &[Sent]
        ensures { result.now ≡ self.now }
    {
        let places = self.rows.as_flattened();
        let frames = &places[self.start..places.len() - self.free];
        &frames[frames.len().saturating_sub(ROOM)..]
    }
}

/// Puts the frames of the second row into the first as well.
fn turn<const ROOM: usize>(rows: &mut [[Sent; ROOM]; 2])
    ensures { rows.new ≡ drop 1 rows.old ++ drop 1 rows.old }
{
    let (first, second) = rows.split_at_mut(1);
    first.copy_from_slice(second);
}

/// Puts a frame into a place of the second row.
fn store<const ROOM: usize>(rows: &mut [[Sent; ROOM]; 2], place: usize, sent: Sent)
    requires { place < ROOM }
    ensures { rows.new ≡ slice_set rows.old 1 (slice_set (slice_index_or rows.old 1 []) place sent) }
{
    let second = &mut rows[1][..];
    second[place] = sent;
}
