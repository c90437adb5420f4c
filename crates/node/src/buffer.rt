//! Where a node keeps the bytes of a transfer.
use std::marker::Model;

mod methods;

/// How many bytes a buffer has: 147 segments of seven, enough for 1,024 bytes and what fills up the last segment.
const ROOM: usize = 1029;

/// Up to 1,029 bytes, which contracts see as the list of those that are held.
#[derive(Drop)]
pub struct Buffer {
    bytes: [u8; ROOM],
    len: usize,
}

impl Model for Buffer {
    ghost use Rattle.std.specs.Prelude.{ℕ, List};

    ghost Value = { List ℕ };

    ghost use Rattle.node.specs.Buffers.{held, Sound};

    ghost view = { held };

    ghost invariant = { Sound };
}
