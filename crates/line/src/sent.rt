//! A frame as it was sent.
ghost use Rattle.std.specs.Prelude.{◌≡◌};
ghost use Rattle.line.specs.Records.{vacant};

use crate::end::End;
use wire::{Frame, Identifier, NodeNumber};

/// A frame, and the end that it was for.
#[derive(Clone, Copy, PartialEq, Eq, Debug)]
pub struct Sent {
    pub to: End,
    pub frame: Frame,
}

/// What stands in the places of a recorder that hold no frame.
impl Default for Sent {
    ghost is_default = { λ s. s ≡ vacant };

    fn default() -> Sent {
        Sent {
            to: End::Node,
            frame: Frame {
                identifier: Identifier::of_requests(NodeNumber::nearest(1)),
                bytes: [0; 8],
            },
        }
    }
}
