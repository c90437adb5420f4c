//! What serving a frame brought about.
use crate::served::Served;
use wire::Frame;

/// What became of the frame, and the node's own frame where it sends one.
#[derive(Clone, Copy, PartialEq, Eq, Debug)]
pub struct Reaction {
    pub served: Served,
    pub reply: Option<Frame>,
}
