//! What a master resolves to do, before it lends its value.
use crate::heard::Heard;
use sdo::BlockSize;
use wire::Frame;

/// What is to be done on the line: it is quieted first, or not, and then frames are sent to the node.
#[derive(Clone, Copy)]
pub(crate) struct Plan {
    pub(crate) quiet: bool,
    pub(crate) batch: Batch,
}

/// Frames that are sent in one go.
#[derive(Clone, Copy)]
pub(crate) enum Batch {
    /// No frame.
    Nothing,
    /// One frame.
    One(Frame),
    /// `count` segments of the value behind the first `acknowledged`.
    SubBlock { acknowledged: u16, count: BlockSize },
}

/// What comes of a frame.
#[derive(Clone, Copy)]
pub(crate) struct Step {
    pub(crate) heard: Heard,
    pub(crate) plan: Plan,
}

/// Nothing is done on the line.
pub(crate) const SILENCE: Plan = Plan {
    quiet: false,
    batch: Batch::Nothing,
};
