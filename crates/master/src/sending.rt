//! What a master's calls tell: what is to be done on the line, and what came of the call.
use crate::frames::Frames;
use crate::heard::Heard;

/// What is to be done on the line: it is quieted first, or not, and then frames are sent to the node.
#[derive(Clone, Copy)]
pub struct Sending<'a> {
    pub quiet: bool,
    pub frames: Frames<'a>,
}

/// A transfer that was begun: its number, from 1, and its start.
#[derive(Clone, Copy)]
pub struct Begun<'a> {
    pub number: u16,
    pub sending: Sending<'a>,
}

/// What came of a frame.
#[derive(Clone, Copy)]
pub struct Hearing<'a> {
    pub heard: Heard,
    pub sending: Sending<'a>,
}

/// What came of a tick: whether it ended the transfer.
#[derive(Clone, Copy)]
pub struct Tick<'a> {
    pub ended: bool,
    pub sending: Sending<'a>,
}
