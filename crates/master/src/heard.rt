//! What became of a frame that a master took.

/// The first of these that fits.
#[derive(Clone, Copy, PartialEq)]
pub enum Heard {
    /// No frame was there.
    NothingWaited,
    /// No transfer is open, or the frame is not from the node.
    Dropped,
    /// The transfer has ended.
    Over,
    /// The transfer goes on, and the next frames are sent.
    Sent,
}
