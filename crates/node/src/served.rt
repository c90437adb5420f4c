//! What became of a frame that a node took.

/// The first of these that fits.
#[derive(Clone, Copy, PartialEq, Eq, Debug)]
pub enum Served {
    /// There was no frame.
    NothingWaited,
    /// A value was set in the dictionary.
    Committed,
    /// An abort was sent, or one came that ended a transfer.
    Aborted,
    /// Another answer was sent.
    Answered,
    /// Nothing was done.
    Dropped,
    /// A segment was kept, and its answer comes with that of a later one.
    Kept,
}
