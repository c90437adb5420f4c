//! The two ends of a line.

/// The end that a frame is for.
#[derive(Clone, Copy, PartialEq, Eq, Debug)]
pub enum End {
    Master,
    Node,
}
