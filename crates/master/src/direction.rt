//! Which way a value goes.

/// Whether a transfer reads a value from the node or writes one to it.
#[derive(Clone, Copy, PartialEq, Eq, Debug)]
pub enum Direction {
    /// A read: an SDO upload.
    Upload,
    /// A write: an SDO download.
    Download,
}
