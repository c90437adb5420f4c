//! The values of a node.

/// How many bytes a value has at most.
pub const LONGEST: usize = 1024;
