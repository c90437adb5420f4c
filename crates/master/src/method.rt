//! How a value is written (CiA 301, 7.2.4.3: expedited, segmented and block download).
ghost use Rattle.std.specs.Prelude.{◌≡◌};
ghost use Rattle.master.specs.Methods.{fitting, takes};

/// The most bytes that go with a start.
pub const MOST_EXPEDITED: usize = 4;

/// The most bytes that go in segments where no method is chosen.
pub const MOST_SEGMENTED: usize = 56;

/// A way to write a value.
#[derive(Clone, Copy, PartialEq, Eq, Debug)]
pub enum Method {
    /// With its start, for one to four bytes.
    Expedited,
    /// In segments, each answered.
    Segmented,
    /// In sub-blocks of segments, each sub-block acknowledged.
    Block,
}

impl Method {
    /// The method of a value of so many bytes where none is chosen.
    pub fn fitting(length: usize) -> Method
        ensures { result ≡ fitting length }
    {
        if length <= MOST_EXPEDITED {
            Method::Expedited
        } else if length <= MOST_SEGMENTED {
            Method::Segmented
        } else {
            Method::Block
        }
    }

    /// Whether the method has room for a value of so many bytes.
    pub fn takes(self, length: usize) -> bool
        ensures { result ≡ takes self length }
    {
        match self {
            Method::Expedited => length <= MOST_EXPEDITED,
            Method::Segmented | Method::Block => true,
        }
    }
}
