//! The bit by which a segment is told from the one before it (CiA 301, 7.2.4.3.4 and 7.2.4.3.7: the bit t).
ghost use Rattle.std.specs.Prelude.{◌≡◌, ◌≤◌};
ghost use Rattle.sdo.specs.Segments.{other, toggle_bit};

/// A toggle bit.
#[derive(Clone, Copy, PartialEq, Eq, Debug)]
pub enum Toggle {
    Zero,
    One,
}

impl Toggle {
    /// The toggle of the segment after this one's.
    pub fn other(self) -> Toggle
        ensures { result ≡ other self }
    {
        match self {
            Toggle::Zero => Toggle::One,
            Toggle::One => Toggle::Zero,
        }
    }

    /// The bit as a number.
    pub(crate) fn bit(self) -> u8
        ensures value { result ≡ toggle_bit self }
        ensures bound { result ≤ 1 }
    {
        match self {
            Toggle::Zero => 0,
            Toggle::One => 1,
        }
    }
}
