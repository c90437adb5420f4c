//! The bytes of a value that one frame carries (CiA 301, 7.2.4.3: the field d of an initiate with e = 1, and seg-data of a segment).
ghost use Rattle.std.specs.Prelude.{◌≡◌, ◌-◌, ◌≤◌, length, drop, replicate};

mod methods;

/// LEAST to MOST bytes of a value. Those of the MOST that the value does not use are zero.
#[derive(Clone, Copy, PartialEq, Eq, Debug)]
pub struct FrameData<const LEAST: usize, const MOST: usize> {
    bytes: [u8; MOST],
    len: usize,
    ghost some: { LEAST ≤ len },
    ghost few: { len ≤ MOST },
    ghost whole: { length bytes ≡ MOST },
    ghost rest: { drop len bytes ≡ replicate (MOST - len) 0 },
}

/// The one to four bytes that the start of an expedited transfer carries.
pub type ExpeditedData = FrameData<1, 4>;
