//! Why a line is no order. A fault is the first that a reader meets from left to right: the first word, or the one behind a method,
//! is held to be a multiplexor, then each word after it to be a byte, and then to be no more than an order may have; at the line's end
//! the bytes are held to be no more than their method has room for.
ghost use Rattle.std.specs.Prelude.{◌≡◌, Some};
ghost use Rattle.orders.specs.Reasons.{reason};
ghost use Rattle.orders.specs.declared.fault.Fault.TheVariants.{OutOfMemory};

use master::MOST_EXPEDITED;
use std::alloc::AllocError;
use std::fmt;
use wire::LONGEST;

/// The first thing wrong with a line, or the want of memory for an order with nothing wrong.
#[derive(Clone, Copy, PartialEq, Eq, Debug)]
pub enum Fault {
    /// No multiplexor stands where it has to.
    NotMultiplexor,
    /// The line ends after the multiplexor.
    NoBytes,
    /// The word at this place among the bytes, from 1, is no byte.
    NotByte(usize),
    /// One byte more than an order may have.
    TooManyBytes,
    /// An order that is to go expedited has more bytes than go so.
    NotExpedited,
    /// There was no memory for the value.
    OutOfMemory,
}

impl fmt::Display for Fault {
    ghost output = { λ f. Some (reason f) };

    fn fmt<W: fmt::Write>(&self, f: &mut fmt::Formatter<W>) -> fmt::Result {
        match self {
            Fault::NotMultiplexor => write!(
                f,
                "no IIII:SS, an index of four and a subindex of two hex digits, at the start or behind expedited, segmented or block"
            ),
            Fault::NoBytes => write!(f, "no bytes follow the index and subindex"),
            Fault::NotByte(place) => write!(f, "byte {place} is not two hex digits"),
            Fault::TooManyBytes => write!(
                f,
                "more than {LONGEST} bytes follow the index and subindex"
            ),
            Fault::NotExpedited => write!(
                f,
                "more than {MOST_EXPEDITED} bytes do not go expedited"
            ),
            Fault::OutOfMemory => write!(f, "out of memory"),
        }
    }
}

/// Want of memory is a fault of its own.
impl From<AllocError> for Fault {
    ghost from_gives = { λ _ r. r ≡ OutOfMemory };

    fn from(_e: AllocError) -> Fault {
        Fault::OutOfMemory
    }
}
