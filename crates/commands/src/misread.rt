//! Why a line gave no command.
ghost use Rattle.std.specs.Prelude.{◌≡◌};
ghost use Rattle.commands.specs.declared.misread.Misread.TheVariants.{OutOfMemory};

use std::alloc::{AllocError, AllocFailed};

/// The line is none, or there was no memory to read it.
#[derive(Clone, Copy, Debug)]
pub enum Misread {
    NotUnderstood,
    OutOfMemory,
}

/// Want of memory is told as such.
impl From<AllocError> for Misread {
    ghost from_gives = { λ _ r. r ≡ OutOfMemory };

    fn from(_e: AllocError) -> Misread {
        Misread::OutOfMemory
    }
}

/// Want of memory is told as such.
impl<T: Drop> From<AllocFailed<T>> for Misread {
    ghost from_gives = { λ _ r. r ≡ OutOfMemory };

    fn from(_e: AllocFailed<T>) -> Misread {
        Misread::OutOfMemory
    }
}
