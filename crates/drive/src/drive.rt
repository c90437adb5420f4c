//! The drive: what it holds, what it answers, what it takes.
ghost use Rattle.std.specs.Prelude.{◌≡◌};
ghost use Rattle.drive.specs.Drives.{drive_entries, starting_entries};

use crate::acceleration::ProfileAcceleration;
use crate::mode::ModeOfOperation;

mod reading;
mod writing;

/// A drive by its numbers: how it moves, and how fast it gains speed.
#[derive(Drop)]
pub struct Drive {
    pub mode_of_operation: ModeOfOperation,
    pub profile_acceleration: ProfileAcceleration,
}

impl Drive {
    /// A drive in profile position with an acceleration of 1,000.
    pub fn new() -> Drive
        ensures { drive_entries result ≡ starting_entries }
    {
        Drive {
            mode_of_operation: ModeOfOperation::ProfilePosition,
            profile_acceleration: ProfileAcceleration::STARTING,
        }
    }
}
