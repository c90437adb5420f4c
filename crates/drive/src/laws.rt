//! What follows for every drive from what its entries are defined to be.
ghost use Rattle.drive.specs.Laws.{ModeTaken, AccelerationTaken, ModeSet, AccelerationSet};

/// States which values a drive takes, and that it then holds the number that was written.
pub fn drive_laws()
    ensures mode_taken { ModeTaken }
    ensures acceleration_taken { AccelerationTaken }
    ensures mode_set { ModeSet }
    ensures acceleration_set { AccelerationSet }
{}
