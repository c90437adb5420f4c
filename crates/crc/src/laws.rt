//! What is known of check values.
ghost use Rattle.crc.specs.KnownValues.{NoneIsZero, DigitsAreKnown, CheckedIsZero};

/// States three check values: that of no bytes, that of the digits 1 to 9, and that of bytes followed by their own.
pub fn known_values()
    ensures none { NoneIsZero }
    ensures digits { DigitsAreKnown }
    ensures checked { CheckedIsZero }
{}
