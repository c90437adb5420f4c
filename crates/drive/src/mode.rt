//! How a drive moves (CiA 402: modes of operation, object 6060).
ghost use Rattle.std.specs.Prelude.{◌≡◌};
ghost use Rattle.drive.specs.Bytes.{signed_in, signed_bytes};
ghost use Rattle.drive.specs.Numbers.{mode_number, admits_mode, Made, OfBytes};

use wire::AbortCode;

/// The modes of operation that the drive has, by their numbers.
#[derive(Clone, Copy, PartialEq, Eq, Debug)]
pub enum ModeOfOperation {
    ProfilePosition = 1,
    ProfileVelocity = 3,
    Homing = 6,
}

/// The mode with a number; an invalid value unless it is 1, 3 or 6.
impl TryFrom<i8> for ModeOfOperation {
    type Error = AbortCode;

    ghost try_from_gives = { Made mode_number admits_mode };

    fn try_from(number: i8) -> Result<ModeOfOperation, AbortCode> {
        match number {
            1 => Ok(ModeOfOperation::ProfilePosition),
            3 => Ok(ModeOfOperation::ProfileVelocity),
            6 => Ok(ModeOfOperation::Homing),
            _ => Err(AbortCode::InvalidValue),
        }
    }
}

/// The mode whose number one byte stands for; other bytes are an invalid value.
impl<'a> TryFrom<&'a [u8]> for ModeOfOperation {
    type Error = AbortCode;

    ghost try_from_gives = { λ value. OfBytes mode_number admits_mode signed_in signed_bytes 1 value.now };

    fn try_from(value: &'a [u8]) -> Result<ModeOfOperation, AbortCode> {
        let bytes = <[u8; 1]>::try_from(value).map_err(|_| AbortCode::InvalidValue)?;
        ModeOfOperation::try_from(i8::from_le_bytes(bytes))
    }
}

/// The mode's number.
impl From<ModeOfOperation> for i8 {
    ghost from_gives = { λ mode result. result ≡ mode_number mode };

    fn from(mode: ModeOfOperation) -> i8 {
        mode as i8
    }
}
