//! How fast a drive gains speed (CiA 402: profile acceleration, object 6083).
ghost use Rattle.std.specs.Prelude.{◌≡◌, ◌≤◌};
ghost use Rattle.drive.specs.Bytes.{unsigned_in, unsigned_bytes};
ghost use Rattle.drive.specs.Numbers.{admits_acceleration, Made, OfBytes};

use wire::AbortCode;

/// A profile acceleration, 1 to 1,000,000.
#[derive(Clone, Copy, PartialEq, Eq, Debug)]
pub struct ProfileAcceleration {
    number: u32,
    ghost low: { 1 ≤ number },
    ghost high: { number ≤ 1000000 },
}

impl ProfileAcceleration {
    /// The acceleration of a new drive.
    pub(crate) const STARTING: ProfileAcceleration = ProfileAcceleration { number: 1_000 };
}

/// The acceleration with a number; an invalid value unless it is within 1 to 1,000,000.
impl TryFrom<u32> for ProfileAcceleration {
    type Error = AbortCode;

    ghost try_from_gives = { Made (λ a. a.number) admits_acceleration };

    fn try_from(number: u32) -> Result<ProfileAcceleration, AbortCode> {
        match number {
            1..=1_000_000 => Ok(ProfileAcceleration { number }),
            _ => Err(AbortCode::InvalidValue),
        }
    }
}

/// The acceleration whose number four bytes stand for; other bytes are an invalid value.
impl<'a> TryFrom<&'a [u8]> for ProfileAcceleration {
    type Error = AbortCode;

    ghost try_from_gives = { λ value. OfBytes (λ a. a.number) admits_acceleration unsigned_in unsigned_bytes 4 value.now };

    fn try_from(value: &'a [u8]) -> Result<ProfileAcceleration, AbortCode> {
        let bytes = <[u8; 4]>::try_from(value).map_err(|_| AbortCode::InvalidValue)?;
        ProfileAcceleration::try_from(u32::from_le_bytes(bytes))
    }
}

/// The acceleration's number, 1 to 1,000,000.
impl From<ProfileAcceleration> for u32 {
    ghost from_gives = { λ acceleration result. result ≡ acceleration.number };

    fn from(acceleration: ProfileAcceleration) -> u32 {
        acceleration.number
    }
}
