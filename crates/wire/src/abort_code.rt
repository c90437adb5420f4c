//! Why an SDO transfer was aborted (CiA 301, 7.2.4.3.17: abort SDO transfer protocol, its table of codes).
ghost use Rattle.std.specs.Prelude.{◌≡◌};
ghost use Rattle.wire.specs.AbortCodes.{number, words, code, CodesReadBack};

use crate::other_code::OtherCode;

/// The abort codes of CiA 301 that have a name here, and any other.
#[derive(Clone, Copy, PartialEq, Eq, Debug)]
pub enum AbortCode {
    ToggleNotAlternated,
    TimedOut,
    UnknownCommand,
    InvalidBlockSize,
    InvalidSequenceNumber,
    CrcError,
    OutOfMemory,
    WriteOnly,
    ReadOnly,
    NoObject,
    LengthMismatch,
    LengthTooHigh,
    LengthTooLow,
    NoSubindex,
    InvalidValue,
    GeneralError,
    Other(OtherCode),
}

impl AbortCode {
    /// What the code says.
    pub fn words(self) -> &'static str
        ensures { result.now ≡ words self }
    {
        match self {
            AbortCode::ToggleNotAlternated => "toggle bit not alternated",
            AbortCode::TimedOut => "SDO protocol timed out",
            AbortCode::UnknownCommand => "command specifier not valid or unknown",
            AbortCode::InvalidBlockSize => "invalid block size",
            AbortCode::InvalidSequenceNumber => "invalid sequence number",
            AbortCode::CrcError => "CRC error",
            AbortCode::OutOfMemory => "out of memory",
            AbortCode::WriteOnly => "attempt to read a write-only object",
            AbortCode::ReadOnly => "attempt to write a read-only object",
            AbortCode::NoObject => "object does not exist in the object dictionary",
            AbortCode::LengthMismatch => "length of the data does not match",
            AbortCode::LengthTooHigh => "length of the data too high",
            AbortCode::LengthTooLow => "length of the data too low",
            AbortCode::NoSubindex => "subindex does not exist",
            AbortCode::InvalidValue => "invalid value for the parameter",
            AbortCode::GeneralError => "general error",
            AbortCode::Other(_) => "code not listed",
        }
    }
}

/// The code's 32-bit number.
impl From<AbortCode> for u32 {
    ghost from_gives = { λ code n. n ≡ number code };

    fn from(code: AbortCode) -> u32 {
        match code {
            AbortCode::ToggleNotAlternated => 0x0503_0000,
            AbortCode::TimedOut => 0x0504_0000,
            AbortCode::UnknownCommand => 0x0504_0001,
            AbortCode::InvalidBlockSize => 0x0504_0002,
            AbortCode::InvalidSequenceNumber => 0x0504_0003,
            AbortCode::CrcError => 0x0504_0004,
            AbortCode::OutOfMemory => 0x0504_0005,
            AbortCode::WriteOnly => 0x0601_0001,
            AbortCode::ReadOnly => 0x0601_0002,
            AbortCode::NoObject => 0x0602_0000,
            AbortCode::LengthMismatch => 0x0607_0010,
            AbortCode::LengthTooHigh => 0x0607_0012,
            AbortCode::LengthTooLow => 0x0607_0013,
            AbortCode::NoSubindex => 0x0609_0011,
            AbortCode::InvalidValue => 0x0609_0030,
            AbortCode::GeneralError => 0x0800_0000,
            AbortCode::Other(other) => other.number,
        }
    }
}

/// The code with a number.
impl From<u32> for AbortCode {
    ghost from_gives = { λ n result. result ≡ code n };

    #[tactic(auto, unfolding(crate::specs::AbortCodes::code, crate::specs::CodeNumbers::is_listed))]
    fn from(n: u32) -> AbortCode {
        match n {
            0x0503_0000 => AbortCode::ToggleNotAlternated,
            0x0504_0000 => AbortCode::TimedOut,
            0x0504_0001 => AbortCode::UnknownCommand,
            0x0504_0002 => AbortCode::InvalidBlockSize,
            0x0504_0003 => AbortCode::InvalidSequenceNumber,
            0x0504_0004 => AbortCode::CrcError,
            0x0504_0005 => AbortCode::OutOfMemory,
            0x0601_0001 => AbortCode::WriteOnly,
            0x0601_0002 => AbortCode::ReadOnly,
            0x0602_0000 => AbortCode::NoObject,
            0x0607_0010 => AbortCode::LengthMismatch,
            0x0607_0012 => AbortCode::LengthTooHigh,
            0x0607_0013 => AbortCode::LengthTooLow,
            0x0609_0011 => AbortCode::NoSubindex,
            0x0609_0030 => AbortCode::InvalidValue,
            0x0800_0000 => AbortCode::GeneralError,
            _ => AbortCode::Other(OtherCode { number: n }),
        }
    }
}

/// States that abort codes and their numbers read back as each other.
pub fn codes_read_back()
    ensures { CodesReadBack }
{}
