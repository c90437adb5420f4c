//! The values that stand behind the options of a command line.
use anyhow::{Context, bail};
use commands::{DeviceKind, LineKind, read_decimal};

/// The device of a name.
pub fn read_device(name: &str) -> anyhow::Result<DeviceKind> {
    DeviceKind::named(name.as_bytes()).context(format_args!("unknown device {name}, try --help"))
}

/// The line of a name.
pub fn read_line_kind(name: &str) -> anyhow::Result<LineKind> {
    LineKind::named(name.as_bytes()).context(format_args!("unknown line {name}, try --help"))
}

/// The number from 1 to 127 that the value of an option writes, in decimal digits.
pub fn read_number(option: &str, digits: &str) -> anyhow::Result<u8> {
    match read_decimal(digits.as_bytes()) {
        Some(number @ 1..=127) => Ok(number as u8),
        _ => bail!("{option} {digits}: a number from 1 to 127 is wanted, try --help"),
    }
}

/// The pattern that the value of `--drop` writes, the highest digit first.
pub fn read_drop(digits: &str) -> anyhow::Result<u64> {
    commands::read_pattern(digits.as_bytes()).context(format_args!(
        "--drop {digits}: a pattern of exactly 16 hex digits is wanted, try --help"
    ))
}
