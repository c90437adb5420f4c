//! The register that takes in a value byte by byte.
ghost use Rattle.std.specs.Prelude.{◌≡◌};
ghost use Rattle.crc.specs.Registers.{after_byte, crc};

use crate::table;

/// The check value of some bytes: what a block transfer of that value carries at its end.
pub fn checksum(bytes: &[u8]) -> u16
    ensures { result ≡ crc bytes.now }
{
    bytes
        .iter()
        .fold(0, |register, byte| after_byte(register, *byte))
}

/// The register after one more byte.
fn after_byte(register: u16, byte: u8) -> u16
    ensures { result ≡ after_byte register byte }
{
    let high = (register >> 8) as u8;
    (register << 8) ^ table::of_byte(high ^ byte)
}
