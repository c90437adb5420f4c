//! A small dictionary to try things on.
ghost use Rattle.std.specs.Prelude.{◌≡◌};
ghost use Rattle.dictionary.specs.Samples.{sample_entries};
ghost use Rattle.dictionary.specs.Tables.{table_entries};

use crate::access::Access;
use crate::attributes::Attributes;
use crate::table::Table;
use wire::{LONGEST, Multiplexor};

/// A table with a device type, a device name, a value of two bytes and one of up to 1,024.
pub fn sample() -> Table
    ensures { table_entries result ≡ sample_entries }
{
    let mut table = Table::new();
    let device_type = [0x92, 0x01, 0x02, 0x00];
    let _ = table.add(at(0x1000, 0), within(Access::ReadOnly, 4, 4), &device_type);
    let _ = table.add(at(0x1008, 0), within(Access::ReadOnly, 1, 16), b"loader");
    let _ = table.add(
        at(0x2000, 1),
        within(Access::ReadWrite, 2, 2),
        &[0x0a, 0x00],
    );
    let _ = table.add(
        at(0x2001, 0),
        within(Access::ReadWrite, 1, LONGEST as u16),
        &[0x00],
    );
    table
}

/// The multiplexor with an index and a subindex.
fn at(index: u16, subindex: u8) -> Multiplexor
    ensures { result ≡ record { index = index; subindex = subindex } }
{
    Multiplexor { index, subindex }
}

/// The attributes with an access and two lengths.
fn within(access: Access, shortest: u16, longest: u16) -> Attributes
    ensures { result ≡ record { access = access; shortest = shortest; longest = longest } }
{
    Attributes {
        access,
        shortest,
        longest,
    }
}
