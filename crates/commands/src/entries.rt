//! A dictionary's entries as text.
ghost use Rattle.std.specs.Prelude.{Some};
ghost use Rattle.std.specs.Option.{option_map};
ghost use Rattle.commands.specs.Answers.{entry_text};

use dictionary::{Attributes, Readable};
use orders::HexBytes;
use std::{fmt, io, iter};
use wire::{LONGEST, Multiplexor};

/// The lowest multiplexor of all.
const LOWEST: Multiplexor = Multiplexor {
    index: 0,
    subindex: 0,
};

/// How many multiplexors there are, which bounds the walk over all entries.
const ALL: usize = 0x100_0000;

/// Prints all entries of a dictionary, in rising order.
pub fn print_entries<D: Readable>(rt: &HostRuntime, dictionary: &D) -> io::Result<()> {
    let all = iter::successors(Some(LOWEST), |multiplexor| dictionary.next(*multiplexor));
    for multiplexor in all.take(ALL) {
        if let Ok(attributes) = dictionary.attributes(multiplexor) {
            print_entry(rt, dictionary, multiplexor, attributes)?;
        }
    }
    Ok(())
}

/// Prints one entry, its value where it can be read.
fn print_entry<D: Readable>(
    rt: &HostRuntime,
    dictionary: &D,
    multiplexor: Multiplexor,
    attributes: Attributes,
) -> io::Result<()> {
    let mut buffer = [0; LONGEST];
    let copied = dictionary.copy_value(multiplexor, &mut buffer);
    let entry = EntryText {
        multiplexor,
        attributes,
        value: copied.ok().map(|length| &buffer[0..length]),
    };
    println!(rt; "{entry}")
}

/// An entry as it is listed: its multiplexor, its access, its lengths, and its value where it can be read.
#[derive(Clone, Copy)]
struct EntryText<'a> {
    multiplexor: Multiplexor,
    attributes: Attributes,
    value: Option<&'a [u8]>,
}

impl fmt::Display for EntryText<'_> {
    ghost output = { λ e. Some (entry_text e.multiplexor e.attributes (option_map (λ v. v.now) e.value)) };

    fn fmt<W: fmt::Write>(&self, f: &mut fmt::Formatter<W>) -> fmt::Result {
        let multiplexor = self.multiplexor;
        let access = u8::from(self.attributes.access);
        let shortest = self.attributes.shortest;
        let longest = self.attributes.longest;
        write!(
            f,
            "entry {multiplexor} access {access} length {shortest} to {longest}"
        )?;
        match self.value {
            Some(value) => write!(f, " value {}", HexBytes(value)),
            None => Ok(()),
        }
    }
}
