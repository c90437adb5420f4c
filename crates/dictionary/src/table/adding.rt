//! An empty table, and one entry more.
ghost use Rattle.std.specs.Prelude.{◌≡◌, ◌+◌, [], ◌∷◌, ◌++◌, length, None, nat_le, nat_lt};
ghost use Rattle.dictionary.specs.Additions.{last_at, is_above, needed, add_refusal, added};
ghost use Rattle.dictionary.specs.Commits.{decided};
ghost use Rattle.dictionary.specs.Plain.{plain};
ghost use Rattle.dictionary.specs.Tables.{table_entries};

use crate::attributes::Attributes;
use crate::refusal::AddRefusal;
use crate::row::Row;
use crate::table::Table;
use crate::table::bytes::reserve;
use arrayvec::ArrayVec;
use wire::Multiplexor;

impl Table {
    /// A table with no entries.
    pub fn new() -> Table
        ensures { table_entries result ≡ [] }
    {
        Table {
            rows: ArrayVec::new(),
            bytes: ArrayVec::new(),
        }
    }

    /// Takes an entry behind all others, or says why not, by 8 to 11, and changes nothing.
    pub fn add(
        &mut self,
        multiplexor: Multiplexor,
        attributes: Attributes,
        value: &[u8],
    ) -> Result<(), AddRefusal>
        ensures answer { result ≡ decided (add_refusal (table_entries self.old) multiplexor attributes value.now) }
        ensures after { table_entries self.new ≡ added (table_entries self.old) multiplexor attributes value.now }
    {
        if self.is_full() {
            return Err(AddRefusal::Full);
        }
        if !self.is_above_last(multiplexor) {
            return Err(AddRefusal::NotAbove);
        }
        if !attributes.are_lawful(value.len()) {
            return Err(AddRefusal::Unlawful);
        }
        if self.lacks_room(attributes.longest) {
            return Err(AddRefusal::NoRoom);
        }
        self.append(multiplexor, attributes, value);
        Ok(())
    }

    /// Whether no further entry can be taken.
    fn is_full(&self) -> bool
        ensures { result ≡ nat_le 64 (length (table_entries self.now)) }
    {
        self.rows.is_full()
    }

    /// Whether a longest length is more than the bytes that are left.
    fn lacks_room(&self, longest: u16) -> bool
        ensures { result ≡ nat_lt 4096 (needed (table_entries self.now) + longest) }
    {
        self.bytes.remaining_capacity() < usize::from(longest)
    }

    /// Whether a multiplexor is above that of the last entry.
    fn is_above_last(&self, multiplexor: Multiplexor) -> bool
        ensures { result ≡ is_above (last_at (table_entries self.now)) multiplexor }
    {
        self.rows
            .last()
            .is_none_or(|last| last.multiplexor < multiplexor)
    }

    /// Takes an entry that nothing speaks against.
    fn append(&mut self, multiplexor: Multiplexor, attributes: Attributes, value: &[u8])
        requires { add_refusal (table_entries self.old) multiplexor attributes value.now ≡ None }
        ensures { table_entries self.new ≡ table_entries self.old ++ plain multiplexor attributes value.now ∷ [] }
    {
        let start = self.bytes.len();
        reserve(&mut self.bytes, value, attributes.longest);
        self.rows.push(Row {
            multiplexor,
            attributes,
            start,
            length: value.len(),
        });
    }
}
