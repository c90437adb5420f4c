//! What a table answers.
ghost use Rattle.std.specs.Prelude.{◌≡◌, Some, None, MatchResult};
ghost use Rattle.dictionary.specs.Questions.{value_at};
ghost use Rattle.dictionary.specs.Tables.{table_entries, table_lawful};
ghost use Rattle.dictionary.specs.Verdicts.{read_verdict};

use crate::attributes::Attributes;
use crate::front::copy_to_front;
use crate::readable::Readable;
use crate::refusal::CopyRefusal;
use crate::table::Table;
use wire::{AbortCode, Multiplexor};

/// A table answers from its rows.
impl Readable for Table {
    ghost meaning = { table_entries };

    ghost lawful = { table_lawful };

    fn attributes(&self, multiplexor: Multiplexor) -> Result<Attributes, AbortCode> {
        let place = self.find(multiplexor)?;
        Ok(self.rows[place].attributes)
    }

    fn copy_value(
        &self,
        multiplexor: Multiplexor,
        buffer: &mut [u8],
    ) -> Result<usize, CopyRefusal> {
        copy_to_front(self.readable(multiplexor)?, buffer)
    }

    fn next(&self, above: Multiplexor) -> Option<Multiplexor> {
        let first = self.first_above(above);
        self.rows.get(first).map(|row| row.multiplexor)
    }
}

impl Table {
    /// The value of an entry that may be read, or the verdict on the read.
    fn readable(&self, multiplexor: Multiplexor) -> Result<&[u8], AbortCode>
        ensures { MatchResult result (λ v. (read_verdict (table_entries self.now) multiplexor ≡ None) × (v.now ≡ value_at (table_entries self.now) multiplexor)) (λ c. read_verdict (table_entries self.now) multiplexor ≡ Some c) }
    {
        let place = self.find(multiplexor)?;
        let row = self.rows[place];
        if !row.attributes.access.reads() {
            return Err(AbortCode::WriteOnly);
        }
        Ok(&self.bytes[row.start..row.start + row.length])
    }
}
