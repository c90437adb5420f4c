//! What a table takes.
ghost use Rattle.std.specs.Prelude.{◌≡◌, ◌<◌, true, length, Some, None, MatchResult};
ghost use Rattle.dictionary.specs.Layouts.{row_at};
ghost use Rattle.dictionary.specs.Places.{put_at};
ghost use Rattle.dictionary.specs.Plain.{fits};
ghost use Rattle.dictionary.specs.Tables.{table_entries, Stands};
ghost use Rattle.dictionary.specs.Verdicts.{write_verdict};

use crate::readable::Readable;
use crate::table::Table;
use crate::table::bytes::overwrite;
use crate::writable::Writable;
use wire::{AbortCode, Multiplexor};

/// A table sets an entry's value in place.
impl Writable for Table {
    fn commit(&mut self, multiplexor: Multiplexor, value: &[u8]) -> Result<(), AbortCode> {
        let place = self.writable(multiplexor, value)?;
        self.store(place, value);
        Ok(())
    }
}

impl Table {
    /// The place of an entry that may be set to a value, or the verdict on the write.
    fn writable(&self, multiplexor: Multiplexor, value: &[u8]) -> Result<usize, AbortCode>
        ensures { MatchResult result (λ i. Stands self.now multiplexor i × (write_verdict (table_entries self.now) multiplexor value.now ≡ None) × (fits (row_at self.now.rows.items i).attributes (length value.now) ≡ true)) (λ c. write_verdict (table_entries self.now) multiplexor value.now ≡ Some c) }
    {
        let place = self.find(multiplexor)?;
        self.rows[place].attributes.check(value.len())?;
        Ok(place)
    }

    /// Sets the value of the entry at a place.
    fn store(&mut self, place: usize, value: &[u8])
        requires within { place < length self.old.rows.items }
        requires fitting { fits (row_at self.old.rows.items place).attributes (length value.now) ≡ true }
        ensures { table_entries self.new ≡ put_at place value.now (table_entries self.old) }
    {
        let start = self.rows[place].start;
        overwrite(&mut self.bytes, start, value);
        self.rows[place].length = value.len();
    }
}
