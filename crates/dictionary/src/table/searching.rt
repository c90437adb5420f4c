//! Finding the entry that is asked for.
ghost use Rattle.std.specs.Prelude.{◌≡◌, slice_get, MatchResult};
ghost use Rattle.std.specs.Option.{option_map};
ghost use Rattle.dictionary.specs.Entries.{has_index};
ghost use Rattle.dictionary.specs.Places.{place_at};
ghost use Rattle.dictionary.specs.Questions.{absence, next_above};
ghost use Rattle.dictionary.specs.Tables.{table_entries, Stands, Absent};

use crate::table::Table;
use search::{count_before, place};
use wire::{AbortCode, Multiplexor};

/// A table with no more rows than this is walked over, as that takes less time there than a search by halves. The answers are the same.
const FEW: usize = 24;

impl Table {
    /// The place of the entry at a multiplexor, or the code that says why there is none.
    pub(super) fn find(&self, multiplexor: Multiplexor) -> Result<usize, AbortCode>
        ensures { MatchResult result (λ i. Stands self.now multiplexor i) (λ c. Absent self.now multiplexor c) }
    {
        self.place(multiplexor)
            .ok_or_else(|| self.absence(multiplexor))
    }

    /// The place of the entry at a multiplexor.
    fn place(&self, multiplexor: Multiplexor) -> Option<usize>
        ensures { result ≡ place_at multiplexor (table_entries self.now) }
    {
        if self.rows.len() > FEW {
            return self.place_by_halves(multiplexor);
        }
        self.rows
            .iter()
            .position(|row| row.multiplexor == multiplexor)
    }

    /// The same by a search. It is never compiled into its caller, which so stays short enough to be compiled into those that ask it.
    #[inline(never)]
    fn place_by_halves(&self, multiplexor: Multiplexor) -> Option<usize>
        ensures { result ≡ place_at multiplexor (table_entries self.now) }
    {
        place(&self.rows, multiplexor)
    }

    /// The code that says why there is no entry at a multiplexor.
    fn absence(&self, multiplexor: Multiplexor) -> AbortCode
        ensures { result ≡ absence (table_entries self.now) multiplexor }
    {
        if self.has_index(multiplexor.index) {
            AbortCode::NoSubindex
        } else {
            AbortCode::NoObject
        }
    }

    /// Whether some entry has an index.
    fn has_index(&self, index: u16) -> bool
        ensures { result ≡ has_index index (table_entries self.now) }
    {
        if self.rows.len() > FEW {
            return self.has_index_by_halves(index);
        }
        self.rows.iter().any(|row| row.multiplexor.index == index)
    }

    /// The same by a search, apart as `place_by_halves` is.
    #[inline(never)]
    fn has_index_by_halves(&self, index: u16) -> bool
        ensures { result ≡ has_index index (table_entries self.now) }
    {
        let first = count_before(&self.rows, Multiplexor { index, subindex: 0 });
        self.rows
            .get(first)
            .is_some_and(|row| row.multiplexor.index == index)
    }

    /// The place of the first entry above a multiplexor.
    pub(super) fn first_above(&self, multiplexor: Multiplexor) -> usize
        ensures { next_above (table_entries self.now) multiplexor ≡ option_map (λ r. r.multiplexor) (slice_get self.now.rows.items result) }
    {
        let first = count_before(&self.rows, multiplexor);
        match self.rows.get(first) {
            Some(row) if row.multiplexor == multiplexor => first + 1,
            _ => first,
        }
    }
}
