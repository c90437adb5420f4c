//! The search, by halves.
ghost use Rattle.std.specs.Prelude.{IfSome};
ghost use Rattle.search.specs.Orders.{earlier};
ghost use Rattle.search.specs.Places.{Answers, Border, Matches, Parts, Rising, Stands};

use crate::keyed::Keyed;

/// The place of the row that has a key, in rows of rising keys. In other rows it may be missed.
pub fn place<R: Keyed>(rows: &[R], key: R::Key) -> Option<usize>
    ensures matches { IfSome result (λ i. Matches (earlier R.Key.cmp) R.Keyed.label key rows.now i) }
    ensures stands { IfSome result (λ i. Stands R.Keyed.label key rows.now i) }
    ensures answers { Rising (earlier R.Key.cmp) R.Keyed.label rows.now → Answers (earlier R.Key.cmp) R.Keyed.label key rows.now result }
{
    let first = count_before(rows, key);
    let row = rows.get(first)?;
    (row.key() <= key).then_some(first)
}

/// How many rows stand before a key, in rows of rising keys. In other rows it is some place where they may end.
pub fn count_before<R: Keyed>(rows: &[R], key: R::Key) -> usize
    ensures border { Border (earlier R.Key.cmp) R.Keyed.label key rows.now result }
    ensures parts { Rising (earlier R.Key.cmp) R.Keyed.label rows.now → Parts (earlier R.Key.cmp) R.Keyed.label key rows.now result }
{
    let mut low = 0;
    let mut high = rows.len();
    while low < high {
        let middle = low.midpoint(high);
        if rows[middle].key() < key {
            low = middle + 1;
        } else {
            high = middle;
        }
    }
    low
}
