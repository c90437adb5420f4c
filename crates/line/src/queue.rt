//! Items in fixed memory, first in, first out.
ghost use Rattle.std.specs.Prelude.{◌≡◌, ◌≤◌, [], length, if◌then◌else◌};
ghost use Rattle.line.specs.Meanings.{added, full, leading, following};

use std::marker::Model;

/// At most `ROOM` items in a ring: the one at `first` and those behind it, past the end from the start on.
#[derive(Drop)]
pub struct Queue<T: Copy, const ROOM: usize> {
    items: [T; ROOM],
    first: usize,
    count: usize,
}

/// Clauses see the items, the first in first.
impl<T: Copy, const ROOM: usize> Model for Queue<T, ROOM> {
    ghost use Rattle.std.specs.Prelude.{◌-◌, ◌≤◌, List};
    ghost use Rattle.line.specs.Queues.{held};

    ghost Value = { List T };

    ghost view = { λ q. held q.first q.count q.items };

    ghost invariant = { λ q. (q.first ≤ ROOM - 1) × (q.count ≤ ROOM) };
}

impl<T: Copy, const ROOM: usize> Queue<T, ROOM> {
    /// A queue that holds nothing; its places have some value until they are used.
    pub fn new(unused: T) -> Self
        ensures { result ≡ [] }
    {
        Queue {
            items: [unused; ROOM],
            first: 0,
            count: 0,
        }
    }

    /// Puts an item behind all others, or hands it back where all places are taken.
    pub fn add(&mut self, item: T) -> Result<(), T>
        ensures answer { result ≡ (if full ROOM self.old then Err item else Ok tt) }
        ensures after { self.new ≡ added item (full ROOM self.old) self.old }
        ensures within { length self.new ≤ ROOM }
    {
        if self.is_full() {
            return Err(item);
        }
        let to_end = ROOM - self.first;
        let place = if self.count < to_end {
            self.first + self.count
        } else {
            self.count - to_end
        };
        self.items[place] = item;
        self.count += 1;
        Ok(())
    }

    /// Tells whether all places are taken.
    fn is_full(&self) -> bool
        ensures { result ≡ full ROOM self.now }
    {
        self.count == ROOM
    }

    /// Takes the first item out; none where there is none.
    pub fn take(&mut self) -> Option<T>
        ensures answer { result ≡ leading self.old }
        ensures after { self.new ≡ following self.old }
    {
        if self.count == 0 {
            return None;
        }
        let item = self.items[self.first];
        self.count -= 1;
        self.first += 1;
        if self.first == ROOM {
            self.first = 0;
        }
        Some(item)
    }

    /// Lets go of all items.
    pub fn clear(&mut self)
        ensures { self.new ≡ [] }
    {
        self.count = 0;
    }
}
