//! A master: the SDO client of CiA 301, which carries out one transfer at a time.
ghost use Rattle.std.specs.Prelude.{◌≡◌, ◌≤◌, length};
ghost use Rattle.master.specs.States.{fresh, clear, uncleared, ending_in};

use crate::direction::Direction;
use crate::phase::{Ending, Phase};
use crate::value::Value;
use std::marker::Model;
use wire::{Multiplexor, NodeNumber};

mod answers;
mod beginning;
mod blocks;
mod ends;
mod going;
mod hearing;
mod lending;
mod reads;
mod time;
mod writes;

/// The ticks for which a master rests after a transfer that has failed.
pub const REST: u8 = 30;

/// The most transfers that a master begins.
pub const MOST_TRANSFERS: u16 = 65_535;

/// The number at which the segments of a read are no longer counted.
pub(crate) const SEGMENT_CAP: u16 = 65_535;

/// A master by the node that it asks, and how far its latest transfer is.
#[derive(Drop)]
pub struct Master {
    node: NodeNumber,
    begun: u16,
    phase: Phase,
    multiplexor: Multiplexor,
    direction: Direction,
    value: Value,
    highest: u16,
    ticks: u8,
    rest: u8,
}

impl Model for Master {
    ghost use Rattle.master.specs.States.{State};

    ghost Value = { State };

    ghost view = { λ m. record { node = m.node; begun = m.begun; phase = m.phase; multiplexor = m.multiplexor; direction = m.direction; value = m.value.items; highest = m.highest; ticks = m.ticks; rest = m.rest } };
}

impl Master {
    /// A master of a node that has begun nothing.
    pub fn new(node: NodeNumber) -> Master
        ensures { result ≡ fresh node }
    {
        Master {
            node,
            begun: 0,
            phase: Phase::Idle,
            multiplexor: Multiplexor::default(),
            direction: Direction::Upload,
            value: Value::new(),
            highest: 0,
            ticks: 0,
            rest: 0,
        }
    }

    /// The number of the latest transfer; none where it was cleared, or nothing was begun.
    pub fn uncleared(&self) -> Option<u16>
        ensures { result ≡ uncleared self.now }
    {
        match self.phase {
            Phase::Idle => None,
            Phase::Open(_) | Phase::Over(_) => Some(self.begun),
        }
    }

    /// The multiplexor of the latest transfer.
    pub fn multiplexor(&self) -> Multiplexor
        ensures { result ≡ self.now.multiplexor }
    {
        self.multiplexor
    }

    /// Which way the latest transfer goes.
    pub fn direction(&self) -> Direction
        ensures { result ≡ self.now.direction }
    {
        self.direction
    }

    /// How the latest transfer ended; none where it is open or was cleared.
    pub fn ending(&self) -> Option<Ending>
        ensures { result ≡ ending_in self.now.phase }
    {
        match self.phase {
            Phase::Over(ending) => Some(ending),
            _ => None,
        }
    }

    /// The bytes that the latest transfer has read, or the value that it writes.
    pub fn value(&self) -> &[u8]
        ensures value { result.now ≡ self.now.value }
        ensures bound { length result.now ≤ 1024 }
    {
        &self.value
    }

    /// Clears a transfer that is over; an open one stays.
    pub fn clear(&mut self)
        ensures { self.new ≡ clear self.old }
    {
        if let Phase::Over(_) = self.phase {
            self.phase = Phase::Idle;
        }
    }
}
