//! How a transfer goes on, or stays as it is.
ghost use Rattle.master.specs.Sendings.{batch_frames};
ghost use Rattle.master.specs.Steps.{send, unmoved};
ghost use Rattle.master.specs.Shown.{Follows};

use super::Master;
use crate::heard::Heard;
use crate::phase::{Awaiting, Phase};
use crate::plan::{Batch, Plan, SILENCE, Step};

impl Master {
    /// Frames are sent, and the next answer is awaited.
    pub(crate) fn send(&mut self, awaiting: Awaiting, highest: u16, batch: Batch) -> Step
        ensures { Follows (send self.old awaiting highest self.old.value (batch_frames self.old batch)) self.new result }
    {
        self.phase = Phase::Open(awaiting);
        self.highest = highest;
        self.ticks = 0;
        Step {
            heard: Heard::Sent,
            plan: Plan {
                quiet: false,
                batch,
            },
        }
    }

    /// Nothing has changed.
    pub(crate) fn stay(&mut self, heard: Heard) -> Step
        ensures { Follows (unmoved self.old heard) self.new result }
    {
        Step {
            heard,
            plan: SILENCE,
        }
    }
}
