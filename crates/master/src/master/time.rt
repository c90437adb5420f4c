//! What a master does in a tick, and at the end of its caller's patience.
ghost use Rattle.std.specs.Prelude.{◌≡◌, false};
ghost use Rattle.master.specs.Calls.{tick, waited, rested, give_up};
ghost use Rattle.master.specs.Sendings.{shown_sending};
ghost use Rattle.master.specs.Shown.{Ticks, Parts, TellsTick};

use super::Master;
use crate::phase::{Awaiting, Phase};
use crate::plan::{Batch, Plan, SILENCE};
use crate::sending::{Sending, Tick};
use wire::AbortCode;

/// The tick after its last send in which a master ends its transfer.
const PATIENCE: u8 = 10;

impl Master {
    ghost use Rattle.std.specs.Borrow.{sem};
    ghost use Rattle.master.specs.Lending.{leaves};

    /// Lets a tick pass. The tenth since the last send ends an open transfer with 0504 0000.
    #[inline(always)]
    pub fn tick(&mut self) -> Tick<'_>
        ensures* state { sem 𝓛 (leaves self.entry (tick self.old).next) }
        ensures answer { TellsTick (tick self.old) result }
    {
        let (ended, plan) = self.pass();
        Tick {
            ended,
            sending: self.lend(plan),
        }
    }

    /// Lets a tick pass, and tells whether it has ended the transfer.
    #[tactic(auto, unfolding(crate::specs::Calls::tick))]
    #[inline(always)]
    fn pass(&mut self) -> (bool, Plan)
        ensures { Ticks (tick self.old) self.new result }
    {
        match self.phase {
            Phase::Open(awaiting) => self.wait(awaiting),
            Phase::Idle | Phase::Over(_) => (false, self.relax()),
        }
    }

    /// One more tick has gone by without an answer.
    #[inline(always)]
    fn wait(&mut self, awaiting: Awaiting) -> (bool, Plan)
        ensures { Ticks (waited self.old awaiting) self.new result }
    {
        if self.ticks < PATIENCE - 1 {
            self.ticks += 1;
            (false, SILENCE)
        } else {
            (true, self.abandon(awaiting, AbortCode::TimedOut))
        }
    }

    /// One more tick of rest has gone by.
    #[inline(always)]
    fn relax(&mut self) -> Plan
        ensures { Ticks (rested self.old) self.new (false, result) }
    {
        let quiet = self.rest == 1;
        self.rest = self.rest.saturating_sub(1);
        Plan {
            quiet,
            batch: Batch::Nothing,
        }
    }

    /// Ends an open transfer with 0800 0000.
    #[inline(always)]
    pub fn give_up(&mut self) -> Sending<'_>
        ensures* state { sem 𝓛 (leaves self.entry (give_up self.old).next) }
        ensures answer { shown_sending result ≡ (give_up self.old).sending }
    {
        let plan = self.part();
        self.lend(plan)
    }

    /// Ends an open transfer.
    fn part(&mut self) -> Plan
        ensures { Parts (give_up self.old) self.new result }
    {
        match self.phase {
            Phase::Open(awaiting) => self.abandon(awaiting, AbortCode::GeneralError),
            Phase::Idle | Phase::Over(_) => SILENCE,
        }
    }
}
