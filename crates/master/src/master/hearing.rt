//! What a master does with a frame, or with none.
ghost use Rattle.master.specs.Steps.{hear, hear_in, hear_open};
ghost use Rattle.master.specs.Shown.{Follows, Tells};

use super::Master;
use crate::heard::Heard;
use crate::phase::{Awaiting, Phase};
use crate::plan::Step;
use crate::sending::Hearing;
use sdo::Answer;
use wire::{AbortCode, Frame, Identifier};

impl Master {
    ghost use Rattle.std.specs.Borrow.{sem};
    ghost use Rattle.master.specs.Lending.{leaves};

    /// Takes what the line had for the master.
    #[inline(always)]
    pub fn hear(&mut self, taken: Option<Frame>) -> Hearing<'_>
        ensures* state { sem 𝓛 (leaves self.entry (hear self.old taken).next) }
        ensures answer { Tells (hear self.old taken) result }
    {
        let step = self.take(taken);
        Hearing {
            heard: step.heard,
            sending: self.lend(step.plan),
        }
    }

    /// Takes what the line had.
    #[inline(always)]
    #[tactic(auto, unfolding(crate::specs::Steps::hear))]
    fn take(&mut self, taken: Option<Frame>) -> Step
        ensures { Follows (hear self.old taken) self.new result }
    {
        match taken {
            None => self.stay(Heard::NothingWaited),
            Some(frame) => self.hear_frame(frame),
        }
    }

    /// Takes a frame; without an open transfer it is dropped.
    fn hear_frame(&mut self, frame: Frame) -> Step
        ensures { Follows (hear_in self.old self.old.phase frame) self.new result }
    {
        match self.phase {
            Phase::Open(awaiting) => self.hear_open(awaiting, frame),
            Phase::Idle | Phase::Over(_) => self.stay(Heard::Dropped),
        }
    }

    /// Takes a frame in an open transfer; one that is not from the node is dropped.
    #[tactic(auto, using(crate::proofs::Addressing::addressed))]
    fn hear_open(&mut self, awaiting: Awaiting, frame: Frame) -> Step
        ensures { Follows (hear_open self.old awaiting frame) self.new result }
    {
        if frame.identifier != Identifier::of_answers(self.node) {
            return self.stay(Heard::Dropped);
        }
        match Answer::from_bytes(frame.bytes) {
            Some(answer) => self.answer(awaiting, answer),
            None => self.find(awaiting, AbortCode::UnknownCommand),
        }
    }
}
