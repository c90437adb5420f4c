//! How a node goes on after a frame: with which transfer, and with which answer.
ghost use Rattle.std.specs.Prelude.{◌≡◌, ℕ, List, Some, None, Option};
ghost use Rattle.wire.specs.declared.abort_code.AbortCode.{AbortCode};
ghost use Rattle.dictionary.specs.Commits.{decided};
ghost use Rattle.sdo.specs.Answers.{shown_answer};
ghost use Rattle.node.specs.Nodes.{Turns, Goes, shown, shown_activity};
ghost use Rattle.node.specs.States.{named as named-by};
ghost use Rattle.node.specs.Steps.{turned, committed, unless, refused, ended, dropped, unexpected as unexpected-step};

use super::Node;
use crate::activity::Activity;
use crate::reaction::Reaction;
use crate::served::Served;
use sdo::Answer;
use wire::{AbortCode, Multiplexor};

impl Node {
    /// The multiplexor that an abort names: the transfer's, zeros without one.
    pub(super) fn named(&self) -> Multiplexor
        ensures { result ≡ named-by (shown self.now).activity }
    {
        match self.activity {
            Activity::Idle => Multiplexor::default(),
            Activity::Download { start, .. } => start.multiplexor,
            Activity::Upload { delivery } => delivery.multiplexor,
            Activity::BlockDownload { reception } => reception.start.download.multiplexor,
            Activity::BlockEnd { start } => start.download.multiplexor,
        }
    }

    /// Goes on with a transfer and sends nothing.
    #[inline(always)]
    pub(super) fn go_on(&mut self, next: Activity, served: Served) -> Reaction
        ensures { Turns (turned (shown_activity next self.old.buffer) served None) self.old self.new result }
    {
        self.activity = next;
        self.ticks = 0;
        Reaction {
            served,
            reply: None,
        }
    }

    /// Goes on with a transfer and sends an answer.
    #[inline(always)]
    pub(super) fn send(&mut self, next: Activity, served: Served, answer: Answer) -> Reaction
        ensures { Turns (turned (shown_activity next self.old.buffer) served (Some (shown_answer answer))) self.old self.new result }
    {
        self.activity = next;
        self.ticks = 0;
        Reaction {
            served,
            reply: Some(answer.to_frame(self.number)),
        }
    }

    /// Sends an abort and is idle.
    #[inline(always)]
    pub(super) fn refuse(&mut self, multiplexor: Multiplexor, code: AbortCode) -> Reaction
        ensures { Turns (refused multiplexor code) self.old self.new result }
    {
        self.send(
            Activity::Idle,
            Served::Aborted,
            Answer::Abort { multiplexor, code },
        )
    }

    /// Is idle after an abort that came.
    pub(super) fn end(&mut self) -> Reaction
        ensures { Turns ended self.old self.new result }
    {
        self.go_on(Activity::Idle, Served::Aborted)
    }

    /// Stays in its transfer.
    pub(super) fn ignore(&mut self) -> Reaction
        ensures { Turns (dropped (shown self.old).activity) self.old self.new result }
    {
        let activity = self.activity;
        self.go_on(activity, Served::Dropped)
    }

    /// Refuses a message that is not awaited.
    #[inline(always)]
    pub(super) fn unexpected(&mut self) -> Reaction
        ensures { Turns (unexpected-step (shown self.old).activity) self.old self.new result }
    {
        let multiplexor = self.named();
        self.refuse(multiplexor, AbortCode::UnknownCommand)
    }

    /// Answers that a value was set, or tells the dictionary's verdict on it.
    #[inline(always)]
    pub(super) fn conclude(
        &mut self,
        multiplexor: Multiplexor,
        outcome: Result<(), AbortCode>,
        answer: Answer,
    ) -> Reaction
        ensures { (w : Option AbortCode) → (v : List ℕ) → outcome ≡ decided w → Goes (unless w multiplexor (committed multiplexor v (shown_answer answer))) self.old self.new result }
    {
        match outcome {
            Ok(()) => {
                self.commits = self.commits.wrapping_add(1);
                self.send(Activity::Idle, Served::Committed, answer)
            }
            Err(code) => self.refuse(multiplexor, code),
        }
    }
}
