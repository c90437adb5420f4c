//! How a transfer ends: by success, by an abort that is sent, or by one that was heard (CiA 301, 7.2.4.3.17).
ghost use Rattle.std.specs.Prelude.{◌≡◌};
ghost use Rattle.master.specs.Calls.{Parting};
ghost use Rattle.master.specs.Steps.{may_have_set, failed, abandoned, parting, found, abort_heard, done};
ghost use Rattle.master.specs.Shown.{Follows, Parts};

use super::{Master, REST};
use crate::heard::Heard;
use crate::phase::{Aborted, Awaiting, Finder, Phase};
use crate::plan::{Batch, Plan, SILENCE, Step};
use crate::value::is_last;
use sdo::Request;
use wire::AbortCode;

impl Master {
    /// The transfer has succeeded.
    pub(crate) fn succeed(&mut self) -> Step
        ensures { Follows (done self.old self.old.value) self.new result }
    {
        self.phase = Phase::Over(Ok(()));
        Step {
            heard: Heard::Over,
            plan: SILENCE,
        }
    }

    /// The master has found a reason to end the transfer.
    #[tactic(auto, unfolding(crate::specs::Steps::found))]
    pub(crate) fn find(&mut self, awaiting: Awaiting, code: AbortCode) -> Step
        ensures { Follows (found self.old awaiting code) self.new result }
    {
        Step {
            heard: Heard::Over,
            plan: self.abandon(awaiting, code),
        }
    }

    /// The node has ended the transfer.
    #[tactic(auto, unfolding(crate::specs::Steps::abort_heard))]
    pub(crate) fn end_by_node(&mut self, code: AbortCode) -> Step
        ensures { Follows (abort_heard self.old code) self.new result }
    {
        self.fail(code, Finder::Node, false);
        Step {
            heard: Heard::Over,
            plan: Plan {
                quiet: true,
                batch: Batch::Nothing,
            },
        }
    }

    /// Ends the open transfer by an abort.
    #[tactic(auto, unfolding(crate::specs::Steps::parting))]
    pub(crate) fn abandon(&mut self, awaiting: Awaiting, code: AbortCode) -> Plan
        ensures { Parts (record { next = abandoned awaiting code self.old; sending = parting code self.old }) self.new result }
    {
        let may_be_set = self.may_be_set(awaiting);
        self.fail(code, Finder::Master, may_be_set);
        let abort = Request::Abort {
            multiplexor: self.multiplexor,
            code,
        };
        Plan {
            quiet: true,
            batch: Batch::One(abort.to_frame(self.node)),
        }
    }

    /// Notes a failure, after which the master rests.
    fn fail(&mut self, code: AbortCode, finder: Finder, may_be_set: bool)
        ensures { self.new ≡ failed code finder may_be_set self.old }
    {
        self.phase = Phase::Over(Err(Aborted {
            code,
            finder,
            may_be_set,
            segment: self.highest,
        }));
        self.rest = REST;
    }

    /// Whether the node may have set the value: the frame was sent after which it does.
    fn may_be_set(&self, awaiting: Awaiting) -> bool
        ensures { result ≡ may_have_set awaiting self.now.value }
    {
        match awaiting {
            Awaiting::ExpeditedDownload | Awaiting::EndBlockDownload => true,
            Awaiting::DownloadSegment { number, .. } => is_last(&self.value, number as usize),
            _ => false,
        }
    }
}
