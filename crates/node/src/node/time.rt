//! Time at a node.
ghost use Rattle.std.specs.Prelude.{◌≡◌};
ghost use Rattle.wire.specs.declared.abort_code.AbortCode.TheVariants.{TimedOut};
ghost use Rattle.sdo.specs.Answers.{Abort};
ghost use Rattle.sdo.specs.Frames.{answer_frame};
ghost use Rattle.node.specs.Nodes.{Ticks, shown, timed_out};
ghost use Rattle.node.specs.States.{named as named-by};

use super::Node;
use crate::activity::Activity;
use sdo::Answer;
use wire::{AbortCode, Frame};

/// In which tick after the last frame that it took a busy node ends its transfer.
const PATIENCE: u8 = 25;

impl Node {
    /// Lets a tick pass: the abort, 0504 0000, with which a node ends its transfer that took no frame for 25 ticks.
    #[tactic(auto, unfolding(crate::specs::Nodes::tick))]
    pub fn tick(&mut self) -> Option<Frame>
        ensures { Ticks self.old self.new result }
    {
        if self.is_idle() {
            return None;
        }
        if self.ticks < PATIENCE - 1 {
            self.ticks += 1;
            return None;
        }
        Some(self.time_out())
    }

    /// Ends the transfer by an abort.
    fn time_out(&mut self) -> Frame
        ensures answer { result ≡ answer_frame self.old.number (Abort (named-by (shown self.old).activity) TimedOut) }
        ensures node { shown self.new ≡ (timed_out (shown self.old)).next }
    {
        let abort = Answer::Abort {
            multiplexor: self.named(),
            code: AbortCode::TimedOut,
        };
        self.activity = Activity::Idle;
        self.ticks = 0;
        abort.to_frame(self.number)
    }
}
