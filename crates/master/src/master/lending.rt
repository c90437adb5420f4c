//! How a master hands out what is to be sent.
ghost use Rattle.std.specs.Prelude.{◌≡◌};
ghost use Rattle.master.specs.Sendings.{batch_frames, shown_frames, planned, shown_sending};

use super::Master;
use crate::frames::{Frames, Segments};
use crate::plan::{Batch, Plan};
use crate::sending::Sending;

impl Master {
    /// What the master has resolved to do, with the frames.
    #[inline(always)]
    pub(crate) fn lend(&self, plan: Plan) -> Sending<'_>
        ensures { shown_sending result ≡ planned self.now plan }
    {
        Sending {
            quiet: plan.quiet,
            frames: self.frames(plan.batch),
        }
    }

    /// The frames of a batch.
    #[inline(always)]
    fn frames(&self, batch: Batch) -> Frames<'_>
        ensures { shown_frames result ≡ batch_frames self.now batch }
    {
        match batch {
            Batch::Nothing => Frames::Nothing,
            Batch::One(frame) => Frames::One(frame),
            Batch::SubBlock {
                acknowledged,
                count,
            } => Frames::SubBlock(Segments {
                node: self.node,
                value: &self.value,
                acknowledged,
                next: 1,
                count: count.number(),
            }),
        }
    }
}
