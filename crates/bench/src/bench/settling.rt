//! What is told of a transfer that is settled.
ghost use Rattle.std.specs.Prelude.{◌≡◌, ◌≤◌, length, Ok};
ghost use Rattle.std.specs.Option.{option_map};
ghost use Rattle.master.specs.States.{ending_in};
ghost use Rattle.report.specs.Reports.{report_of as report_by};
ghost use Rattle.bench.specs.Model.Calls.{filled};

use super::Bench;
use dictionary::Writable;
use line::Line;
use report::{Outcome, Report, report_of};

impl<L: Line, D: Writable> Bench<L, D> {
    /// What became of a transfer that is over.
    pub(super) fn report(&self) -> Option<Report>
        ensures { result ≡ option_map (λ ending. report_by self.now.master.direction self.now.master.multiplexor ending (length self.now.master.value)) (ending_in self.now.master.phase) }
    {
        let ending = self.master.ending()?;
        Some(report_of(
            self.master.direction(),
            self.master.multiplexor(),
            ending,
            self.master.value().len(),
        ))
    }
}

/// Puts a read's bytes to the front of a buffer.
pub(super) fn fill(buffer: &mut [u8], report: Report, value: &[u8])
    requires { length value.now ≤ length buffer.old }
    ensures { buffer.new ≡ filled (Ok report) value.now buffer.old }
{
    if let Outcome::Read { .. } = report.outcome {
        buffer[..value.len()].copy_from_slice(value);
    }
}
