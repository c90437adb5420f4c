//! The bytes of a read.
ghost use Rattle.std.specs.Prelude.{◌≡◌, ◌≤◌, ℕ, Ok, length};
ghost use Rattle.bench.specs.Answers.{read_in};

use arrayvec::ArrayVec;
use report::{Outcome, Report};
use wire::LONGEST;

/// The bytes that a read has put to the front of a buffer; none after another report.
pub(super) fn read_bytes(report: Report, buffer: &[u8]) -> ArrayVec<u8, LONGEST>
    requires inside { (n : ℕ) → report.outcome ≡ Outcome.Read n → n ≤ length buffer.now }
    requires bound { (n : ℕ) → report.outcome ≡ Outcome.Read n → n ≤ 1024 }
    ensures { result.items ≡ read_in (Ok report) buffer.now }
{
    match report.outcome {
        Outcome::Read { length } => ArrayVec::try_from(&buffer[..length]).unwrap(),
        _ => ArrayVec::new(),
    }
}
