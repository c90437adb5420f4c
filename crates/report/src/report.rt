//! The report of a transfer: what became of its value.
ghost use Rattle.std.specs.Prelude.{◌≡◌};
ghost use Rattle.report.specs.Reports.{report_of, outcome_of, failure_of, layer_in};

use master::{Direction, Ending, Finder};
use register::{Layer, layer_of};
use wire::{AbortCode, Multiplexor};

/// The report of a transfer.
#[derive(Clone, Copy, PartialEq, Eq, Debug)]
pub struct Report {
    pub outcome: Outcome,
}

/// What became of a transfer.
#[derive(Clone, Copy, PartialEq, Eq, Debug)]
pub enum Outcome {
    /// The value was set once, with exactly the ordered bytes.
    Written,
    /// The value was read; it has so many bytes.
    Read { length: usize },
    /// The value was not set.
    Unwritten(Failure),
    /// The value was set once and wholly, or not at all.
    Undecided(Failure),
    /// The value was not read.
    Unread(Failure),
}

/// Why a transfer failed, at which entry, and how far it was.
#[derive(Clone, Copy, PartialEq, Eq, Debug)]
pub struct Failure {
    pub multiplexor: Multiplexor,
    pub code: AbortCode,
    /// The highest segment of the value that was sent or asked for; 0 if none was.
    pub segment: u16,
    pub layer: Layer,
}

/// The report of a transfer that has ended; `length` is how many bytes a read has brought.
pub fn report_of(
    direction: Direction,
    multiplexor: Multiplexor,
    ending: Ending,
    length: usize,
) -> Report
    ensures { result ≡ report_of direction multiplexor ending length }
{
    Report {
        outcome: outcome_of(direction, multiplexor, ending, length),
    }
}

/// What became of a transfer that has ended.
fn outcome_of(
    direction: Direction,
    multiplexor: Multiplexor,
    ending: Ending,
    length: usize,
) -> Outcome
    ensures { result ≡ outcome_of direction multiplexor ending length }
{
    match (direction, ending) {
        (Direction::Download, Ok(())) => Outcome::Written,
        (Direction::Upload, Ok(())) => Outcome::Read { length },
        (Direction::Upload, Err(failure)) => Outcome::Unread(failure_of(multiplexor, failure)),
        (Direction::Download, Err(failure)) if failure.may_be_set => {
            Outcome::Undecided(failure_of(multiplexor, failure))
        }
        (Direction::Download, Err(failure)) => Outcome::Unwritten(failure_of(multiplexor, failure)),
    }
}

/// A master's failure as it is reported.
fn failure_of(multiplexor: Multiplexor, failure: master::Aborted) -> Failure
    ensures { result ≡ failure_of multiplexor failure }
{
    Failure {
        multiplexor,
        code: failure.code,
        segment: failure.segment,
        layer: layer_in(failure.finder, failure.code),
    }
}

/// The layer that a transfer failed in.
fn layer_in(finder: Finder, code: AbortCode) -> Layer
    ensures { result ≡ layer_in finder code }
{
    match finder {
        Finder::Master => Layer::Master,
        Finder::Node => layer_of(code),
    }
}
