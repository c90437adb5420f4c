//! What is printed of a line that is no command, and of how a transfer began and ended.
ghost use Rattle.std.specs.Prelude.{Some};
ghost use Rattle.commands.specs.Answers.{not_understood, begun, settled, outcome_text, failure_text};

use master::BeginRefusal;
use orders::HexBytes;
use report::{Failure, Outcome, Report, SettleRefusal};
use std::fmt;

/// The number of a line that is no command, or none that can stand there.
#[derive(Clone, Copy)]
pub struct NotUnderstood(pub u64);

/// The number of the ticket for a transfer that was begun, or why none was.
#[derive(Clone, Copy)]
pub struct BegunText(pub Result<u16, BeginRefusal>);

/// What came of settling a ticket.
#[derive(Clone, Copy)]
pub struct SettledText<'a> {
    pub settled: Result<Report, SettleRefusal>,
    /// The bytes of a read stand in its front.
    pub buffer: &'a [u8],
}

/// What became of a transfer, and the buffer of a read.
#[derive(Clone, Copy)]
struct Ended<'a> {
    outcome: Outcome,
    buffer: &'a [u8],
}

/// Why a transfer failed, at which entry, and how far it was.
#[derive(Clone, Copy)]
struct Failed(Failure);

impl fmt::Display for NotUnderstood {
    ghost output = { λ line. Some (not_understood line.0) };

    fn fmt<W: fmt::Write>(&self, f: &mut fmt::Formatter<W>) -> fmt::Result {
        let number = self.0;
        write!(f, "line {number}: not understood")
    }
}

impl fmt::Display for BegunText {
    ghost output = { λ b. Some (begun b.0) };

    fn fmt<W: fmt::Write>(&self, f: &mut fmt::Formatter<W>) -> fmt::Result {
        match self.0 {
            Ok(number) => write!(f, "begin: ticket {number}"),
            Err(refusal) => {
                let number = u8::from(refusal);
                write!(f, "begin: refused {number}")
            }
        }
    }
}

impl fmt::Display for SettledText<'_> {
    ghost output = { λ s. Some (settled s.settled s.buffer.now) };

    fn fmt<W: fmt::Write>(&self, f: &mut fmt::Formatter<W>) -> fmt::Result {
        match self.settled {
            Ok(report) => {
                let ended = Ended {
                    outcome: report.outcome,
                    buffer: self.buffer,
                };
                write!(f, "settle: {ended}")
            }
            Err(refusal) => {
                let number = u8::from(refusal);
                write!(f, "settle: refused {number}")
            }
        }
    }
}

impl fmt::Display for Ended<'_> {
    ghost output = { λ e. Some (outcome_text e.outcome e.buffer.now) };

    fn fmt<W: fmt::Write>(&self, f: &mut fmt::Formatter<W>) -> fmt::Result {
        match self.outcome {
            Outcome::Written => f.write_str("Written"),
            Outcome::Read { length } => {
                // Always the whole value: no ticket is taken with a buffer that has no room for it.
                let value = HexBytes(self.buffer.get(..length).unwrap_or(self.buffer));
                write!(f, "Read {length}: {value}")
            }
            Outcome::Unwritten(failure) => write!(f, "Unwritten {}", Failed(failure)),
            Outcome::Undecided(failure) => write!(f, "Undecided {}", Failed(failure)),
            Outcome::Unread(failure) => write!(f, "Unread {}", Failed(failure)),
        }
    }
}

impl fmt::Display for Failed {
    ghost output = { λ failed. Some (failure_text failed.0) };

    fn fmt<W: fmt::Write>(&self, f: &mut fmt::Formatter<W>) -> fmt::Result {
        let multiplexor = self.0.multiplexor;
        let code = self.0.code;
        let segment = self.0.segment;
        let layer = u8::from(self.0.layer);
        write!(f, "{multiplexor} {code} segment {segment} layer {layer}")
    }
}
