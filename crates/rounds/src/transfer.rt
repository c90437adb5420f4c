//! A transfer that has begun, to its report.
ghost use Rattle.std.specs.Prelude.{◌≡◌, None};
ghost use Rattle.bench.specs.Model.States.{State};
ghost use Rattle.rounds.specs.Rounds.{resting, Rounds, Ticks, CarriesOut, Went};

use crate::parts::{rest, round};
use crate::watch::Watch;
use bench::{Session, Steppable};
use report::{Outcome, Report};
use wire::LONGEST;

/// The most rounds of a transfer: a write sends at most 1,300 frames, as `master::master_laws` states, and ends in the tenth tick without one.
pub const MOST_ROUNDS: usize = 13_000;

/// Carries out the transfer whose ticket is held: rounds until one ends it, 13,000 at most, then the ticket is settled, and where the transfer
/// failed the master's rest passes. Tells what became of it. Where no ticket is held nothing happens.
pub fn carry_out<B: Steppable, W: Watch<B>>(
    session: &mut Session<B>,
    buffer: &mut [u8; LONGEST],
    watch: &mut W,
) -> Option<Report>
    ensures went { Went (CarriesOut session.old.held result buffer.old buffer.new) (B.state session.old.bench) (B.state session.new.bench) }
    ensures ticket { session.new.held ≡ None }
{
    session.ticket()?;
    pass_frames(session, watch);
    match session.settle(buffer)? {
        Ok(report) => {
            rest_after(session, watch, report.outcome);
            Some(report)
        }
        Err(_) => unreachable!(),
    }
}

/// Passes frames, round by round, until the transfer is over.
fn pass_frames<B: Steppable, W: Watch<B>>(session: &mut Session<B>, watch: &mut W)
    ensures went { Went Rounds (B.state session.old.bench) (B.state session.new.bench) }
    ensures ticket { session.new.held ≡ session.old.held }
{
    for _ in 0..MOST_ROUNDS {
        if round(session, watch) {
            return;
        }
    }
}

/// Lets the ticks pass for which the master rests after a transfer, if it failed.
fn rest_after<B: Steppable, W: Watch<B>>(session: &mut Session<B>, watch: &mut W, outcome: Outcome)
    ensures went { Went (Ticks (resting outcome)) (B.state session.old.bench) (B.state session.new.bench) }
    ensures ticket { session.new.held ≡ session.old.held }
{
    match outcome {
        Outcome::Written | Outcome::Read { .. } => {}
        Outcome::Unwritten(_) | Outcome::Undecided(_) | Outcome::Unread(_) => rest(session, watch),
    }
}
