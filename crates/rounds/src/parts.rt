//! The parts of a round, and the rest after a transfer that failed.
ghost use Rattle.std.specs.Prelude.{◌≡◌};
ghost use Rattle.master.specs.Limits.{rest_ticks};
ghost use Rattle.bench.specs.Model.States.{State};
ghost use Rattle.rounds.specs.Rounds.{ServesAll, HearsAll, Round, Ticks, Went};

use crate::watch::Watch;
use bench::{Session, Steppable};
use master::{Heard, REST};
use node::Served;

/// The most serves, and the most hears, of a round.
pub const MOST_CALLS: usize = 300;

/// Lets the node take the frames that wait for it, 300 at most: it is called until it finds none.
pub fn serve_all<B: Steppable>(session: &mut Session<B>)
    ensures went { Went ServesAll (B.state session.old.bench) (B.state session.new.bench) }
    ensures ticket { session.new.held ≡ session.old.held }
{
    for _ in 0..MOST_CALLS {
        if let Served::NothingWaited = session.serve() {
            return;
        }
    }
}

/// Lets the master take the frames that wait for it, 300 at most: it is called until it finds none. Tells whether one of the calls ended the transfer.
pub fn hear_all<B: Steppable>(session: &mut Session<B>) -> bool
    ensures went { Went (HearsAll result) (B.state session.old.bench) (B.state session.new.bench) }
    ensures ticket { session.new.held ≡ session.old.held }
    ensures dictionary { B.dictionary session.new.bench ≡ B.dictionary session.old.bench }
{
    let mut over = false;
    for _ in 0..MOST_CALLS {
        match session.hear() {
            Heard::NothingWaited => return over,
            Heard::Over => over = true,
            Heard::Dropped | Heard::Sent => {}
        }
    }
    over
}

/// Lets both ends take what waits and a tick pass, and tells whether the transfer ended.
pub fn round<B: Steppable, W: Watch<B>>(session: &mut Session<B>, watch: &mut W) -> bool
    ensures went { Went (Round result) (B.state session.old.bench) (B.state session.new.bench) }
    ensures ticket { session.new.held ≡ session.old.held }
{
    serve_all(session);
    let over = hear_all(session);
    watch.before_tick(session.bench());
    let ended = session.tick().ended;
    over || ended
}

/// Lets the 30 ticks pass for which a master rests after a transfer that failed.
pub fn rest<B: Steppable, W: Watch<B>>(session: &mut Session<B>, watch: &mut W)
    ensures went { Went (Ticks rest_ticks) (B.state session.old.bench) (B.state session.new.bench) }
    ensures ticket { session.new.held ≡ session.old.held }
    ensures dictionary { B.dictionary session.new.bench ≡ B.dictionary session.old.bench }
{
    for _ in 0..REST {
        watch.before_tick(session.bench());
        let _ = session.tick();
    }
}
