//! Whole transfers over a memory line and the sample dictionary, which C can have carried out.
ghost use Rattle.std.specs.Prelude.{◌≡◌, ◌≤◌, None};
ghost use Rattle.master.specs.Calls as order;
ghost use Rattle.bench.specs.Model.States.{State};
ghost use Rattle.rounds.specs.Rounds.{Went};
ghost use Rattle.exports.specs.Transfers.{OneTold, Writes, Reads, WentFromNew, reports, is_written, is_read, method_of};

use bench::{Session, Steppable};
use dictionary::sample;
use line::MemoryLine;
use master::Method;
use report::{Outcome, Report};
use rounds::{Unwatched, carry_out};
use wire::{LONGEST, Multiplexor};

/// Writes a value to an entry as often as is said, by the method of a number: 0 expedited, 1 segmented, any other block. Counts how often
/// it was written. The node has number 5 and block size 127.
#[unsafe(no_mangle)]
pub extern "C" fn wontazhil_writes(
    method: u8,
    index: u16,
    subindex: u8,
    value: &[u8],
    count: u16,
) -> u16
    ensures most { result ≤ count }
    ensures told { WentFromNew (Writes (record { index = index; subindex = subindex }) (method_of method) value.now count result) }
{
    let method = method_of(method);
    let multiplexor = Multiplexor { index, subindex };
    let mut session = Session::new(5, 127, MemoryLine::new(), sample());
    let mut buffer = [0; LONGEST];
    let mut good = 0;
    for done in 0..count {
        if write(&mut session, method, multiplexor, value, &mut buffer) {
            good += 1;
        }
    }
    let _ = session.close(&mut buffer);
    good
}

/// Writes a value to an entry by block, reads the entry as often as is said, and counts how often it was read. The node is as for writes.
#[unsafe(no_mangle)]
pub extern "C" fn wontazhil_reads(index: u16, subindex: u8, value: &[u8], count: u16) -> u16
    ensures most { result ≤ count }
    ensures told { WentFromNew (Reads (record { index = index; subindex = subindex }) value.now count result) }
{
    let multiplexor = Multiplexor { index, subindex };
    let mut session = Session::new(5, 127, MemoryLine::new(), sample());
    let mut buffer = [0; LONGEST];
    let _ = write(&mut session, Method::Block, multiplexor, value, &mut buffer);
    let mut good = 0;
    for done in 0..count {
        if read(&mut session, multiplexor, &mut buffer) {
            good += 1;
        }
    }
    let _ = session.close(&mut buffer);
    good
}

/// The method of a number: 0 expedited, 1 segmented, any other block.
fn method_of(number: u8) -> Method
    ensures { result ≡ method_of number }
{
    match number {
        0 => Method::Expedited,
        1 => Method::Segmented,
        _ => Method::Block,
    }
}

/// Writes a value, and tells whether it was written.
fn write<B: Steppable>(
    session: &mut Session<B>,
    method: Method,
    multiplexor: Multiplexor,
    value: &[u8],
    buffer: &mut [u8; LONGEST],
) -> bool
    requires { session.old.held ≡ None }
    ensures went { Went (OneTold is_written multiplexor (order.Write method value.now) result) (B.state session.old.bench) (B.state session.new.bench) }
    ensures ticket { session.new.held ≡ None }
{
    let _ = session.begin_write(method, multiplexor, value);
    was_written(carry_out(session, buffer, &mut Unwatched))
}

/// Tells whether a report says that the value was written.
fn was_written(report: Option<Report>) -> bool
    ensures { result ≡ reports is_written report }
{
    matches!(
        report,
        Some(Report {
            outcome: Outcome::Written,
        }),
    )
}

/// Reads an entry, and tells whether it was read.
fn read<B: Steppable>(
    session: &mut Session<B>,
    multiplexor: Multiplexor,
    buffer: &mut [u8; LONGEST],
) -> bool
    requires { session.old.held ≡ None }
    ensures went { Went (OneTold is_read multiplexor order.Read result) (B.state session.old.bench) (B.state session.new.bench) }
    ensures ticket { session.new.held ≡ None }
{
    let _ = session.begin_read(multiplexor);
    was_read(carry_out(session, buffer, &mut Unwatched))
}

/// Tells whether a report says that the entry was read.
fn was_read(report: Option<Report>) -> bool
    ensures { result ≡ reports is_read report }
{
    matches!(
        report,
        Some(Report {
            outcome: Outcome::Read { .. },
        }),
    )
}
