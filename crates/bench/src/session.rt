//! A bench, and the ticket of it that is held.
ghost use Rattle.std.specs.Prelude.{◌≡◌, ◌≤◌, Bool, List, [], None, Some, Ok, Err, IfErr, length};
ghost use Rattle.std.specs.Option.{option_map};
ghost use Rattle.master.specs.States.{uncleared};
ghost use Rattle.master.specs.Calls.{Read, Write};
ghost use Rattle.report.specs.declared.refusal.SettleRefusal.{SettleRefusal};
ghost use Rattle.bench.specs.Model.States.{fresh};
ghost use Rattle.bench.specs.Model.Calls.{begin_answer, begin_frames, begin_step, serve_answer, serve_step, hear_answer, hear_frames, hear_step, tick_answer, tick_frames, tick_step};
ghost use Rattle.bench.specs.Law.Runs.{Begin, Serve, Hear, Tick};
ghost use Rattle.bench.specs.Law.Law.{KeepsLaw};
ghost use Rattle.bench.specs.Numbers.{nearest_number, nearest_size};
ghost use Rattle.bench.specs.States.{state_of};
ghost use Rattle.bench.specs.Tickets.{SettlesHeld};

use crate::bench::Bench;
use crate::response::Ticked;
use crate::steppable::Steppable;
use crate::ticket::Ticket;
use dictionary::Writable;
use line::Line;
use master::{BeginRefusal, Heard, Method};
use node::Served;
use report::{Report, SettleRefusal};
use wire::{LONGEST, Multiplexor};

mod acting;
mod reading;

/// A bench with the ticket that is out, if one is, for programs that hold one ticket at a time.
/// It has no `Drop`: a ticket that is held has to be settled.
pub struct Session<B: Steppable> {
    bench: B,
    held: Option<Ticket>,
    ghost own: { held ≡ uncleared (B.state bench).master },
}

impl<L: Line, D: Writable> Session<Bench<L, D>> {
    /// A new bench, of which no ticket is out.
    pub fn new(node: u8, block_size: u8, line: L, dictionary: D) -> Session<Bench<L, D>>
        ensures bench { state_of L.Line.shows D.Readable.meaning result.bench ≡ fresh (D.Readable.meaning dictionary) (nearest_number node) (nearest_size block_size) }
        ensures ticket { result.held ≡ None }
    {
        Session {
            bench: Bench::new(node, block_size, line, dictionary),
            held: None,
        }
    }
}

impl<B: Steppable> Session<B> {
    /// The bench, to be asked and not called.
    pub fn bench(&self) -> &B
        ensures { result.now ≡ self.now.bench }
    {
        &self.bench
    }

    /// The number of the ticket that is held, if one is.
    pub fn ticket(&self) -> Option<u16>
        ensures { result ≡ self.now.held }
    {
        self.held.as_ref().map(|ticket| ticket.number())
    }

    /// Begins a read, keeps its ticket and tells its number; or says why not, by 1 to 3.
    pub fn begin_read(&mut self, multiplexor: Multiplexor) -> Result<u16, BeginRefusal>
        ensures answer { result ≡ begin_answer multiplexor Read (B.state self.old.bench) }
        ensures after { (ls : List Bool) × (B.state self.new.bench ≡ begin_step multiplexor Read ls (B.state self.old.bench)) }
        ensures dictionary { B.dictionary self.new.bench ≡ B.dictionary self.old.bench }
        ensures refused { IfErr result (λ refusal. self.new.bench ≡ self.old.bench) }
        ensures law { KeepsLaw (Begin multiplexor Read result) (begin_frames multiplexor Read (B.state self.old.bench)) (B.state self.old.bench) (B.state self.new.bench) }
    {
        let ticket = self.bench.begin_read(multiplexor)?;
        Ok(hold(&mut self.held, ticket))
    }

    /// Begins a write, keeps its ticket and tells its number; or says why not, by 1 to 3, by 4 unless the value has 1 to 1,024 bytes,
    /// and expedited by 5 above four bytes.
    pub fn begin_write(
        &mut self,
        method: Method,
        multiplexor: Multiplexor,
        value: &[u8],
    ) -> Result<u16, BeginRefusal>
        ensures answer { result ≡ begin_answer multiplexor (Write method value.now) (B.state self.old.bench) }
        ensures after { (ls : List Bool) × (B.state self.new.bench ≡ begin_step multiplexor (Write method value.now) ls (B.state self.old.bench)) }
        ensures dictionary { B.dictionary self.new.bench ≡ B.dictionary self.old.bench }
        ensures refused { IfErr result (λ refusal. self.new.bench ≡ self.old.bench) }
        ensures law { KeepsLaw (Begin multiplexor (Write method value.now) result) (begin_frames multiplexor (Write method value.now) (B.state self.old.bench)) (B.state self.old.bench) (B.state self.new.bench) }
    {
        let ticket = self.bench.begin_write(method, multiplexor, value)?;
        Ok(hold(&mut self.held, ticket))
    }

    /// Lets the node take a frame.
    pub fn serve(&mut self) -> Served
        ensures answer { result ≡ serve_answer (B.state self.old.bench) }
        ensures after { (lost : Bool) × (B.state self.new.bench ≡ serve_step lost (B.state self.old.bench)) }
        ensures law { KeepsLaw (Serve result) [] (B.state self.old.bench) (B.state self.new.bench) }
    {
        self.bench.serve()
    }

    /// Lets the master take a frame.
    pub fn hear(&mut self) -> Heard
        ensures answer { result ≡ hear_answer (B.state self.old.bench) }
        ensures after { (ls : List Bool) × (B.state self.new.bench ≡ hear_step ls (B.state self.old.bench)) }
        ensures dictionary { B.dictionary self.new.bench ≡ B.dictionary self.old.bench }
        ensures law { KeepsLaw (Hear result) (hear_frames (B.state self.old.bench)) (B.state self.old.bench) (B.state self.new.bench) }
    {
        self.bench.hear()
    }

    /// Lets a tick pass.
    pub fn tick(&mut self) -> Ticked
        ensures answer { result ≡ tick_answer (B.state self.old.bench) }
        ensures after { (ls : List Bool) × (lost : Bool) × (B.state self.new.bench ≡ tick_step ls lost (B.state self.old.bench)) }
        ensures dictionary { B.dictionary self.new.bench ≡ B.dictionary self.old.bench }
        ensures law { KeepsLaw (Tick result) (tick_frames (B.state self.old.bench)) (B.state self.old.bench) (B.state self.new.bench) }
    {
        self.bench.tick()
    }

    /// Settles the ticket that is held, if one is. It is refused by 7 where the buffer has fewer than 1,024 bytes, and then held on.
    pub fn settle(&mut self, buffer: &mut [u8]) -> Option<Result<Report, SettleRefusal>>
        ensures settled { SettlesHeld self.old.held result buffer.old buffer.new (B.state self.old.bench) (B.state self.new.bench) }
        ensures ticket { 1024 ≤ length buffer.old → self.new.held ≡ None }
        ensures dictionary { B.dictionary self.new.bench ≡ B.dictionary self.old.bench }
        ensures refused { (refusal : SettleRefusal) → result ≡ Some (Err refusal) → self.new.bench ≡ self.old.bench }
    {
        let ticket = self.held.take()?;
        match self.bench.settle(ticket, buffer) {
            Ok(report) => Some(Ok(report)),
            Err((ticket, refusal)) => {
                hold(&mut self.held, ticket);
                Some(Err(refusal))
            }
        }
    }

    /// Settles the ticket that is held, if one is, and hands the bench out.
    pub fn close(self, buffer: &mut [u8; LONGEST]) -> (B, Option<Report>)
        ensures settled { SettlesHeld self.held (option_map (λ report. Ok report) result.1) buffer.old buffer.new (B.state self.bench) (B.state result.0) }
        ensures dictionary { B.dictionary result.0 ≡ B.dictionary self.bench }
    {
        let Session { mut bench, held } = self;
        let report = match held {
            Some(ticket) => match bench.settle(ticket, buffer) {
                Ok(report) => Some(report),
                Err(_) => unreachable!(),
            },
            None => None,
        };
        (bench, report)
    }
}

/// Holds a ticket where none is held, and tells its number.
fn hold(held: &mut Option<Ticket>, ticket: Ticket) -> u16
    requires { held.old ≡ None }
    ensures number { result ≡ ticket }
    ensures after { held.new ≡ Some ticket }
{
    let number = ticket.number();
    match held.replace(ticket) {
        None => number,
        Some(_) => unreachable!(),
    }
}
