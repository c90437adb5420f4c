//! What every bench promises of its calls.
ghost use Rattle.std.specs.Prelude.{◌≡◌, ◌≤◌, ℕ, Bool, List, [], IfOk, IfErr};
ghost use Rattle.master.specs.Calls.{Read, Write};
ghost use Rattle.bench.specs.Model.States.{State};
ghost use Rattle.bench.specs.Model.Calls.{begin_answer, begin_frames, begin_step, serve_answer, serve_step, hear_answer, hear_frames, hear_step, tick_answer, tick_frames, tick_step, settle_answer, settle_buffer, settle_frames, settle_step};
ghost use Rattle.bench.specs.Law.Runs.{Begin, Serve, Hear, Tick, Settle};
ghost use Rattle.bench.specs.Law.Law.{KeepsLaw};
ghost use Rattle.bench.specs.Tickets.{without_ticket};

use crate::response::Ticked;
use crate::ticket::Ticket;
use dictionary::Writable;
use line::Line;
use master::{BeginRefusal, Heard, Method};
use node::Served;
use report::{Outcome, Report, SettleRefusal};
use wire::Multiplexor;

/// What is stepped by the calls of a bench. Of each is promised what it answers, the state after it but for which frames the line loses,
/// and that the law of a bench holds with it; where it sets no value, that the dictionary stays; and that a refusal changes nothing.
pub trait Steppable {
    type Line: Line;

    type Dictionary: Writable;

    // the state that it is in, the line and the dictionary that it holds
    ghost state: { Self → State };

    ghost line: { Self → Self.Line };

    ghost dictionary: { Self → Self.Dictionary };

    /// The line.
    fn line(&self) -> &Self::Line
        ensures itself { result.now ≡ line self.now }
        ensures shown { Self.Line.Line.shows result.now ≡ (state self.now).line };

    /// The dictionary.
    fn dictionary(&self) -> &Self::Dictionary
        ensures itself { result.now ≡ dictionary self.now }
        ensures meant { Self.Dictionary.Readable.meaning result.now ≡ (state self.now).dictionary };

    /// How many values the node has set, modulo 65,536.
    fn commits(&self) -> u16
        ensures { result ≡ (state self.now).node.commits };

    /// Begins a read, or says why not. It is refused by 1 where a ticket is out, by 2 while the master rests, by 3 after 65,535 transfers.
    fn begin_read(&mut self, multiplexor: Multiplexor) -> Result<Ticket, BeginRefusal>
        ensures answer { result ≡ begin_answer multiplexor Read (state self.old) }
        ensures after { (ls : List Bool) × (state self.new ≡ begin_step multiplexor Read ls (state self.old)) }
        ensures dictionary { dictionary self.new ≡ dictionary self.old }
        ensures refused { IfErr result (λ refusal. self.new ≡ self.old) }
        ensures law { KeepsLaw (Begin multiplexor Read result) (begin_frames multiplexor Read (state self.old)) (state self.old) (state self.new) };

    /// Begins a write of a value, or says why not. It is refused as a read is, then by 4 unless the value has 1 to 1,024 bytes,
    /// and expedited by 5 above four bytes.
    fn begin_write(
        &mut self,
        method: Method,
        multiplexor: Multiplexor,
        value: &[u8],
    ) -> Result<Ticket, BeginRefusal>
        ensures answer { result ≡ begin_answer multiplexor (Write method value.now) (state self.old) }
        ensures after { (ls : List Bool) × (state self.new ≡ begin_step multiplexor (Write method value.now) ls (state self.old)) }
        ensures dictionary { dictionary self.new ≡ dictionary self.old }
        ensures refused { IfErr result (λ refusal. self.new ≡ self.old) }
        ensures law { KeepsLaw (Begin multiplexor (Write method value.now) result) (begin_frames multiplexor (Write method value.now) (state self.old)) (state self.old) (state self.new) };

    /// Lets the node take one frame and answer it.
    fn serve(&mut self) -> Served
        ensures answer { result ≡ serve_answer (state self.old) }
        ensures after { (lost : Bool) × (state self.new ≡ serve_step lost (state self.old)) }
        ensures law { KeepsLaw (Serve result) [] (state self.old) (state self.new) };

    /// Lets the master take one frame and send what it then has to.
    fn hear(&mut self) -> Heard
        ensures answer { result ≡ hear_answer (state self.old) }
        ensures after { (ls : List Bool) × (state self.new ≡ hear_step ls (state self.old)) }
        ensures dictionary { dictionary self.new ≡ dictionary self.old }
        ensures law { KeepsLaw (Hear result) (hear_frames (state self.old)) (state self.old) (state self.new) };

    /// Lets a tick pass, for the master and then for the node, and tells what came of it.
    fn tick(&mut self) -> Ticked
        ensures answer { result ≡ tick_answer (state self.old) }
        ensures after { (ls : List Bool) × (lost : Bool) × (state self.new ≡ tick_step ls lost (state self.old)) }
        ensures dictionary { dictionary self.new ≡ dictionary self.old }
        ensures law { KeepsLaw (Tick result) (tick_frames (state self.old)) (state self.old) (state self.new) };

    /// Takes a ticket back and tells what became of its transfer; one that is open is given up. The bytes of a read, 1,024 at most, go to the buffer's front.
    /// It is refused by 6 where the ticket is not the one that is out, and by 7 where the buffer has fewer than 1,024 bytes.
    /// A ticket that is refused comes back, and nothing changes.
    fn settle(
        &mut self,
        ticket: Ticket,
        buffer: &mut [u8],
    ) -> Result<Report, (Ticket, SettleRefusal)>
        ensures answer { without_ticket result ≡ settle_answer ticket buffer.old (state self.old) }
        ensures returned { IfErr result (λ refused. refused.0 ≡ ticket) }
        ensures buffer { buffer.new ≡ settle_buffer ticket buffer.old (state self.old) }
        ensures length { IfOk result (λ report. (n : ℕ) → report.outcome ≡ Outcome.Read n → n ≤ 1024) }
        ensures after { (ls : List Bool) × (state self.new ≡ settle_step ticket buffer.old ls (state self.old)) }
        ensures dictionary { dictionary self.new ≡ dictionary self.old }
        ensures refused { IfErr result (λ refused. self.new ≡ self.old) }
        ensures law { KeepsLaw (Settle ticket buffer.old (without_ticket result) buffer.new) (settle_frames ticket buffer.old (state self.old)) (state self.old) (state self.new) };
}
