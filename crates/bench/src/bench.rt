//! A bench: one master and one node, what joins them, and the node's dictionary.
ghost use Rattle.std.specs.Prelude.{◌≡◌};
ghost use Rattle.bench.specs.Model.States.{fresh};
ghost use Rattle.bench.specs.Numbers.{nearest_number, nearest_size};
ghost use Rattle.bench.specs.States.{line_of, dictionary_of, state_of};

use crate::response::Ticked;
use crate::steppable::Steppable;
use crate::ticket::Ticket;
use beginning::start;
use dictionary::Writable;
use line::{End, Line};
use master::{BeginRefusal, Heard, Master, Method};
use node::{Node, Served};
use report::{Report, SettleRefusal};
use sdo::BlockSize;
use sending::{put_on_line, reply};
use settling::fill;
use wire::{LONGEST, Multiplexor, NodeNumber};

mod beginning;
mod sending;
mod settling;

/// A bench owns its line and its dictionary: nothing else reaches them.
#[derive(Drop)]
pub struct Bench<L: Line, D: Writable> {
    line: L,
    dictionary: D,
    master: Master,
    node: Node,
}

impl<L: Line, D: Writable> Bench<L, D> {
    /// A bench over a line, which is quieted, and a dictionary. The node's number and the block size are 1 to 127; another number counts as the nearer end.
    pub fn new(node: u8, block_size: u8, mut line: L, dictionary: D) -> Bench<L, D>
        ensures { state_of L.Line.shows D.Readable.meaning result ≡ fresh (D.Readable.meaning dictionary) (nearest_number node) (nearest_size block_size) }
    {
        line.quiet();
        let number = NodeNumber::nearest(node);
        Bench {
            line,
            dictionary,
            master: Master::new(number),
            node: Node::new(number, BlockSize::nearest(block_size)),
        }
    }
}

impl<L: Line, D: Writable> Steppable for Bench<L, D> {
    type Line = L;

    type Dictionary = D;

    ghost state = { state_of L.Line.shows D.Readable.meaning };

    ghost line = { line_of };

    ghost dictionary = { dictionary_of };

    fn line(&self) -> &L {
        &self.line
    }

    fn dictionary(&self) -> &D {
        &self.dictionary
    }

    fn commits(&self) -> u16 {
        self.node.commits()
    }

    #[tactic(auto, unfolding(crate::specs::Model::Calls::begin_step))]
    fn begin_read(&mut self, multiplexor: Multiplexor) -> Result<Ticket, BeginRefusal> {
        let begun = self.master.begin_read(multiplexor)?;
        Ok(start(&mut self.line, begun))
    }

    #[tactic(auto, unfolding(crate::specs::Model::Calls::begin_step))]
    fn begin_write(
        &mut self,
        method: Method,
        multiplexor: Multiplexor,
        value: &[u8],
    ) -> Result<Ticket, BeginRefusal> {
        let begun = self.master.begin_write(method, multiplexor, value)?;
        Ok(start(&mut self.line, begun))
    }

    #[tactic(auto, unfolding(crate::specs::Model::Calls::serve_step))]
    fn serve(&mut self) -> Served {
        let taken = self.line.take(End::Node);
        let reaction = self.node.serve(&mut self.dictionary, taken);
        reply(&mut self.line, reaction.reply);
        reaction.served
    }

    #[tactic(auto, unfolding(crate::specs::Model::Calls::hear_step))]
    fn hear(&mut self) -> Heard {
        let taken = self.line.take(End::Master);
        let hearing = self.master.hear(taken);
        put_on_line(&mut self.line, hearing.sending);
        hearing.heard
    }

    #[tactic(auto, unfolding(crate::specs::Model::Calls::tick_step))]
    fn tick(&mut self) -> Ticked {
        let tick = self.master.tick();
        let ended = tick.ended;
        put_on_line(&mut self.line, tick.sending);
        let abort = self.node.tick();
        reply(&mut self.line, abort);
        Ticked { ended }
    }

    #[tactic(auto, unfolding(crate::specs::Model::Calls::settle_step))]
    fn settle(
        &mut self,
        ticket: Ticket,
        buffer: &mut [u8],
    ) -> Result<Report, (Ticket, SettleRefusal)> {
        if self.master.uncleared() != Some(ticket.number()) {
            return Err((ticket, SettleRefusal::NotOut));
        }
        if buffer.len() < LONGEST {
            return Err((ticket, SettleRefusal::ShortBuffer));
        }
        ticket.take_back();
        let sending = self.master.give_up();
        put_on_line(&mut self.line, sending);
        // Over by now: the ticket was out, and what was open is given up.
        let report = self.report().unwrap();
        fill(buffer, report, self.master.value());
        self.master.clear();
        Ok(report)
    }
}
