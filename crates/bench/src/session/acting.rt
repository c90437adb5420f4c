//! One call of a list.
ghost use Rattle.std.specs.Prelude.{◌≡◌, ◌≤◌, ℕ, List, length, replicate};
ghost use Rattle.bench.specs.Law.Runs.{Event, Happens};
ghost use Rattle.bench.specs.Answers.{IsAct, IsSettle};

use super::Session;
use super::reading::read_bytes;
use crate::call::Call;
use crate::response::Response;
use crate::steppable::Steppable;
use crate::ticket::Ticket;
use arrayvec::ArrayVec;
use wire::LONGEST;

impl<B: Steppable> Session<B> {
    /// Makes one call.
    pub(crate) fn act(&mut self, call: Call) -> Response
        ensures { (e : Event) × IsAct call.entry result e.act × Happens e (B.state self.old.bench) (B.state self.new.bench) }
    {
        match call {
            Call::BeginRead { multiplexor } => Response::Begun(self.begin_read(multiplexor)),
            Call::BeginWrite {
                method,
                multiplexor,
                value,
            } => Response::Begun(self.begin_write(method, multiplexor, value)),
            Call::Serve => Response::Served(self.serve()),
            Call::Hear => Response::Heard(self.hear()),
            Call::Tick => Response::Ticked(self.tick()),
            Call::Settle { ticket, room } => self.settle_with_room(ticket, room),
        }
    }

    /// Settles the ticket of a number, with a buffer of so many bytes of 0; more than a value has at most would stay as they are.
    fn settle_with_room(&mut self, number: u16, room: u16) -> Response
        ensures { (e : Event) × IsSettle number (replicate room 0) result e.act × Happens e (B.state self.old.bench) (B.state self.new.bench) }
    {
        let length = usize::from(room).min(LONGEST);
        self.settle_number(number, &mut [0; LONGEST][..length])
    }

    /// Settles the ticket of a number.
    fn settle_number(&mut self, number: u16, buffer: &mut [u8]) -> Response
        ensures { (e : Event) × IsSettle number buffer.old result e.act × Happens e (B.state self.old.bench) (B.state self.new.bench) }
    {
        match self.bench.settle(Ticket::new(number), buffer) {
            Ok(report) => {
                if let Some(ticket) = self.held.take() {
                    ticket.take_back();
                }
                let read = read_bytes(report, buffer);
                let report = Ok(report);
                Response::Settled { report, read }
            }
            Err((ticket, refusal)) => {
                ticket.take_back();
                let report = Err(refusal);
                let read = ArrayVec::new();
                Response::Settled { report, read }
            }
        }
    }
}
