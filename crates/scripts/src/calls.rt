//! The calls of a bench that the lines of a script make.
use crate::script::Item;
use bench::Call;
use commands::{Command, WriteOrder};
use std::alloc::{AllocError, Global};

/// One call, made so many times.
#[derive(Clone, Copy)]
pub struct Repeated<'a> {
    pub call: Call<'a>,
    pub times: u64,
}

/// The calls of all lines, in their order.
pub fn calls_of<'a>(heap: Global, items: &'a [Item]) -> Result<Vec<Call<'a>>, AllocError> {
    let mut calls = Vec::new(heap);
    for item in items {
        if let Some(repeated) = item.repeated() {
            for _ in 0..repeated.times {
                calls.push(repeated.call)?;
            }
        }
    }
    Ok(calls)
}

/// The call that a command asks for; none where it asks for none of a bench that is there: for entries, for commits, for a bench,
/// and to settle a ticket without a number.
pub fn repeated_call(command: &Command) -> Option<Repeated> {
    match command {
        Command::Read(multiplexor) => Some(once(Call::BeginRead {
            multiplexor: *multiplexor,
        })),
        Command::Write(order) => Some(once(write_call(order))),
        Command::Serve(times) => Some(Repeated {
            call: Call::Serve,
            times: *times,
        }),
        Command::Hear(times) => Some(Repeated {
            call: Call::Hear,
            times: *times,
        }),
        Command::Tick(times) => Some(Repeated {
            call: Call::Tick,
            times: *times,
        }),
        Command::Settle { ticket, room } => Some(once(Call::Settle {
            ticket: (*ticket)?,
            room: *room,
        })),
        Command::Bench(_) | Command::Entries | Command::Commits => None,
    }
}

/// A call that is made once.
fn once(call: Call) -> Repeated {
    Repeated { call, times: 1 }
}

/// The begin of a write.
fn write_call(order: &WriteOrder) -> Call {
    Call::BeginWrite {
        method: order.method,
        multiplexor: order.multiplexor,
        value: &order.value,
    }
}
