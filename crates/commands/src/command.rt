//! What a line of a script can ask for.
use crate::bench_order::BenchOrder;
use master::Method;
use wire::Multiplexor;

/// A command; some are calls that are made so many times.
#[derive(Drop)]
pub enum Command {
    /// Make the bench.
    Bench(BenchOrder),
    Read(Multiplexor),
    Write(WriteOrder),
    Serve(u64),
    Hear(u64),
    Tick(u64),
    /// The ticket of a number, or the one that is held, with a buffer of so many bytes.
    Settle { ticket: Option<u16>, room: u16 },
    /// List the entries of the dictionary.
    Entries,
    /// Tell how many values the node has set.
    Commits,
}

/// A value to write, how and where.
#[derive(Drop)]
pub struct WriteOrder {
    pub method: Method,
    pub multiplexor: Multiplexor,
    pub value: Vec<u8>,
}
