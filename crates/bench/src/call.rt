//! The calls of a bench, as a program stores them.
use master::Method;
use wire::Multiplexor;

/// One call of a bench, with its arguments.
#[derive(Clone, Copy)]
pub enum Call<'a> {
    /// Begins a read.
    BeginRead {
        multiplexor: Multiplexor,
    },
    /// Begins a write of a value.
    BeginWrite {
        method: Method,
        multiplexor: Multiplexor,
        value: &'a [u8],
    },
    /// Lets the node take one frame.
    Serve,
    /// Lets the master take one frame.
    Hear,
    /// Lets a tick pass.
    Tick,
    /// Settles the ticket of a number, which may be any, with a buffer of so many bytes of 0.
    Settle {
        ticket: u16,
        room: u16,
    },
}
