//! What the calls of a bench answer.
use arrayvec::ArrayVec;
use master::{BeginRefusal, Heard};
use node::Served;
use report::{Report, SettleRefusal};
use wire::LONGEST;

/// What came of a tick.
#[derive(Clone, Copy, PartialEq, Eq, Debug)]
pub struct Ticked {
    /// Whether it ended the transfer.
    pub ended: bool,
}

/// The answer to one call.
#[derive(Drop)]
pub enum Response {
    /// To the begin of a read or a write: the number of its ticket.
    Begun(Result<u16, BeginRefusal>),
    /// To a serve.
    Served(Served),
    /// To a hear.
    Heard(Heard),
    /// To a tick.
    Ticked(Ticked),
    /// To a settle; `read` has the bytes that a read has put into the buffer.
    Settled {
        report: Result<Report, SettleRefusal>,
        read: ArrayVec<u8, LONGEST>,
    },
}
