//! Orders carried out over a bench, one after the other.
use crate::trace::Trace;
use anyhow::{Context, anyhow};
use bench::Steppable;
use commands::{BenchOrder, BenchSession};
use master::BeginRefusal;
use orders::Order;
use report::Report;
use rounds::carry_out;
use wire::LONGEST;

/// A bench, whose frames are written down where a trace is asked for. It has no `Drop`, as the session in it.
pub struct Loading {
    session: BenchSession,
    trace: Trace,
}

impl Loading {
    /// A new bench.
    pub fn new(bench: BenchOrder, trace: Trace) -> Loading {
        let session = bench.session();
        Loading { session, trace }
    }

    /// How many values the node has set, modulo 65,536.
    pub fn commits(&self) -> u16 {
        self.session.bench().commits()
    }

    /// Carries out an order, and tells what became of it.
    pub fn carry_out(&mut self, order: &Order) -> anyhow::Result<Report> {
        self.session
            .begin_write(order.method, order.multiplexor, &order.value)
            .map_err(begin_error)?;
        let report = carry_out(&mut self.session, &mut [0; LONGEST], &mut self.trace);
        self.trace
            .add_sent(self.session.bench().line())
            .context("the trace cannot be written")?;
        report.context("no transfer is there to be settled")
    }

    /// Lets the bench go, and puts the trace into its file.
    pub fn end(self) -> anyhow::Result<()> {
        let Loading { session, trace } = self;
        let _ = session.close(&mut [0; LONGEST]);
        trace.end().context("the trace cannot be written")
    }
}

/// A transfer that was not begun, as an error.
fn begin_error(refusal: BeginRefusal) -> anyhow::Error {
    let number = u8::from(refusal);
    anyhow!("the master did not begin a transfer: refusal {number}")
}
