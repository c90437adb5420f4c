//! The sheet of a load: a row for each order, and how many came out how.
use crate::loading::Loading;
use commands::BenchOrder;
use orders::{HexBytes, Order, method_word};
use register::Layer;
use report::{Failure, Outcome};
use std::alloc::{AllocError, Global};

/// The most bytes of a value that stand in a row in full.
const IN_FULL: usize = 8;

/// How many bytes of a longer value stand in a row.
const FRONT: usize = 6;

/// How many orders came out how.
#[derive(Clone, Copy)]
struct Counts {
    written: usize,
    unwritten: usize,
    undecided: usize,
}

/// Carries out all orders, and prints what became of them.
pub fn print_sheet(
    rt: &HostRuntime,
    bench: BenchOrder,
    loading: &mut Loading,
    orders: &[Order],
) -> anyhow::Result<()> {
    print_head(rt, bench)?;
    let counts = print_rows(rt, loading, orders)?;
    print_counts(rt, &counts, loading.commits())
}

/// Prints what the orders are loaded to, and the names of the columns.
fn print_head(rt: &HostRuntime, bench: BenchOrder) -> anyhow::Result<()> {
    let node = bench.node;
    let block_size = bench.block_size;
    let device = bench.device;
    let line = bench.line.kind;
    print!(rt; "Node {node}, device {device}, block size {block_size}, line {line}")?;
    if bench.line.pattern != 0 {
        let pattern = bench.line.pattern;
        print!(rt; ", drop {pattern:016X}")?;
    }
    println!(rt; "\n")?;
    println!(rt;
        "{:>5}  {:<7}  {:<9}  {:>5}  {:<23}  {:<9}  {:>7}  {:<12}  {:<9}  {}",
        "Order",
        "Entry",
        "Transfer",
        "Bytes",
        "Value",
        "Report",
        "Segment",
        "Layer",
        "Code",
        "Words"
    )?;
    Ok(())
}

/// Carries out all orders, prints a row for each, and counts how they came out.
fn print_rows(rt: &HostRuntime, loading: &mut Loading, orders: &[Order]) -> anyhow::Result<Counts> {
    let mut counts = Counts {
        written: 0,
        unwritten: 0,
        undecided: 0,
    };
    for (number, order) in (1usize..).zip(orders) {
        let outcome = loading.carry_out(order)?.outcome;
        counts.add(outcome);
        print_order(rt, number, order)?;
        print_outcome(rt, outcome)?;
    }
    Ok(counts)
}

/// Prints the front of a row: what was ordered.
fn print_order(rt: &HostRuntime, number: usize, order: &Order) -> anyhow::Result<()> {
    let multiplexor = order.multiplexor;
    let method = method_word(order.method);
    let bytes = order.value.len();
    let value = value_words(rt.alloc(), &order.value)?;
    print!(rt; "{number:>5}  {multiplexor}  {method:<9}  {bytes:>5}  {value:<23}  ")?;
    Ok(())
}

/// Prints the end of a row: what became of the order.
fn print_outcome(rt: &HostRuntime, outcome: Outcome) -> anyhow::Result<()> {
    match outcome {
        Outcome::Written => println!(rt; "Written")?,
        // A write is never told of in the words of a read.
        Outcome::Read { .. } => println!(rt; "Read")?,
        Outcome::Unwritten(failure) => print_failure(rt, "Unwritten", failure)?,
        Outcome::Undecided(failure) => print_failure(rt, "Undecided", failure)?,
        Outcome::Unread(failure) => print_failure(rt, "Unread", failure)?,
    }
    Ok(())
}

/// Prints that an order failed, how far it was, and why.
fn print_failure(rt: &HostRuntime, report: &str, failure: Failure) -> anyhow::Result<()> {
    let segment = failure.segment;
    let layer = layer_words(failure.layer);
    let code = failure.code;
    let words = code.words();
    println!(rt; "{report:<9}  {segment:>7}  {layer:<12}  {code}  {words}")?;
    Ok(())
}

/// Prints how many orders came out how, and how many values the node says that it has set.
fn print_counts(rt: &HostRuntime, counts: &Counts, commits: u16) -> anyhow::Result<()> {
    let written = counts.written;
    let unwritten = counts.unwritten;
    let undecided = counts.undecided;
    println!(rt; "\nWritten {written}, Unwritten {unwritten}, Undecided {undecided}")?;
    println!(rt; "Values set by the node: {commits}")?;
    Ok(())
}

impl Counts {
    /// Counts one more order.
    fn add(&mut self, outcome: Outcome) {
        let count = match outcome {
            Outcome::Written | Outcome::Read { .. } => &mut self.written,
            Outcome::Unwritten(_) | Outcome::Unread(_) => &mut self.unwritten,
            Outcome::Undecided(_) => &mut self.undecided,
        };
        *count = count.saturating_add(1);
    }
}

/// A short value in full, or the front of a long one.
fn value_words(heap: Global, value: &[u8]) -> Result<String, AllocError> {
    if value.len() <= IN_FULL {
        let value = HexBytes(value);
        format!(in heap; "{value}")
    } else {
        let front = HexBytes(&value[..FRONT]);
        format!(in heap; "{front} ..")
    }
}

fn layer_words(layer: Layer) -> &'static str {
    match layer {
        Layer::Master => "1 master",
        Layer::Protocol => "2 protocol",
        Layer::Dictionary => "3 dictionary",
    }
}
