//! Scripts, each run as one list of calls on a bench of its own.
use crate::answers::print_items;
use crate::calls::calls_of;
use crate::script::Script;
use bench::{Response, Steppable, run_calls};
use commands::{BenchSession, RecordedLine, print_entries};
use crc::checksum;
use line::{Recording, Sent};
use std::alloc::{AllocError, Global};
use wire::LONGEST;

/// How many frames the check value of a script is over, the last that were sent; all of them where there are fewer.
const CHECKED: u64 = 256;

/// Runs a script, and prints what comes of it.
pub fn run_script(rt: &HostRuntime, script: &Script) -> anyhow::Result<()> {
    let calls = calls_of(rt.alloc(), &script.items)?;
    let answers = Vec::with_capacity(rt.alloc(), calls.len())?;
    let order = script.order;
    let line = order.line.line();
    let device = order.device.device();
    let (session, answers) = run_calls(
        order.node,
        order.block_size,
        line,
        device,
        &calls,
        answers,
    ).map_err(|_| AllocError)?;
    let printed = print_ran(rt, script, &session, &answers);
    let _ = session.close(&mut [0; LONGEST]);
    printed
}

/// Prints what the calls of a script answer, and how it leaves its bench.
fn print_ran(
    rt: &HostRuntime,
    script: &Script,
    session: &BenchSession,
    answers: &[Response],
) -> anyhow::Result<()> {
    let bench = session.bench();
    print_items(rt, &script.items, answers)?;
    print_frames(rt, bench.line())?;
    print_entries(rt, bench.dictionary())?;
    let commits = bench.commits();
    println!(rt; "commits {commits}")?;
    Ok(())
}

/// Prints how many frames were sent, and the check value of the last ones.
fn print_frames(rt: &HostRuntime, line: &RecordedLine) -> anyhow::Result<()> {
    let count = line.sent();
    let last = line.since(count.saturating_sub(CHECKED));
    let bytes = bytes_of(rt.alloc(), last)?;
    let crc = checksum(&bytes);
    println!(rt; "frames {count} crc {crc:04X}")?;
    Ok(())
}

/// The bytes of frames, of each its identifier, the low byte first, and then its eight.
fn bytes_of(heap: Global, frames: &[Sent]) -> Result<Vec<u8>, AllocError> {
    let mut bytes = Vec::new(heap);
    for sent in frames {
        let identifier = sent.frame.identifier.number();
        bytes.extend_from_slice(&identifier.to_le_bytes())?;
        bytes.extend_from_slice(&sent.frame.bytes)?;
    }
    Ok(bytes)
}
