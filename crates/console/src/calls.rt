//! The calls of a script, carried out and printed.
use crate::lines::{Lines, command_on};
use bench::Steppable;
use commands::{
    BegunText, BenchSession, Command, NotUnderstood, RecordedLine, SettledText, WriteOrder,
    heard_words, print_entries, served_words, tick_words,
};
use line::Recording;
use wire::{LONGEST, Multiplexor};

/// Carries out all calls of a script, and settles the ticket that is then held.
pub fn run_commands(
    rt: &HostRuntime,
    lines: Lines,
    mut session: BenchSession,
) -> anyhow::Result<()> {
    let run = run_lines(rt, lines, &mut session);
    let ended = end(rt, session);
    run?;
    ended
}

/// Carries out the calls of lines.
fn run_lines(rt: &HostRuntime, lines: Lines, session: &mut BenchSession) -> anyhow::Result<()> {
    for (number, line) in lines {
        if let Some(command) = command_on(rt, number, &line?)? {
            run_command(rt, number, session, command)?;
        }
    }
    Ok(())
}

/// Settles the ticket that is held at the end of a script, if one is.
fn end(rt: &HostRuntime, session: BenchSession) -> anyhow::Result<()> {
    let mut buffer = [0; LONGEST];
    let before = session.bench().line().sent();
    let (bench, report) = session.close(&mut buffer);
    if let Some(report) = report {
        let settled = SettledText {
            settled: Ok(report),
            buffer: &buffer,
        };
        println!(rt; "{settled}")?;
    }
    print_frames(rt, bench.line(), before)
}

/// Carries out the command on a line, and prints what came of it and the frames that were sent in it.
fn run_command(
    rt: &HostRuntime,
    number: u64,
    session: &mut BenchSession,
    command: Command,
) -> anyhow::Result<()> {
    match command {
        Command::Bench(_) => Ok(println!(rt; "{}", NotUnderstood(number))?),
        Command::Read(multiplexor) => read(rt, session, multiplexor),
        Command::Write(order) => write(rt, session, order),
        Command::Serve(times) => serve(rt, session, times),
        Command::Hear(times) => hear(rt, session, times),
        Command::Tick(times) => tick(rt, session, times),
        // A script of the console names no ticket: it settles the one that is held.
        Command::Settle { ticket: _, room } => settle(rt, session, usize::from(room)),
        Command::Entries => Ok(print_entries(rt, session.bench().dictionary())?),
        Command::Commits => print_commits(rt, session.bench().commits()),
    }
}

/// Begins a read.
fn read(
    rt: &HostRuntime,
    session: &mut BenchSession,
    multiplexor: Multiplexor,
) -> anyhow::Result<()> {
    let before = session.bench().line().sent();
    let begun = BegunText(session.begin_read(multiplexor));
    println!(rt; "{begun}")?;
    print_frames(rt, session.bench().line(), before)
}

/// Begins a write.
fn write(rt: &HostRuntime, session: &mut BenchSession, order: WriteOrder) -> anyhow::Result<()> {
    let before = session.bench().line().sent();
    let begun = BegunText(session.begin_write(order.method, order.multiplexor, &order.value));
    println!(rt; "{begun}")?;
    print_frames(rt, session.bench().line(), before)
}

/// Lets the node take frames, so many times.
fn serve(rt: &HostRuntime, session: &mut BenchSession, times: u64) -> anyhow::Result<()> {
    for _ in 0..times {
        let before = session.bench().line().sent();
        let words = served_words(session.serve());
        println!(rt; "serve: {words}")?;
        print_frames(rt, session.bench().line(), before)?;
    }
    Ok(())
}

/// Lets the master take frames, so many times.
fn hear(rt: &HostRuntime, session: &mut BenchSession, times: u64) -> anyhow::Result<()> {
    for _ in 0..times {
        let before = session.bench().line().sent();
        let words = heard_words(session.hear());
        println!(rt; "hear: {words}")?;
        print_frames(rt, session.bench().line(), before)?;
    }
    Ok(())
}

/// Lets ticks pass, so many.
fn tick(rt: &HostRuntime, session: &mut BenchSession, times: u64) -> anyhow::Result<()> {
    for _ in 0..times {
        let before = session.bench().line().sent();
        let words = tick_words(session.tick().ended);
        println!(rt; "tick: {words}")?;
        print_frames(rt, session.bench().line(), before)?;
    }
    Ok(())
}

/// Settles the ticket that is held, with a buffer of some size.
fn settle(rt: &HostRuntime, session: &mut BenchSession, size: usize) -> anyhow::Result<()> {
    let mut buffer = vec![in rt.alloc(); 0u8; size]?;
    let before = session.bench().line().sent();
    match session.settle(&mut buffer) {
        Some(settled) => {
            let buffer = &buffer;
            println!(rt; "{}", SettledText { settled, buffer })?;
        }
        None => println!(rt; "settle: no ticket")?,
    }
    print_frames(rt, session.bench().line(), before)
}

/// Prints how many values the node has set.
fn print_commits(rt: &HostRuntime, commits: u16) -> anyhow::Result<()> {
    println!(rt; "commits {commits}")?;
    Ok(())
}

/// Prints the frames that were sent on a line after so many others.
fn print_frames(rt: &HostRuntime, line: &RecordedLine, before: u64) -> anyhow::Result<()> {
    for sent in line.since(before) {
        let frame = sent.frame;
        println!(rt; "  {frame}")?;
    }
    Ok(())
}
