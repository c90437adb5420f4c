//! Commands read from lines.
use crate::bench_order::BenchOrder;
use crate::command::{Command, WriteOrder};
use crate::device::DeviceKind;
use crate::line_order::{LineKind, LineOrder};
use crate::misread::Misread;
use crate::numbers::{read_decimal, read_pattern};
use orders::{read_byte, read_method, read_multiplexor, without_return};
use std::alloc::Global;
use wire::{LONGEST, Multiplexor};

/// The most calls that one line can ask for.
const MOST_TIMES: u64 = 1000;

/// How many bytes a buffer has where its size is left out.
const USUAL_BUFFER: u16 = LONGEST as u16;

/// How a script names the ticket that it settles.
#[derive(Clone, Copy)]
pub enum Settling {
    /// It is the one that is held.
    Held,
    /// By its number, which is the first argument.
    ByNumber,
}

/// The command on a line, or none on a line to pass over; a `Misread` where the line is none, or for want of memory.
pub fn read_line(
    heap: Global,
    settling: Settling,
    line: &[u8],
) -> Result<Option<Command>, Misread> {
    if line.starts_with(b"#") {
        return Ok(None);
    }
    let words: Vec<&[u8]> = without_return(line)
        .split(|b| *b == b' ' || *b == b'\t')
        .filter(|word| !word.is_empty())
        .collect(heap)?;
    match words.split_first() {
        None => Ok(None),
        Some((name, arguments)) => Ok(Some(read_command(heap, settling, name, arguments)?)),
    }
}

/// The command with a name and some arguments.
fn read_command(
    heap: Global,
    settling: Settling,
    name: &[u8],
    arguments: &[&[u8]],
) -> Result<Command, Misread> {
    if let b"write" = name {
        return read_write(heap, arguments).map(Command::Write);
    }
    read_other(settling, name, arguments).ok_or(Misread::NotUnderstood)
}

/// The command, but for a write, with a name and some arguments.
fn read_other(settling: Settling, name: &[u8], arguments: &[&[u8]]) -> Option<Command> {
    match name {
        b"bench" => read_bench(arguments).map(Command::Bench),
        b"read" => read_read(arguments).map(Command::Read),
        b"serve" => read_times(arguments).map(Command::Serve),
        b"hear" => read_times(arguments).map(Command::Hear),
        b"tick" => read_times(arguments).map(Command::Tick),
        b"settle" => read_settle(settling, arguments),
        b"entries" if arguments.is_empty() => Some(Command::Entries),
        b"commits" if arguments.is_empty() => Some(Command::Commits),
        _ => None,
    }
}

/// What a bench is to be made of.
fn read_bench(arguments: &[&[u8]]) -> Option<BenchOrder> {
    let [node, block_size, line, device] = arguments else {
        return None;
    };
    Some(BenchOrder {
        node: u8::try_from(read_decimal(node)?).ok()?,
        block_size: u8::try_from(read_decimal(block_size)?).ok()?,
        line: read_line_order(line)?,
        device: DeviceKind::named(device)?,
    })
}

/// A line, with the pattern by which it loses frames or without.
fn read_line_order(word: &[u8]) -> Option<LineOrder> {
    let mut parts = word.splitn(2, |b| *b == b'+');
    let kind = LineKind::named(parts.next()?)?;
    let pattern = match parts.next() {
        Some(layer) => read_pattern(layer.strip_prefix(b"drop:")?)?,
        None => 0,
    };
    Some(LineOrder { kind, pattern })
}

/// What is to be written, how and where.
fn read_write(heap: Global, arguments: &[&[u8]]) -> Result<WriteOrder, Misread> {
    let [method, multiplexor, bytes @ ..] = arguments else {
        return Err(Misread::NotUnderstood);
    };
    let method = read_method(method).ok_or(Misread::NotUnderstood)?;
    let multiplexor = read_multiplexor(multiplexor).ok_or(Misread::NotUnderstood)?;
    let mut value = Vec::with_capacity(heap, bytes.len())?;
    for word in bytes {
        value.push(read_byte(word).ok_or(Misread::NotUnderstood)?)?;
    }
    Ok(WriteOrder {
        method,
        multiplexor,
        value,
    })
}

/// What the only argument names, to be read.
fn read_read(arguments: &[&[u8]]) -> Option<Multiplexor> {
    match arguments {
        [multiplexor] => read_multiplexor(multiplexor),
        _ => None,
    }
}

/// How many calls are to be made: one where nothing is said.
fn read_times(arguments: &[&[u8]]) -> Option<u64> {
    match arguments {
        [] => Some(1),
        [times] => read_decimal(times).filter(|times| 1 <= *times && *times <= MOST_TIMES),
        _ => None,
    }
}

/// A settle, by the ticket's number where a script names it.
fn read_settle(settling: Settling, arguments: &[&[u8]]) -> Option<Command> {
    match settling {
        Settling::Held => Some(Command::Settle {
            ticket: None,
            room: read_room(arguments)?,
        }),
        Settling::ByNumber => {
            let (ticket, rest) = arguments.split_first()?;
            Some(Command::Settle {
                ticket: Some(read_short(ticket)?),
                room: read_room(rest)?,
            })
        }
    }
}

/// The size of a buffer.
fn read_room(arguments: &[&[u8]]) -> Option<u16> {
    match arguments {
        [] => Some(USUAL_BUFFER),
        [size] => read_short(size),
        _ => None,
    }
}

/// A decimal number of 16 bits.
fn read_short(word: &[u8]) -> Option<u16> {
    u16::try_from(read_decimal(word)?).ok()
}
