//! Loads orders into a node, and prints what became of each.
#![tactic(auto)]

mod loading;
mod options;
mod sheet;
mod trace;
mod valued;
mod values;

use anyhow::{Context, bail, ensure};
use loading::Loading;
use master::MOST_TRANSFERS;
use options::Options;
use orders::{Order, read_orders};
use sheet::print_sheet;
use std::io::Read;
use std::process::ExitCode;
use std::{env, fs};
use trace::Trace;

const HELP: &str = "Loads orders into a node, and prints a sheet of what became of each.

usage: loader [OPTIONS] [FILE]

The orders are read from FILE, or from standard input where FILE is - or left
out.

    --device sample|drive  the node's dictionary; without it sample
    --line memory|mailbox  what joins master and node: a line with room for 130
                           frames each way, or for one; without it memory
    --drop HEX16           lose each frame for which the bit of this pattern of
                           exactly 16 hex digits is 1, from the lowest bit up
                           and round; without it none
    --node N               the node's number, 1 to 127; without it 5
    --block N              how many segments the node takes in a sub-block of a
                           block transfer, 1 to 127; without it 127
    --trace FILE           write every frame that either end sent to FILE, as a
                           candump log in which each tick is a second
    --help, -h             print this help, and load nothing

The sample is a table with a device type, a name, a value of two bytes and one
of up to 1,024. The drive has 6060:00, the mode of operation, one byte: 1, 3 or
6; and 6083:00, the profile acceleration, four bytes: 1 to 1,000,000.

An order is a line of text: the index in four hex digits, a colon, the subindex
in two, then 1 to 1,024 bytes in two hex digits each. Before it may stand how it
is written: expedited (up to 4 bytes), segmented or block. Where none of these
stands, up to 4 bytes go expedited, up to 56 in segments, more by block.

    2000:01 E8 03
    block 2001:00 6C 6F 61 64

Blank lines and lines that start with # are passed over. All lines are read
before the first order is begun: if one is no order, it is named with its number
and the reason, nothing is loaded, and the program ends with status 1.

Of each order the sheet says that it is Written; or Unwritten, the value was not
set; or Undecided, it was set once and wholly, or not at all. For the last two
it tells how far the value was, which layer failed, the abort code and its
words. A finished sheet ends with status 0.";

fn main(rt: HostRuntime) -> anyhow::Result<ExitCode> {
    match run(&rt) {
        Ok(()) => Ok(ExitCode::SUCCESS),
        Err(error) => {
            eprintln!(rt; "loader: {error:#}")?;
            Ok(ExitCode::FAILURE)
        }
    }
}

fn run(rt: &HostRuntime) -> anyhow::Result<()> {
    let all = env::args(rt).context("the arguments cannot be read")?;
    let arguments: Vec<String> = all.skip(1).collect(rt.alloc())?;
    let words: Vec<&str> = arguments.iter().map(|a| a.as_str()).collect(rt.alloc())?;
    let options = Options::asked(&words)?;
    if options.help {
        rt.println(HELP)?;
        return Ok(());
    }
    load_orders(rt, options)
}

/// Reads all orders, and then loads them.
fn load_orders(rt: &HostRuntime, options: Options<'_>) -> anyhow::Result<()> {
    let text = read_text(rt, options.orders)?;
    let orders = orders_of(rt, &text)?;
    ensure!(
        orders.len() <= usize::from(MOST_TRANSFERS),
        "more than {MOST_TRANSFERS} orders, so nothing was loaded"
    );
    let trace = match options.trace {
        Some(path) => {
            ensure!(
                options.orders != Some(path),
                "the trace would take the place of the orders in {path}"
            );
            let trace = Trace::create(rt, path);
            trace.context(format_args!("the trace cannot be written to {path}"))?
        }
        None => Trace::none(),
    };
    let mut loading = Loading::new(options.bench, trace);
    let printed = print_sheet(rt, options.bench, &mut loading, &orders);
    let ended = loading.end();
    printed?;
    ended
}

/// The text of the orders: that of a file, or of standard input.
fn read_text(rt: &HostRuntime, path: Option<&str>) -> anyhow::Result<Vec<u8>> {
    match path {
        None | Some("-") => {
            let mut text = Vec::new(rt.alloc());
            rt.stdin()
                .read_to_end(&mut text)
                .context("the orders cannot be read")?;
            Ok(text)
        }
        Some(path) => {
            fs::read(rt, path).context(format_args!("the orders cannot be read from {path}"))
        }
    }
}

/// The orders of a text; where some lines are none, each is named with its number and the reason.
fn orders_of(rt: &HostRuntime, text: &[u8]) -> anyhow::Result<Vec<Order>> {
    match read_orders(rt.alloc(), without_mark(text))?.into_orders() {
        Ok(orders) => Ok(orders),
        Err(bad) => {
            for line in &bad {
                eprintln!(rt; "{line}")?;
            }
            bail!("not all lines are orders, so nothing was loaded")
        }
    }
}

/// A text but for the byte order mark that some editors put at its front.
fn without_mark(text: &[u8]) -> &[u8] {
    text.strip_prefix(b"\xef\xbb\xbf").unwrap_or(text)
}
