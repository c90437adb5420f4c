//! Makes the calls of a bench, one a line of standard input, and prints what comes of each and the frames that are sent in it.
#![tactic(auto)]

mod calls;
mod lines;
mod start;

use anyhow::anyhow;
use commands::asks_for_help;
use lines::lines;
use start::run_script;
use std::env;
use std::process::ExitCode;

const HELP: &str = "Makes the calls of a bench by hand or by a script, and shows every frame.

usage: console < SCRIPT
       console --help

A script has one command a line, its words parted by blanks or tabs. Empty
lines and lines that start with # are passed over. The first command makes the
bench, a master and a node with a line between them, and the node's dictionary:

    bench NODE BLOCK LINE DICTIONARY

NODE and BLOCK are the node's number and its block size, 0 to 255; the bench
takes the nearest from 1 to 127. LINE is memory or mailbox, and with +drop: and
16 hex digits behind it the line loses each frame for which the bit of this
pattern is 1, from the lowest bit on and round. DICTIONARY is sample or drive.
No command before bench is understood. Then, as often as wanted and in any
order:

    write expedited|segmented|block IIII:SS BYTES..
                     begin to write bytes, of two hex digits each
    read IIII:SS     begin to read
    serve [N]        let the node take a frame
    hear [N]         let the master take a frame
    tick [N]         let a tick pass
    settle [SIZE]    settle the ticket that is held, with a buffer of SIZE bytes,
                     0 to 65535; 1024 if left out
    entries          list the entries of the dictionary
    commits          tell how many values the node has set

IIII:SS is an index of four hex digits and a subindex of two. N is how many
calls are made, 1 to 1000; one if left out.

Each call prints a line. Below it stands each frame that an end handed to the
line in the call, in candump's log form, whether it was lost or not. A line that
is none of these commands, and a second bench, is answered by its number, and
changes nothing. At the end of the script a ticket that is still held is
settled. Such a run ends with status 0.";

fn main(rt: HostRuntime) -> anyhow::Result<ExitCode> {
    match run(&rt) {
        Ok(()) => Ok(ExitCode::SUCCESS),
        Err(error) => {
            eprintln!(rt; "console: {error}")?;
            Ok(ExitCode::FAILURE)
        }
    }
}

fn run(rt: &HostRuntime) -> anyhow::Result<()> {
    let arguments: Vec<String> = env::args(rt)?.skip(1).collect(rt.alloc())?;
    let words: Vec<&str> = arguments.iter().map(|a| a.as_str()).collect(rt.alloc())?;
    if asks_for_help(&words).map_err(|unknown| anyhow!("{unknown}"))? {
        rt.println(HELP)?;
        return Ok(());
    }
    run_script(rt, lines(rt)?)
}
