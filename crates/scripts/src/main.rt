//! Runs many scripts, each as one list of calls on a bench of its own, and prints what the calls answer.
#![tactic(auto)]

mod answers;
mod calls;
mod runs;
mod script;

use anyhow::anyhow;
use commands::{NotUnderstood, asks_for_help};
use runs::run_script;
use script::{Input, read_input};
use std::env;
use std::io::Read;
use std::process::ExitCode;

const HELP: &str = "Runs scripts, each as one list of calls on a bench of its own.

usage: scripts < SCRIPTS
       scripts --help

Each script begins with a line that makes its bench; the next such line begins
the next script. The commands are those of the console, but for

    settle NUMBER [SIZE]   settle the ticket of a number, 0 to 65535, whether it
                           is the one that is out or not

and but for entries and commits, which are printed at the end of each script
anyway. For each script its number is printed, a line for each call, then how
many frames both ends have sent, with the check value of the last 256 of them,
the entries of the dictionary, and how many values the node has set. A line that
is no such command is answered by its number, and changes nothing.";

fn main(rt: HostRuntime) -> anyhow::Result<ExitCode> {
    match run(&rt) {
        Ok(()) => Ok(ExitCode::SUCCESS),
        Err(error) => {
            eprintln!(rt; "scripts: {error}")?;
            Ok(ExitCode::FAILURE)
        }
    }
}

fn run(rt: &HostRuntime) -> anyhow::Result<()> {
    let arguments: Vec<String> = env::args(rt)?.skip(1).collect(rt.alloc())?;
    let words: Vec<&str> = arguments.iter().map(|a| a.as_str()).collect(rt.alloc())?;
    if asks_for_help(&words).map_err(|unknown| anyhow!("{unknown}"))? {
        rt.println(HELP)?;
        return Ok(());
    }
    let mut text = Vec::new(rt.alloc());
    rt.stdin().read_to_end(&mut text)?;
    run_all(rt, &read_input(rt.alloc(), &text)?)
}

/// Runs all scripts of an input, one after the other.
fn run_all(rt: &HostRuntime, input: &Input) -> anyhow::Result<()> {
    for number in &input.before {
        println!(rt; "{}", NotUnderstood(*number))?;
    }
    for (number, script) in (1u64..).zip(&input.scripts) {
        println!(rt; "script {number}")?;
        run_script(rt, script)?;
    }
    Ok(())
}
