//! How a script begins: with the bench that it is for.
use crate::calls::run_commands;
use crate::lines::{Lines, command_on};
use commands::{BenchOrder, Command, NotUnderstood};

/// Runs a script from its first line on.
pub fn run_script(rt: &HostRuntime, mut lines: Lines) -> anyhow::Result<()> {
    match first_bench(rt, &mut lines)? {
        Some(order) => run_commands(rt, lines, order.session()),
        None => Ok(()),
    }
}

/// What the first bench of a script is to be made of; none where the script has none.
fn first_bench(rt: &HostRuntime, lines: &mut Lines) -> anyhow::Result<Option<BenchOrder>> {
    for (number, line) in lines {
        match command_on(rt, number, &line?)? {
            Some(Command::Bench(order)) => return Ok(Some(order)),
            Some(_) => println!(rt; "{}", NotUnderstood(number))?,
            None => {}
        }
    }
    Ok(None)
}
