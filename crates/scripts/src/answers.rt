//! What the lines of a script say and the calls answer, printed.
use crate::script::Item;
use bench::Response;
use commands::{BegunText, NotUnderstood, SettledText, heard_words, served_words, tick_words};
use std::io;

/// Prints a line for each call and for each line that is not understood, in their order.
pub fn print_items(rt: &HostRuntime, items: &[Item], answers: &[Response]) -> io::Result<()> {
    let mut rest = answers.iter();
    for item in items {
        match item {
            Item::NotUnderstood(number) => println!(rt; "{}", NotUnderstood(*number))?,
            Item::Command(_) => {
                let times = item.repeated().map_or(0, |repeated| repeated.times);
                for _ in 0..times {
                    if let Some(answer) = rest.next() {
                        print_answer(rt, answer)?;
                    }
                }
            }
        }
    }
    Ok(())
}

/// Prints what a call answers.
fn print_answer(rt: &HostRuntime, answer: &Response) -> io::Result<()> {
    match answer {
        Response::Begun(begun) => println!(rt; "{}", BegunText(*begun)),
        Response::Served(served) => {
            let words = served_words(*served);
            println!(rt; "serve: {words}")
        }
        Response::Heard(heard) => {
            let words = heard_words(*heard);
            println!(rt; "hear: {words}")
        }
        Response::Ticked(ticked) => {
            let words = tick_words(ticked.ended);
            println!(rt; "tick: {words}")
        }
        Response::Settled { report, read } => {
            let settled = SettledText {
                settled: *report,
                buffer: read.as_slice(),
            };
            println!(rt; "{settled}")
        }
    }
}
