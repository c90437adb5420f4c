//! Commands of scripts as text: what a line asks of a bench, and the words and bytes in which its answers are printed.
#![tactic(auto)]

mod answers;
mod arguments;
mod bench_order;
mod command;
mod device;
mod entries;
mod line_order;
mod misread;
mod numbers;
mod reading;
#[cfg(test)]
mod tests;
mod words;

pub use answers::{BegunText, NotUnderstood, SettledText};
pub use arguments::{UnknownArgument, asks_for_help};
pub use bench_order::{BenchOrder, BenchSession};
pub use command::{Command, WriteOrder};
pub use device::{Device, DeviceKind};
pub use entries::print_entries;
pub use line_order::{LineKind, LineOrder, RecordedLine};
pub use misread::Misread;
pub use numbers::{read_decimal, read_pattern};
pub use reading::{Settling, read_line};
pub use words::{heard_words, served_words, tick_words};
