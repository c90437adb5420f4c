//! The lines of a script.
use commands::{Command, Misread, NotUnderstood, Settling, read_line};
use std::alloc::AllocError;
use std::io;
use std::io::{BufRead, BufReader, Split, StdinLock};
use std::iter::Zip;
use std::ops::RangeFrom;

/// The lines of standard input that are not read yet, with their numbers.
pub type Lines = Zip<RangeFrom<u64>, Split<BufReader<StdinLock<'static>>>>;

/// All lines of standard input, numbered from 1.
pub fn lines(rt: &HostRuntime) -> io::Result<Lines> {
    let reader = BufReader::new(rt.alloc(), rt.reader())?;
    Ok((1..).zip(reader.split(rt.alloc(), b'\n')))
}

/// The command on a line, or none on a line to pass over or that is no command; that it is none is printed.
pub fn command_on(rt: &HostRuntime, number: u64, line: &[u8]) -> anyhow::Result<Option<Command>> {
    match read_line(rt.alloc(), Settling::Held, line) {
        Ok(command) => Ok(command),
        Err(Misread::NotUnderstood) => {
            println!(rt; "{}", NotUnderstood(number))?;
            Ok(None)
        }
        Err(Misread::OutOfMemory) => Err(AllocError.into()),
    }
}
