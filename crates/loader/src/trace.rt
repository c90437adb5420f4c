//! The frames that are sent, as a log that candump could have written.
use bench::{Bench, Steppable};
use commands::{Device, RecordedLine};
use line::{Recording, Sent};
use rounds::Watch;
use std::fs::File;
use std::io::{BufWriter, Write};
use std::{fs, io};

/// The frames of a load, and the log that they are written to where one is asked for.
#[derive(Drop)]
pub struct Trace {
    log: Option<Log>,
    /// How many of the frames that were sent are written down, or let go without a log.
    passed: u64,
    /// Why some could not be written, until it is told.
    failed: Option<io::Error>,
}

/// A log of frames, whose clock is the ticks that have passed: a second for each.
#[derive(Drop)]
struct Log {
    file: BufWriter<File>,
    ticks: u64,
}

impl Trace {
    /// No log.
    pub fn none() -> Trace {
        Trace {
            log: None,
            passed: 0,
            failed: None,
        }
    }

    /// A new log in a file of this name, in which nothing stands any more.
    pub fn create(rt: &HostRuntime, path: &str) -> io::Result<Trace> {
        let file = BufWriter::new(rt.alloc(), fs::create(rt, path)?)?;
        let log = Some(Log { file, ticks: 0 });
        Ok(Trace {
            log,
            ..Trace::none()
        })
    }

    /// Writes down the frames that are not yet; an error that was not told is told first.
    pub fn add_sent(&mut self, line: &RecordedLine) -> io::Result<()> {
        if let Some(error) = self.failed.take() {
            return Err(error);
        }
        let frames = line.since(self.passed);
        self.passed = line.sent();
        match &mut self.log {
            Some(log) => log.add(frames),
            None => Ok(()),
        }
    }

    /// Puts the whole log into its file.
    pub fn end(self) -> io::Result<()> {
        match self.log {
            Some(mut log) => log.file.flush(),
            None => Ok(()),
        }
    }
}

impl Watch<Bench<RecordedLine, Device>> for Trace {
    fn before_tick(&mut self, bench: &Bench<RecordedLine, Device>) {
        self.failed = self.add_sent(bench.line()).err();
        if let Some(log) = &mut self.log {
            log.ticks = log.ticks.saturating_add(1);
        }
    }
}

impl Log {
    /// Writes down frames, as they were sent since the last tick.
    fn add(&mut self, frames: &[Sent]) -> io::Result<()> {
        let ticks = self.ticks;
        for sent in frames {
            let frame = sent.frame;
            writeln!(self.file, "({ticks}.000000) can0 {frame}")?;
        }
        Ok(())
    }
}
