//! The options that have a value behind them.
use std::fmt;

/// An option whose value is the next word of the command line.
#[derive(Clone, Copy)]
pub enum Valued {
    Device,
    Line,
    Drop,
    Node,
    Block,
    Trace,
}

impl Valued {
    /// All of them.
    const ALL: [Valued; 6] = [
        Valued::Device,
        Valued::Line,
        Valued::Drop,
        Valued::Node,
        Valued::Block,
        Valued::Trace,
    ];

    /// The option that a word names, if it names one.
    pub fn named(word: &str) -> Option<Valued> {
        Valued::ALL.into_iter().find(|option| option.word() == word)
    }

    /// The word that names it.
    fn word(self) -> &'static str {
        match self {
            Valued::Device => "--device",
            Valued::Line => "--line",
            Valued::Drop => "--drop",
            Valued::Node => "--node",
            Valued::Block => "--block",
            Valued::Trace => "--trace",
        }
    }
}

impl fmt::Display for Valued {
    fn fmt<W: fmt::Write>(&self, f: &mut fmt::Formatter<W>) -> fmt::Result {
        f.write_str(self.word())
    }
}
