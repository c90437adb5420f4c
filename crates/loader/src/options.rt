//! What the command line asks for.
use crate::valued::Valued;
use crate::values::{read_device, read_drop, read_line_kind, read_number};
use anyhow::{bail, ensure};
use commands::{BenchOrder, DeviceKind, LineKind, LineOrder};

/// Where the orders are, and to what they are loaded and how.
#[derive(Clone, Copy)]
pub struct Options<'a> {
    /// Whether help is asked for; then nothing is loaded.
    pub help: bool,
    /// The file of the orders, if one is named.
    pub orders: Option<&'a str>,
    /// The bench to load on. Its node's number and block size are from 1 to 127.
    pub bench: BenchOrder,
    /// The file for the frames that are sent, if one is named.
    pub trace: Option<&'a str>,
}

impl<'a> Options<'a> {
    /// What the words of a command line ask for; where an option comes again, the last one counts.
    pub fn asked(words: &[&'a str]) -> anyhow::Result<Options<'a>> {
        let usual = Options {
            help: false,
            orders: None,
            bench: BenchOrder {
                node: 5,
                block_size: 127,
                line: LineOrder {
                    kind: LineKind::Memory,
                    pattern: 0,
                },
                device: DeviceKind::Sample,
            },
            trace: None,
        };
        usual.changed(words)
    }

    /// The options after further words; a word that is not understood is an error.
    fn changed(mut self, words: &[&'a str]) -> anyhow::Result<Options<'a>> {
        let mut before = None;
        for word in words {
            before = match before {
                Some(option) => {
                    self.set(option, word)?;
                    None
                }
                None => self.take(word)?,
            };
        }
        match before {
            Some(option) => bail!("{option} is not followed by a value, try --help"),
            None => Ok(self),
        }
    }

    /// Takes a word that is not the value of an option, and hands it back where it is an option that has a value.
    fn take(&mut self, word: &'a str) -> anyhow::Result<Option<Valued>> {
        if let "--help" | "-h" = word {
            self.help = true;
            return Ok(None);
        }
        if let Some(option) = Valued::named(word) {
            return Ok(Some(option));
        }
        ensure!(
            word == "-" || !word.starts_with('-'),
            "unknown option {word}, try --help"
        );
        if let Some(first) = self.orders {
            bail!("a second file of orders, {word} after {first}, try --help");
        }
        self.orders = Some(word);
        Ok(None)
    }

    /// Takes the value of an option.
    fn set(&mut self, option: Valued, value: &'a str) -> anyhow::Result<()> {
        match option {
            Valued::Device => self.bench.device = read_device(value)?,
            Valued::Line => self.bench.line.kind = read_line_kind(value)?,
            Valued::Drop => self.bench.line.pattern = read_drop(value)?,
            Valued::Node => self.bench.node = read_number("--node", value)?,
            Valued::Block => self.bench.block_size = read_number("--block", value)?,
            Valued::Trace => self.trace = Some(value),
        }
        Ok(())
    }
}
