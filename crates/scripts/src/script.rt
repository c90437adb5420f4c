//! The scripts of an input.
use crate::calls::{Repeated, repeated_call};
use commands::{BenchOrder, Command, Misread, Settling, read_line};
use std::alloc::{AllocError, Global};

/// What was read of an input.
#[derive(Drop)]
pub struct Input {
    /// The numbers of the lines before the first script that are none to pass over.
    pub before: Vec<u64>,
    pub scripts: Vec<Script>,
}

/// A script: what its bench is made of, and its further lines but for those to pass over.
#[derive(Drop)]
pub struct Script {
    pub order: BenchOrder,
    pub items: Vec<Item>,
}

/// What a line of a script says.
#[derive(Drop)]
pub enum Item {
    /// A command that asks for calls of the bench.
    Command(Command),
    /// Nothing that is understood; the number is that of the line.
    NotUnderstood(u64),
}

impl Item {
    /// The item of a line that has a command.
    fn of_command(number: u64, command: Command) -> Item {
        if repeated_call(&command).is_some() {
            Item::Command(command)
        } else {
            Item::NotUnderstood(number)
        }
    }

    /// The call that is made, and how often, if one is.
    pub fn repeated(&self) -> Option<Repeated> {
        match self {
            Item::Command(command) => repeated_call(command),
            Item::NotUnderstood(_) => None,
        }
    }
}

impl Input {
    /// Adds what a line says.
    fn add_line(&mut self, heap: Global, number: u64, line: &[u8]) -> Result<(), AllocError> {
        match read_line(heap, Settling::ByNumber, line) {
            Ok(None) => Ok(()),
            Ok(Some(Command::Bench(order))) => self.add_script(heap, order),
            Ok(Some(command)) => self.add_item(number, Item::of_command(number, command)),
            Err(Misread::NotUnderstood) => self.add_item(number, Item::NotUnderstood(number)),
            Err(Misread::OutOfMemory) => Err(AllocError),
        }
    }

    /// Adds a script of which only the first line was read.
    fn add_script(&mut self, heap: Global, order: BenchOrder) -> Result<(), AllocError> {
        let items = Vec::new(heap);
        self.scripts.push(Script { order, items })?;
        Ok(())
    }

    /// Adds what a line says to the script that it stands in; before the first script no line is understood.
    fn add_item(&mut self, number: u64, item: Item) -> Result<(), AllocError> {
        match self.scripts.last_mut() {
            Some(script) => script.items.push(item)?,
            None => self.before.push(number)?,
        }
        Ok(())
    }
}

/// The scripts of a text.
pub fn read_input(heap: Global, text: &[u8]) -> Result<Input, AllocError> {
    let mut input = Input {
        before: Vec::new(heap),
        scripts: Vec::new(heap),
    };
    for (number, line) in (1..).zip(text.split(|b| *b == b'\n')) {
        input.add_line(heap, number, line)?;
    }
    Ok(input)
}
