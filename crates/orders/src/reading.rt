//! Orders read from a text.
ghost use Rattle.std.specs.Prelude.{◌≡◌, map, IfOk, OnOk};
ghost use Rattle.orders.specs.Lines.{line_meaning};
ghost use Rattle.orders.specs.Pieces.{lines};
ghost use Rattle.orders.specs.Texts.{Adds, content, orders_in, bad_in, all_or_none};

use crate::bad_line::BadLine;
use crate::fault::Fault;
use crate::line::{Scratch, read_line_with};
use crate::order::Order;
use std::alloc::{AllocError, Global};

/// What was read of a text: its orders, and its lines that are none.
#[derive(Drop)]
pub struct Reading {
    pub orders: Vec<Order>,
    pub bad: Vec<BadLine>,
}

impl Reading {
    /// All orders, or all lines that are none where there is one.
    pub fn into_orders(self) -> Result<Vec<Order>, Vec<BadLine>>
        ensures { result ≡ all_or_none self }
    {
        let Reading { orders, bad } = self;
        if bad.is_empty() { Ok(orders) } else { Err(bad) }
    }

    /// Adds what a line says.
    fn add_line(
        &mut self,
        heap: Global,
        scratch: &mut Scratch,
        number: usize,
        line: &[u8],
    ) -> Result<(), AllocError>
        ensures { OnOk result (Adds number (line_meaning line.now) self.old self.new) }
    {
        match read_line_with(heap, scratch, line) {
            Ok(None) => {}
            Ok(Some(order)) => self.orders.push(order)?,
            Err(Fault::OutOfMemory) => return Err(AllocError),
            Err(fault) => self.bad.push(BadLine {
                line: number,
                fault,
            })?,
        }
        Ok(())
    }
}

/// The orders of a text's lines, and the lines that are no orders with their numbers, from 1, and their `Fault`. Want of memory gives
/// up the whole text.
pub fn read_orders(heap: Global, text: &[u8]) -> Result<Reading, AllocError>
    ensures orders { IfOk result (λ x. map content x.orders.items ≡ orders_in (lines text.now)) }
    ensures bad { IfOk result (λ x. x.bad.items ≡ bad_in 1 (lines text.now)) }
{
    let mut reading = Reading {
        orders: Vec::new(heap),
        bad: Vec::new(heap),
    };
    let mut scratch = Scratch::new();
    for (number, line) in (1..).zip(text.split(|b| *b == b'\n')) {
        reading.add_line(heap, &mut scratch, number, line)?;
    }
    Ok(reading)
}
