//! A line of a text that is no order.
ghost use Rattle.std.specs.Prelude.{Some};
ghost use Rattle.orders.specs.Reasons.{report};

use crate::fault::Fault;
use std::fmt;

/// The number of a line, from 1, and why it is no order.
#[derive(Clone, Copy, PartialEq, Debug)]
pub struct BadLine {
    pub line: usize,
    pub fault: Fault,
}

impl fmt::Display for BadLine {
    ghost output = { λ b. Some (report b) };

    fn fmt<W: fmt::Write>(&self, f: &mut fmt::Formatter<W>) -> fmt::Result {
        let line = self.line;
        let fault = self.fault;
        write!(f, "line {line}: {fault}")
    }
}
