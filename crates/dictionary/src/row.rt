//! Where a table keeps one entry.
ghost use Rattle.std.specs.Prelude.{◌≡◌};
ghost use Rattle.dictionary.specs.Layouts.{vacant};

use crate::access::Access;
use crate::attributes::Attributes;
use search::Keyed;
use wire::Multiplexor;

/// An entry's multiplexor and attributes, and where its value lies in the table's bytes.
#[derive(Clone, Copy)]
pub struct Row {
    pub multiplexor: Multiplexor,
    pub attributes: Attributes,
    pub start: usize,
    pub length: usize,
}

/// What stands in the places of a table that hold no entry.
impl Default for Row {
    ghost is_default = { λ r. r ≡ vacant };

    fn default() -> Row {
        Row {
            multiplexor: Multiplexor::default(),
            attributes: Attributes {
                access: Access::ReadOnly,
                shortest: 0,
                longest: 0,
            },
            start: 0,
            length: 0,
        }
    }
}

/// Rows are found by their multiplexors.
impl Keyed for Row {
    type Key = Multiplexor;

    ghost label = { λ r. r.multiplexor };

    fn key(&self) -> Multiplexor {
        self.multiplexor
    }
}
