//! Who a frame comes from and what it is for (CiA 301, 7.3.3: the generic pre-defined connection set).
ghost use Rattle.std.specs.Prelude.{◌≡◌, ◌+◌, ◌<◌};
ghost use Rattle.std.specs.Option.{option_map};
ghost use Rattle.wire.specs.Ranges.{eleven_bits};

use crate::node_number::NodeNumber;

/// A CAN identifier of 11 bits.
#[derive(Clone, Copy, PartialEq, Eq, Debug)]
pub struct Identifier {
    number: u16,
    ghost short: { number < 2048 },
}

impl Identifier {
    /// The identifier with a number below 2,048; none for a larger one.
    pub fn new(number: u16) -> Option<Identifier>
        ensures { option_map (λ i. i.number) result ≡ eleven_bits number }
    {
        if number < 2048 {
            Some(Identifier { number })
        } else {
            None
        }
    }

    /// The identifier with which a master sends to a node: 0x600 plus the node's number.
    pub fn of_requests(node: NodeNumber) -> Identifier
        ensures { result.number ≡ 0x600 + node.number }
    {
        Identifier {
            number: 0x600 + node.number() as u16,
        }
    }

    /// The identifier with which a node answers: 0x580 plus its number.
    pub fn of_answers(node: NodeNumber) -> Identifier
        ensures { result.number ≡ 0x580 + node.number }
    {
        Identifier {
            number: 0x580 + node.number() as u16,
        }
    }

    /// The number, below 2,048.
    pub fn number(self) -> u16
        ensures { result ≡ self.number }
    {
        self.number
    }
}
