//! The number by which a node is addressed (CiA 301: the node-ID).
ghost use Rattle.std.specs.Prelude.{◌≡◌, ◌≤◌};
ghost use Rattle.wire.specs.Ranges.{nearest};

/// A node's number, 1 to 127.
#[derive(Clone, Copy, PartialEq, Eq, Debug)]
pub struct NodeNumber {
    number: u8,
    ghost low: { 1 ≤ number },
    ghost high: { number ≤ 127 },
}

impl NodeNumber {
    /// The node number nearest to a number: itself from 1 to 127, else the nearer end.
    pub fn nearest(number: u8) -> NodeNumber
        ensures { result.number ≡ nearest number }
    {
        NodeNumber {
            number: number.clamp(1, 127),
        }
    }

    /// The number, 1 to 127.
    pub fn number(self) -> u8
        ensures { result ≡ self.number }
    {
        self.number
    }
}
