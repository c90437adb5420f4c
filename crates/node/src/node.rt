//! A node: the SDO server of CiA 301.
ghost use Rattle.std.specs.Prelude.{◌≡◌};
ghost use Rattle.node.specs.Nodes.{fresh, shown};
ghost use Rattle.node.specs.States.{is_idle};

use crate::activity::Activity;
use crate::buffer::Buffer;
use sdo::BlockSize;
use wire::NodeNumber;

mod blocks;
mod reading;
mod serving;
mod time;
mod turns;
mod writing;

/// A node by its number and the size of its sub-blocks, what it is doing, the ticks since it took a frame, and how many values it has set, modulo 65,536.
#[derive(Drop)]
pub struct Node {
    number: NodeNumber,
    block_size: BlockSize,
    activity: Activity,
    buffer: Buffer,
    ticks: u8,
    commits: u16,
}

impl Node {
    /// An idle node that has set nothing yet.
    pub fn new(number: NodeNumber, block_size: BlockSize) -> Node
        ensures { shown result ≡ fresh number block_size }
    {
        Node {
            number,
            block_size,
            activity: Activity::Idle,
            buffer: Buffer::new(),
            ticks: 0,
            commits: 0,
        }
    }

    /// The node's number.
    pub fn number(&self) -> NodeNumber
        ensures { result ≡ self.now.number }
    {
        self.number
    }

    /// How many values the node has set, modulo 65,536.
    pub fn commits(&self) -> u16
        ensures { result ≡ self.now.commits }
    {
        self.commits
    }

    /// Whether the node is in no transfer.
    pub fn is_idle(&self) -> bool
        ensures { result ≡ is_idle (shown self.now).activity }
    {
        matches!(self.activity, Activity::Idle)
    }
}
