//! A node over the sample, and what it makes of frames.
use dictionary::{Table, sample};
use node::{Node, Reaction, Served};
use sdo::BlockSize;
use std::test::Fail;
use wire::{Frame, Identifier, NodeNumber};

/// A frame to the node, what serving it tells, and the answer; frames by their eight bytes, the first one foremost.
#[derive(Clone, Copy)]
pub(crate) struct Turn(pub u64, pub Served, pub Option<u64>);

/// What a node has behind it: the size of its sub-blocks, some turns, and then others some times over.
pub(crate) struct State {
    pub block_size: u8,
    pub start: &'static [Turn],
    pub times: usize,
    pub filling: &'static [Turn],
}

/// The node and its dictionary.
#[derive(Drop)]
pub(crate) struct Setup {
    pub node: Node,
    pub table: Table,
}

impl Setup {
    /// A new node with a block size over the sample.
    pub(crate) fn new(block_size: u8) -> Setup {
        Setup {
            node: Node::new(NodeNumber::nearest(5), BlockSize::nearest(block_size)),
            table: sample(),
        }
    }

    /// A node that is in a state.
    pub(crate) fn in_state(state: &State) -> Result<Setup, Fail> {
        let mut setup = Setup::new(state.block_size);
        let mut reached = setup.goes(state.start)?;
        for _ in 0..state.times {
            reached &= setup.goes(state.filling)?;
        }
        if reached {
            Ok(setup)
        } else {
            Err(Fail::new("the state is not reached"))
        }
    }

    /// What the node makes of a frame with an identifier.
    pub(crate) fn serve(&mut self, identifier: u16, bytes: u64) -> Result<Reaction, Fail> {
        let identifier = Identifier::new(identifier).ok_or_else(|| Fail::new("more than 11 bits"))?;
        Ok(
            self.node.serve(
                &mut self.table,
                Some(Frame {
                    identifier,
                    bytes: bytes.to_be_bytes(),
                }),
            ),
        )
    }

    /// Whether some turns, one after the other, go as they should.
    pub(crate) fn goes(&mut self, turns: &[Turn]) -> Result<bool, Fail> {
        for &Turn(frame, served, answer) in turns {
            let reaction = self.serve(0x605, frame)?;
            if reaction.served != served || !is_reply(reaction.reply, answer) {
                return Ok(false);
            }
        }
        Ok(true)
    }
}

/// Whether a frame is the node's and has some bytes, or there is none.
pub(crate) fn is_reply(reply: Option<Frame>, bytes: Option<u64>) -> bool {
    reply.is_none_or(|frame| frame.identifier.number() == 0x585)
        && reply.map(|frame| u64::from_be_bytes(frame.bytes)) == bytes
}
