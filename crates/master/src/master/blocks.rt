//! Block writes: sub-blocks, their acknowledgements and the end (CiA 301, 7.2.4.3.9 to 7.2.4.3.11: SDO block download initiate, sub-block and end).
ghost use Rattle.std.specs.Prelude.{◌≡◌, ◌≤◌};
ghost use Rattle.master.specs.Steps.{send_sub_block, send_end, go_on, block_started, kept, acknowledge};
ghost use Rattle.master.specs.Shown.{Follows};

use super::Master;
use crate::phase::{Awaiting, SubBlock};
use crate::plan::{Batch, Step};
use crate::value::{closing_crc, segments, unused};
use sdo::{BlockSize, CrcOffer, Request};
use wire::AbortCode;

/// How many sub-blocks of a transfer may be acknowledged in part.
const SHORT_SUB_BLOCKS: u8 = 8;

impl Master {
    /// The node takes a block write: its block size is judged.
    pub(crate) fn start_blocks(&mut self, awaiting: Awaiting, crc: CrcOffer, block_size: u8) -> Step
        ensures { Follows (block_started self.old awaiting crc block_size) self.new result }
    {
        match BlockSize::new(block_size) {
            Some(size) => self.go_on(crc, size, 0, 0),
            None => self.find(awaiting, AbortCode::InvalidBlockSize),
        }
    }

    /// The node acknowledges a sub-block: the size of the next one is judged first.
    pub(crate) fn acknowledge(&mut self, sub_block: SubBlock, last_kept: u8, block_size: u8) -> Step
        ensures { Follows (acknowledge self.old sub_block last_kept block_size) self.new result }
    {
        match BlockSize::new(block_size) {
            Some(size) => self.keep(sub_block, last_kept, size),
            None => self.find(
                Awaiting::BlockDownload(sub_block),
                AbortCode::InvalidBlockSize,
            ),
        }
    }

    /// The node has kept a sub-block up to a segment.
    fn keep(&mut self, sub_block: SubBlock, last_kept: u8, size: BlockSize) -> Step
        ensures { Follows (kept self.old sub_block last_kept size.number) self.new result }
    {
        let acknowledged = sub_block.acknowledged as usize + last_kept as usize;
        if last_kept > sub_block.count {
            self.find(
                Awaiting::BlockDownload(sub_block),
                AbortCode::InvalidSequenceNumber,
            )
        } else if last_kept == sub_block.count {
            self.go_on(sub_block.crc, size, acknowledged, sub_block.short)
        } else if sub_block.short < SHORT_SUB_BLOCKS {
            self.go_on(sub_block.crc, size, acknowledged, sub_block.short + 1)
        } else {
            self.find(
                Awaiting::BlockDownload(sub_block),
                AbortCode::InvalidSequenceNumber,
            )
        }
    }

    /// The next sub-block is sent, or the end after the last one.
    fn go_on(&mut self, crc: CrcOffer, size: BlockSize, acknowledged: usize, short: u8) -> Step
        ensures { Follows (go_on self.old crc size.number acknowledged short) self.new result }
    {
        let segments = segments(&self.value);
        if segments <= acknowledged {
            self.send_end(crc)
        } else {
            let left = (segments - acknowledged) as u8;
            self.send_sub_block(SubBlock {
                crc,
                acknowledged: acknowledged as u16,
                count: size.number().min(left),
                short,
            })
        }
    }

    /// A sub-block is sent.
    fn send_sub_block(&mut self, sub_block: SubBlock) -> Step
        requires { (sub_block.acknowledged ≤ 147) × ((1 ≤ sub_block.count) × (sub_block.count ≤ 127)) }
        ensures { Follows (send_sub_block self.old sub_block.crc sub_block.acknowledged sub_block.count sub_block.short) self.new result }
    {
        let highest = self
            .highest
            .max(sub_block.acknowledged + sub_block.count as u16);
        self.send(
            Awaiting::BlockDownload(sub_block),
            highest,
            Batch::SubBlock {
                acknowledged: sub_block.acknowledged,
                count: BlockSize::nearest(sub_block.count),
            },
        )
    }

    /// The end of a block write is sent.
    fn send_end(&mut self, crc: CrcOffer) -> Step
        ensures { Follows (send_end self.old crc) self.new result }
    {
        let request = Request::EndBlockDownload {
            unused: unused(&self.value),
            crc: closing_crc(&self.value, crc),
        };
        self.send(
            Awaiting::EndBlockDownload,
            self.highest,
            Batch::One(request.to_frame(self.node)),
        )
    }
}
