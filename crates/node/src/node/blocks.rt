//! Block writes (CiA 301, 7.2.4.3.9 to 7.2.4.3.11: SDO block download initiate, sub-block and end).
ghost use Rattle.std.specs.Prelude.{◌≡◌};
ghost use Rattle.sdo.specs.Answers.{shown_answer};
ghost use Rattle.sdo.specs.BlockRequests.{shown_block_request};
ghost use Rattle.node.specs.Nodes.{Turns, Does, shown};
ghost use Rattle.node.specs.States.{BlockDownload as BlockReceived, next_sub_block};
ghost use Rattle.node.specs.Steps.{answered, dropped, block_awaited, start_block, ends as ends_at, keep as keep-step, pass_over, spoil as spoil-step, block_segment, asked_in_block, crc_differs, closed, block_end};

use super::Node;
use crate::activity::Activity;
use crate::block_segment::BlockSegment;
use crate::block_start::BlockStart;
use crate::download_start::DownloadStart;
use crate::reaction::Reaction;
use crate::reception::Reception;
use crate::served::Served;
use crc::checksum;
use dictionary::{Readable, Writable, check_start};
use sdo::{Answer, BlockRequest, CrcOffer, UnusedBytes};
use wire::AbortCode;

impl Node {
    /// The start of a block write: its segments are awaited, unless the dictionary has a verdict on the write already.
    pub(super) fn start_block<D: Readable>(&mut self, dictionary: &D, start: BlockStart) -> Reaction
        ensures { Turns (start_block (D.Readable.meaning dictionary.now) self.old.block_size.number start) self.old self.new result }
    {
        let DownloadStart { multiplexor, size } = start.download;
        if let Err(code) = check_start(dictionary, multiplexor, size) {
            return self.refuse(multiplexor, code);
        }
        self.buffer.clear();
        self.await_block(start)
    }

    /// Awaits the first segment of a block write.
    fn await_block(&mut self, start: BlockStart) -> Reaction
        ensures { Turns (block_awaited self.old.block_size.number start self.old.buffer) self.old self.new result }
    {
        let answer = Answer::InitiateBlockDownload {
            multiplexor: start.download.multiplexor,
            crc: CrcOffer::Offered,
            block_size: self.block_size.number(),
        };
        self.next_sub_block(start, answer)
    }

    /// A message while block segments come in.
    pub(super) fn asked_in_block(&mut self, reception: Reception, request: BlockRequest) -> Reaction
        ensures { Turns (asked_in_block self.old.block_size.number reception self.old.buffer (shown_block_request request)) self.old self.new result }
    {
        match request {
            BlockRequest::Segment { last, number, data } => self.block_segment(
                reception,
                BlockSegment { last, number, data },
            ),
            BlockRequest::Abort { .. } => self.end(),
        }
    }

    /// A block segment: the one that is awaited is kept where it has room, any other is passed over.
    fn block_segment(&mut self, reception: Reception, segment: BlockSegment) -> Reaction
        ensures { Turns (block_segment self.old.block_size.number reception self.old.buffer segment.last segment.number.number segment.data) self.old self.new result }
    {
        if reception.spoiled {
            return self.spoil(reception, segment);
        }
        if segment.number.number() != reception.expected {
            return self.pass_over(reception, segment);
        }
        if self.buffer.is_full() {
            return self.spoil(reception, segment);
        }
        self.buffer.append(&segment.data);
        self.acknowledge(reception.start, segment)
    }

    /// The segment that was awaited is kept: at the end of its sub-block its number is acknowledged.
    fn acknowledge(&mut self, start: BlockStart, segment: BlockSegment) -> Reaction
        ensures { Turns (keep-step self.old.block_size.number start segment.last segment.number.number self.old.buffer) self.old self.new result }
    {
        let number = segment.number.number();
        let answer = Answer::AcknowledgeBlock {
            last_kept: number,
            block_size: self.block_size.number(),
        };
        if segment.last {
            return self.send(Activity::BlockEnd { start }, Served::Answered, answer);
        }
        if number == self.block_size.number() {
            return self.next_sub_block(start, answer);
        }
        let reception = Reception {
            start,
            expected: number + 1,
            spoiled: false,
        };
        self.go_on(Activity::BlockDownload { reception }, Served::Kept)
    }

    /// Another segment is dropped: at the end of a sub-block the last number that was kept is acknowledged.
    fn pass_over(&mut self, reception: Reception, segment: BlockSegment) -> Reaction
        ensures { Turns (pass_over self.old.block_size.number reception self.old.buffer segment.last segment.number.number) self.old self.new result }
    {
        if self.ends(segment) {
            let answer = Answer::AcknowledgeBlock {
                last_kept: reception.expected.saturating_sub(1),
                block_size: self.block_size.number(),
            };
            return self.next_sub_block(reception.start, answer);
        }
        self.drop_segment(Reception {
            spoiled: false,
            ..reception
        })
    }

    /// There was a segment too many: that is told at the end of the sub-block.
    fn spoil(&mut self, reception: Reception, segment: BlockSegment) -> Reaction
        ensures { Turns (spoil-step self.old.block_size.number reception self.old.buffer segment.last segment.number.number) self.old self.new result }
    {
        if self.ends(segment) {
            let multiplexor = reception.start.download.multiplexor;
            return self.refuse(multiplexor, AbortCode::LengthTooHigh);
        }
        self.drop_segment(Reception {
            spoiled: true,
            ..reception
        })
    }

    /// Goes on with a block write after a segment that is not kept.
    fn drop_segment(&mut self, reception: Reception) -> Reaction
        ensures { Turns (dropped (BlockReceived reception self.old.buffer)) self.old self.new result }
    {
        let next = Activity::BlockDownload { reception };
        self.go_on(next, Served::Dropped)
    }

    /// Answers, and awaits the first segment of a sub-block.
    #[inline(always)]
    fn next_sub_block(&mut self, start: BlockStart, answer: Answer) -> Reaction
        ensures { Turns (answered (BlockReceived (next_sub_block start) self.old.buffer) (shown_answer answer)) self.old self.new result }
    {
        let reception = Reception {
            start,
            expected: 1,
            spoiled: false,
        };
        self.send(
            Activity::BlockDownload { reception },
            Served::Answered,
            answer,
        )
    }

    /// Whether a segment ends its sub-block: it is the last of all or has the highest number.
    fn ends(&self, segment: BlockSegment) -> bool
        ensures { result ≡ ends_at self.now.block_size.number segment.last segment.number.number }
    {
        segment.last || segment.number.number() == self.block_size.number()
    }

    /// The end of a block write: its bytes are those of its segments without the unused ones.
    pub(super) fn block_end<D: Writable>(
        &mut self,
        dictionary: &mut D,
        unused: UnusedBytes,
        crc: u16,
    ) -> Reaction
        ensures { Does D.Readable.meaning (λ d. block_end d (shown self.old).activity unused.number crc) self.old self.new dictionary.old dictionary.new result }
    {
        let Activity::BlockEnd { start } = self.activity else {
            return self.unexpected();
        };
        self.buffer.shorten(unused.number() as usize);
        self.close(dictionary, start, crc)
    }

    /// All bytes of a block write are in the buffer: their CRC is compared, then they are complete.
    fn close<D: Writable>(&mut self, dictionary: &mut D, start: BlockStart, crc: u16) -> Reaction
        ensures { Does D.Readable.meaning (λ d. closed d start crc self.old.buffer) self.old self.new dictionary.old dictionary.new result }
    {
        if is_wrong(start.crc, crc, self.buffer.held()) {
            return self.refuse(start.download.multiplexor, AbortCode::CrcError);
        }
        self.complete(dictionary, start.download, Answer::EndBlockDownload)
    }
}

/// Whether a CRC is not that of some bytes; it is looked at only where the master offered one.
fn is_wrong(offer: CrcOffer, crc: u16, bytes: &[u8]) -> bool
    ensures { result ≡ crc_differs offer crc bytes.now }
{
    offer == CrcOffer::Offered && crc != checksum(bytes)
}
