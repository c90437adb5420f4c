//! What a master sends, frame by frame.
ghost use Rattle.std.specs.Prelude.{◌≡◌, ◌+◌, ◌<◌, ◌≤◌, ◌∷◌};
ghost use Rattle.std.specs.Iterator.{YieldsFirst, item_count};
ghost use Rattle.master.specs.SubBlocks.{block_segment};

use crate::value::{Value, is_last, padded_segment};
use sdo::{BlockRequest, SequenceNumber};
use wire::{Frame, NodeNumber};

/// Frames for the node, in their order.
#[derive(Clone, Copy)]
pub enum Frames<'a> {
    Nothing,
    One(Frame),
    SubBlock(Segments<'a>),
}

/// The segments of a sub-block that are still to be sent: `count` of them, the first of which has the number `next`.
/// The frame of each is made when it is asked for.
#[derive(Clone, Copy)]
pub struct Segments<'a> {
    pub(crate) node: NodeNumber,
    pub(crate) value: &'a Value,
    pub(crate) acknowledged: u16,
    pub(crate) next: u8,
    pub(crate) count: u8,
    ghost numbered: { next + count ≤ 128 },
}

impl Iterator for Frames<'_> {
    ghost use Rattle.master.specs.Sendings.{shown_frames};

    type Item = Frame;

    ghost next_gives = { YieldsFirst shown_frames };

    ghost remaining = { item_count shown_frames };

    #[inline(always)]
    fn next(&mut self) -> Option<Frame> {
        match *self {
            Frames::Nothing => None,
            Frames::One(frame) => {
                *self = Frames::Nothing;
                Some(frame)
            }
            Frames::SubBlock(segments) if segments.count == 0 => None,
            Frames::SubBlock(segments) => {
                let (frame, others) = segments.split_first();
                *self = Frames::SubBlock(others);
                Some(frame)
            }
        }
    }
}

impl<'a> Segments<'a> {
    ghost use Rattle.master.specs.Sendings.{segments_left};

    /// The frame of the first that is left, and those behind it.
    fn split_first(self) -> (Frame, Segments<'a>)
        requires { 0 < self.count }
        ensures { segments_left self.entry ≡ result.0 ∷ segments_left result.1 }
    {
        let others = Segments {
            node: self.node,
            value: self.value,
            acknowledged: self.acknowledged,
            next: self.next + 1,
            count: self.count - 1,
        };
        (self.first(), others)
    }

    /// The frame of the first that is left.
    fn first(self) -> Frame
        requires { self.next < 128 }
        ensures { result ≡ block_segment self.entry.node self.entry.value.now.items self.entry.acknowledged self.entry.next }
    {
        let place = self.acknowledged as usize + self.next as usize;
        let request = BlockRequest::Segment {
            last: is_last(self.value, place),
            number: SequenceNumber::new(self.next).unwrap(),
            data: padded_segment(self.value, place),
        };
        request.to_frame(self.node)
    }
}
