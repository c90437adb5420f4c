//! What it means that messages, or what they are made of, are equal.
ghost use Rattle.wire.specs.Equality.{Tells};
ghost use Rattle.sdo.specs.Answers.{shown_answer};
ghost use Rattle.sdo.specs.BlockRequests.{shown_block_request};
ghost use Rattle.sdo.specs.FrameData.{value_in};
ghost use Rattle.sdo.specs.Requests.{shown_request};
ghost use Rattle.sdo.specs.Transfers.{shown_transfer};

use crate::answer::Answer;
use crate::block_request::BlockRequest;
use crate::frame_data::FrameData;
use crate::request::Request;
use crate::transfer::Transfer;

/// States that messages, and the fields that say how a value comes across, are equal (`==`) exactly where they say the same.
pub fn equal_messages()
    ensures requests { Tells shown_request ⟦<Request as PartialEq>⟧.eq }
    ensures blocks { Tells shown_block_request ⟦<BlockRequest as PartialEq>⟧.eq }
    ensures transfers { Tells shown_transfer ⟦<Transfer as PartialEq>⟧.eq }
    ensures answers { Tells shown_answer ⟦<Answer as PartialEq>⟧.eq }
{}

/// States that frame data is equal (`==`) exactly where it carries the same value.
pub fn equal_data<const LEAST: usize, const MOST: usize>()
    ensures { Tells value_in ⟦<FrameData<LEAST, MOST> as PartialEq>⟧.eq }
{}
