//! The SDO messages of CiA 301: what stands in the eight bytes of a frame, and nothing of lines, dictionaries or time.
#![tactic(auto)]

mod answer;
mod block_request;
mod crc_offer;
mod equality;
mod frame_data;
mod layout;
mod ranged;
mod request;
mod round_trips;
mod segment_data;
mod segment_frame;
mod segments;
mod toggle;
mod transfer;

pub use answer::Answer;
pub use block_request::BlockRequest;
pub use crc_offer::CrcOffer;
pub use equality::{equal_data, equal_messages};
pub use frame_data::{ExpeditedData, FrameData};
pub use ranged::{BlockSize, Ranged, SequenceNumber, UnusedBytes};
pub use request::Request;
pub use round_trips::messages_read_back;
pub use segment_data::SegmentData;
pub use segment_frame::Segment;
pub use segments::{differs, segment, segments_join};
pub use toggle::Toggle;
pub use transfer::Transfer;
