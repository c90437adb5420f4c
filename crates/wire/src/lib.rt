//! Frames of CiA 301 and what stands in them by a name of its own: identifiers, node numbers, multiplexors, abort codes; nothing of messages, lines, dictionaries or time.
#![tactic(auto)]

mod abort_code;
mod equality;
mod frame;
mod identifier;
mod multiplexor;
mod node_number;
mod other_code;
mod text;
mod value;

pub use abort_code::{AbortCode, codes_read_back};
pub use equality::equal_frames;
pub use frame::Frame;
pub use identifier::Identifier;
pub use multiplexor::Multiplexor;
pub use node_number::NodeNumber;
pub use other_code::OtherCode;
pub use text::Hex;
pub use value::LONGEST;
