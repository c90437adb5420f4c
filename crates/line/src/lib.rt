//! What carries frames between a master and a node, and may lose them; nothing of what the frames mean.
#![tactic(auto)]

mod bounded_line;
mod drop_layer;
mod end;
mod kept;
mod line;
mod named_line;
mod pattern;
mod queue;
mod recorder;
mod recording;
mod rooms;
mod sent;

pub use bounded_line::{BoundedLine, MailboxLine, MemoryLine};
pub use drop_layer::DropLayer;
pub use end::End;
pub use line::Line;
pub use named_line::NamedLine;
pub use recorder::Recorder;
pub use recording::Recording;
pub use rooms::named_rooms;
pub use sent::Sent;
