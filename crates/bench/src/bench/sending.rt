//! What the two ends want to be done on the line.
ghost use Rattle.std.specs.Prelude.{◌≡◌, Bool, List, length};
ghost use Rattle.line.specs.declared.end.End.TheVariants.{Node};
ghost use Rattle.master.specs.Sendings.{shown_frames, shown_sending};
ghost use Rattle.bench.specs.Model.Lines.{sent_all, carried, replied};

use line::{End, Line};
use master::{Frames, Sending};
use wire::Frame;

/// Does on the line what the master wants: it is quieted first, or not, and then frames are sent to the node.
#[inline(always)]
pub(super) fn put_on_line<L: Line>(line: &mut L, sending: Sending)
    ensures { (ls : List Bool) × (L.Line.shows line.new ≡ carried (shown_sending sending.entry) ls (L.Line.shows line.old)) }
{
    if sending.quiet {
        line.quiet();
    }
    send_frames(line, sending.frames);
}

/// Sends frames to the node.
#[inline(always)]
fn send_frames<L: Line>(line: &mut L, frames: Frames)
    ensures { (ls : List Bool) × (L.Line.shows line.new ≡ sent_all Node (shown_frames frames.entry) ls (L.Line.shows line.old)) }
{
    for frame in frames {
        line.send(End::Node, frame);
    }
}

/// Sends the node's frame to the master, where there is one.
#[inline(always)]
pub(super) fn reply<L: Line>(line: &mut L, frame: Option<Frame>)
    ensures { (lost : Bool) × (L.Line.shows line.new ≡ replied frame lost (L.Line.shows line.old)) }
{
    if let Some(frame) = frame {
        line.send(End::Master, frame);
    }
}
