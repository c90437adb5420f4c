//! Lines that hold as many frames each way as there is room for.
ghost use Rattle.std.specs.Prelude.{◌≡◌, ◌≤◌, length};
ghost use Rattle.line.specs.Meanings.{sent_within, quieted, waiting};

use crate::end::End;
use crate::line::Line;
use crate::queue::Queue;
use crate::sent::Sent;
use std::marker::Model;
use wire::Frame;

/// A line that holds `ROOM` frames each way.
#[derive(Drop)]
pub struct BoundedLine<const ROOM: usize> {
    to_node: Queue<Frame, ROOM>,
    to_master: Queue<Frame, ROOM>,
    lost: bool,
}

/// A line that holds 130 frames each way.
pub type MemoryLine = BoundedLine<130>;

/// A line that holds one frame each way.
pub type MailboxLine = BoundedLine<1>;

/// Clauses see what the line means.
impl<const ROOM: usize> Model for BoundedLine<ROOM> {
    ghost use Rattle.line.specs.Meanings.{Meaning};

    ghost Value = { Meaning };

    ghost view = { λ l. record { to_node = l.to_node; to_master = l.to_master; lost = l.lost } };
}

impl<const ROOM: usize> BoundedLine<ROOM> {
    ghost use Rattle.std.specs.Borrow.{sem};
    ghost use Rattle.line.specs.Meanings.{waiting};
    ghost use Rattle.line.specs.Lends.{lends_queue};

    /// A line on which nothing waits and nothing was lost.
    pub fn new() -> Self
        ensures { result ≡ quieted }
    {
        let unused = Sent::default().frame;
        BoundedLine {
            to_node: Queue::new(unused),
            to_master: Queue::new(unused),
            lost: false,
        }
    }

    /// The frames that wait for an end.
    fn queue(&mut self, end: End) -> &mut Queue<Frame, ROOM>
        ensures* writes_back { sem 𝓛 (lends_queue ROOM.row self.entry end result) }
        ensures waiting { result.now ≡ waiting end self.old }
    {
        match end {
            End::Node => &mut self.to_node,
            End::Master => &mut self.to_master,
        }
    }
}

/// A frame is lost exactly where `ROOM` wait already.
impl<const ROOM: usize> Line for BoundedLine<ROOM> {
    ghost shows = { λ m. m };

    fn send(&mut self, to: End, frame: Frame)
        ensures exactly { self.new ≡ sent_within ROOM to frame self.old }
        ensures within { length (waiting to self.new) ≤ ROOM }
    {
        self.lost |= self.queue(to).add(frame).is_err();
    }

    fn take(&mut self, end: End) -> Option<Frame> {
        self.queue(end).take()
    }

    fn quiet(&mut self) {
        self.to_node.clear();
        self.to_master.clear();
        self.lost = false;
    }
}
