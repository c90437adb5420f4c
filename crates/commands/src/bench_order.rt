//! What a bench is made of.
ghost use Rattle.std.specs.Prelude.{◌≡◌, None};
ghost use Rattle.bench.specs.Model.States.{fresh};
ghost use Rattle.bench.specs.Numbers.{nearest_number, nearest_size};
ghost use Rattle.bench.specs.States.{state_of};
ghost use Rattle.commands.specs.Devices.{device_entries, starting};
ghost use Rattle.commands.specs.Lines.{recorded_shown};

use crate::device::{Device, DeviceKind};
use crate::line_order::{LineOrder, RecordedLine};
use bench::{Bench, Session};

/// A bench of a program, and the ticket of it that is held.
pub type BenchSession = Session<Bench<RecordedLine, Device>>;

/// The numbers of a bench, its line and its node's dictionary.
#[derive(Clone, Copy)]
pub struct BenchOrder {
    pub node: u8,
    pub block_size: u8,
    pub line: LineOrder,
    pub device: DeviceKind,
}

impl BenchOrder {
    /// The bench that is ordered, of which no ticket is out.
    pub fn session(self) -> BenchSession
        ensures bench { state_of recorded_shown device_entries result.bench ≡ fresh (starting self.device) (nearest_number self.node) (nearest_size self.block_size) }
        ensures ticket { result.held ≡ None }
    {
        Session::new(
            self.node,
            self.block_size,
            self.line.line(),
            self.device.device(),
        )
    }
}
