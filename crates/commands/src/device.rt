//! The devices that a program can put behind a node.
ghost use Rattle.std.specs.Prelude.{◌≡◌, Some};
ghost use Rattle.commands.specs.Devices.{device_entries, device_lawful, starting};
ghost use Rattle.commands.specs.Names.{device_name, device_named};

use dictionary::{Attributes, CopyRefusal, Readable, Table, Writable, sample};
use drive::Drive;
use std::fmt;
use wire::{AbortCode, Multiplexor};

/// Which device it is.
#[derive(Clone, Copy)]
pub enum DeviceKind {
    /// The sample.
    Sample,
    /// The drive.
    Drive,
}

/// A node's dictionary that is chosen at run time.
#[derive(Drop)]
pub enum Device {
    Sample(Table),
    Drive(Drive),
}

impl DeviceKind {
    const ALL: [DeviceKind; 2] = [DeviceKind::Sample, DeviceKind::Drive];

    /// The device that a word names.
    pub fn named(word: &[u8]) -> Option<DeviceKind>
        ensures { result ≡ device_named word.now }
    {
        DeviceKind::ALL
            .into_iter()
            .find(|kind| word == kind.name().as_bytes())
    }

    /// The device's name.
    fn name(self) -> &'static str
        ensures { result.now ≡ device_name self }
    {
        match self {
            DeviceKind::Sample => "sample",
            DeviceKind::Drive => "drive",
        }
    }

    /// A new device, with the values that it starts with.
    pub fn device(self) -> Device
        ensures { device_entries result ≡ starting self }
    {
        match self {
            DeviceKind::Sample => Device::Sample(sample()),
            DeviceKind::Drive => Device::Drive(Drive::new()),
        }
    }
}

impl fmt::Display for DeviceKind {
    ghost output = { λ kind. Some (device_name kind) };

    fn fmt<W: fmt::Write>(&self, f: &mut fmt::Formatter<W>) -> fmt::Result {
        f.write_str(self.name())
    }
}

/// A device answers what its dictionary answers.
impl Readable for Device {
    ghost meaning = { device_entries };

    ghost lawful = { device_lawful };

    fn attributes(&self, multiplexor: Multiplexor) -> Result<Attributes, AbortCode> {
        match self {
            Device::Sample(table) => table.attributes(multiplexor),
            Device::Drive(drive) => drive.attributes(multiplexor),
        }
    }

    fn copy_value(
        &self,
        multiplexor: Multiplexor,
        buffer: &mut [u8],
    ) -> Result<usize, CopyRefusal> {
        match self {
            Device::Sample(table) => table.copy_value(multiplexor, buffer),
            Device::Drive(drive) => drive.copy_value(multiplexor, buffer),
        }
    }

    fn next(&self, above: Multiplexor) -> Option<Multiplexor> {
        match self {
            Device::Sample(table) => table.next(above),
            Device::Drive(drive) => drive.next(above),
        }
    }
}

/// A device takes what its dictionary takes.
impl Writable for Device {
    fn commit(&mut self, multiplexor: Multiplexor, value: &[u8]) -> Result<(), AbortCode> {
        match self {
            Device::Sample(table) => table.commit(multiplexor, value),
            Device::Drive(drive) => drive.commit(multiplexor, value),
        }
    }
}
