//! What a drive answers.
ghost use Rattle.drive.specs.Drives.{drive_entries, drive_lawful};

use crate::drive::Drive;
use crate::object::Object;
use dictionary::{Attributes, CopyRefusal, Readable, copy_to_front};
use wire::{AbortCode, Multiplexor};

/// A drive shows its numbers as bytes.
impl Readable for Drive {
    ghost meaning = { drive_entries };

    ghost lawful = { drive_lawful };

    fn attributes(&self, multiplexor: Multiplexor) -> Result<Attributes, AbortCode> {
        Object::at(multiplexor).map(Object::attributes)
    }

    fn copy_value(
        &self,
        multiplexor: Multiplexor,
        buffer: &mut [u8],
    ) -> Result<usize, CopyRefusal> {
        match Object::at(multiplexor)? {
            Object::ModeOfOperation => {
                copy_to_front(&i8::from(self.mode_of_operation).to_le_bytes(), buffer)
            }
            Object::ProfileAcceleration => {
                copy_to_front(&u32::from(self.profile_acceleration).to_le_bytes(), buffer)
            }
        }
    }

    fn next(&self, above: Multiplexor) -> Option<Multiplexor> {
        Object::ALL
            .into_iter()
            .map(Object::multiplexor)
            .find(|multiplexor| above < *multiplexor)
    }
}
