//! What a drive takes.
use crate::acceleration::ProfileAcceleration;
use crate::drive::Drive;
use crate::mode::ModeOfOperation;
use crate::object::Object;
use dictionary::{Readable, Writable};
use wire::{AbortCode, Multiplexor};

/// A drive takes the number that bytes stand for.
impl Writable for Drive {
    fn commit(&mut self, multiplexor: Multiplexor, value: &[u8]) -> Result<(), AbortCode> {
        let object = Object::at(multiplexor)?;
        object.attributes().check(value.len())?;
        match object {
            Object::ModeOfOperation => {
                self.mode_of_operation = ModeOfOperation::try_from(value)?;
            }
            Object::ProfileAcceleration => {
                self.profile_acceleration = ProfileAcceleration::try_from(value)?;
            }
        }
        Ok(())
    }
}
