//! The two objects of a drive.
ghost use Rattle.std.specs.Prelude.{◌≡◌, MatchResult};
ghost use Rattle.drive.specs.Objects.{Absent, object_at, object_attributes};

use dictionary::{Access, Attributes};
use wire::{AbortCode, Multiplexor};

/// An object by its name in CiA 402.
#[derive(Clone, Copy)]
pub(crate) enum Object {
    ModeOfOperation,
    ProfileAcceleration,
}

impl Object {
    /// The objects, rising by multiplexor.
    pub(crate) const ALL: [Object; 2] = [Object::ModeOfOperation, Object::ProfileAcceleration];

    /// The object at a multiplexor, or the code that says why there is none.
    pub(crate) fn at(multiplexor: Multiplexor) -> Result<Object, AbortCode>
        ensures { MatchResult result (λ o. multiplexor ≡ object_at o) (λ c. Absent multiplexor c) }
    {
        match multiplexor {
            Multiplexor {
                index: 0x6060,
                subindex: 0,
            } => Ok(Object::ModeOfOperation),
            Multiplexor {
                index: 0x6083,
                subindex: 0,
            } => Ok(Object::ProfileAcceleration),
            Multiplexor {
                index: 0x6060 | 0x6083,
                ..
            } => Err(AbortCode::NoSubindex),
            _ => Err(AbortCode::NoObject),
        }
    }

    /// Where the object stands.
    pub(crate) fn multiplexor(self) -> Multiplexor
        ensures { result ≡ object_at self }
    {
        match self {
            Object::ModeOfOperation => Multiplexor {
                index: 0x6060,
                subindex: 0,
            },
            Object::ProfileAcceleration => Multiplexor {
                index: 0x6083,
                subindex: 0,
            },
        }
    }

    /// The object's access and lengths.
    pub(crate) fn attributes(self) -> Attributes
        ensures { result ≡ object_attributes self }
    {
        let length = match self {
            Object::ModeOfOperation => 1,
            Object::ProfileAcceleration => 4,
        };
        Attributes {
            access: Access::ReadWrite,
            shortest: length,
            longest: length,
        }
    }
}
