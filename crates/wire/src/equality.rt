//! What it means that frames, or what they are made of, are equal.
ghost use Rattle.wire.specs.Equality.{Tells, TellsApart};

use crate::abort_code::AbortCode;
use crate::frame::Frame;
use crate::identifier::Identifier;
use crate::multiplexor::Multiplexor;
use crate::node_number::NodeNumber;

/// States that frames and their fields are equal (`==`) exactly where they are the same.
pub fn equal_frames()
    ensures nodes { Tells (λ (n : NodeNumber). n.number) ⟦<NodeNumber as PartialEq>⟧.eq }
    ensures identifiers { TellsApart ⟦<Identifier as PartialEq>⟧.eq }
    ensures frames { TellsApart ⟦<Frame as PartialEq>⟧.eq }
    ensures multiplexors { TellsApart ⟦<Multiplexor as PartialEq>⟧.eq }
    ensures codes { TellsApart ⟦<AbortCode as PartialEq>⟧.eq }
{}
