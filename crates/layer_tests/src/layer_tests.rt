//! A station over layers, on the dictionaries and lines of the library crates.
use crate::handing_dictionary::HandingDictionary;
use crate::handing_line::HandingLine;
use crate::station::Station;
use dictionary::{Writable, sample};
use drive::Drive;
use line::{DropLayer, Line, MailboxLine, MemoryLine};
use wire::{AbortCode, Frame, Identifier, Multiplexor, NodeNumber};

fn at(index: u16, subindex: u8) -> Multiplexor {
    Multiplexor { index, subindex }
}

/// A frame that is told from others by a number.
fn numbered(number: u8) -> Frame {
    Frame {
        identifier: Identifier::of_answers(NodeNumber::nearest(5)),
        bytes: [number, 0, 0, 0, 0, 0, 0, 0],
    }
}

#[test]
fn a_table_under_two_layers_is_set_and_asked(rt: HostRuntime) {
    let dictionary = HandingDictionary::new(HandingDictionary::new(sample()));
    let mut station = Station::new(MemoryLine::new(), dictionary);
    assert!(rt; station.value_length(at(0x2001, 0)) == Ok(1));
    assert!(rt; station.send_and_set(numbered(1), at(0x2001, 0), &[1, 2, 3]) == Ok(()));
    assert!(rt; station.value_length(at(0x2001, 0)) == Ok(3));
    assert!(rt; station.take() == Some(numbered(1)));
    assert!(rt; station.send_and_set(numbered(2), at(0x1000, 0), &[1]) == Err(AbortCode::ReadOnly));
    assert!(rt; station.take() == Some(numbered(2)));
}

#[test]
fn a_lost_frame_sets_the_value_all_the_same(rt: HostRuntime) {
    let line = HandingLine::new(DropLayer::new(MailboxLine::new(), 0x0000_0000_0000_0001));
    let mut station = Station::new(line, HandingDictionary::new(sample()));
    assert!(rt; station.send_and_set(numbered(1), at(0x2001, 0), &[1, 2]) == Ok(()));
    assert!(rt; station.take() == None);
    assert!(rt; station.value_length(at(0x2001, 0)) == Ok(2));
    assert!(rt; station.send_and_set(numbered(2), at(0x2001, 0), &[1]) == Ok(()));
    assert!(rt; station.take() == Some(numbered(2)));
}

#[test]
fn a_layer_under_a_layer_that_drops(rt: HostRuntime) {
    let line = DropLayer::new(HandingLine::new(MemoryLine::new()), 0x0000_0000_0000_0002);
    let mut station = Station::new(line, HandingDictionary::new(Drive::new()));
    assert!(rt; station.send_and_set(numbered(1), at(0x6060, 0), &[3]) == Ok(()));
    assert!(rt;
        station.send_and_set(numbered(2), at(0x6060, 0), &[2]) == Err(AbortCode::InvalidValue)
    );
    assert!(rt; station.take() == Some(numbered(1)));
    assert!(rt; station.take() == None);
    assert!(rt; station.value_length(at(0x6083, 0)) == Ok(4));
    assert!(rt; station.value_length(at(0x6083, 1)) == Err(AbortCode::NoSubindex));
}
