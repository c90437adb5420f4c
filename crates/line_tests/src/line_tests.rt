//! What the lines keep, lose and hand out.
use line::{BoundedLine, DropLayer, End, Line, MailboxLine, MemoryLine, Recorder, Recording, Sent};
use wire::{Frame, Identifier, NodeNumber};

/// A frame that is told from others by a number.
fn numbered(number: u8) -> Frame {
    Frame {
        identifier: Identifier::of_requests(NodeNumber::nearest(5)),
        bytes: [number, 0, 0, 0, 0, 0, 0, 0],
    }
}

/// What comes of a frame sent to the node over any line on which nothing else waits for it.
fn carried<L: Line>(line: &mut L, number: u8) -> Option<Frame> {
    line.send(End::Node, numbered(number));
    line.take(End::Node)
}

#[test]
fn a_131st_frame_is_lost(rt: HostRuntime) {
    let mut line = MemoryLine::new();
    for number in 0..131u8 {
        line.send(End::Node, numbered(number));
    }
    for number in 0..130u8 {
        assert_eq!(rt; line.take(End::Node), Some(numbered(number)));
    }
    assert_eq!(rt; line.take(End::Node), None);
}

#[test]
fn order_is_kept_past_the_end_of_memory(rt: HostRuntime) {
    let mut line = MemoryLine::new();
    for number in 0..100u8 {
        assert_eq!(rt; carried(&mut line, number), Some(numbered(number)));
    }
    for number in 0..130u8 {
        line.send(End::Node, numbered(number));
    }
    for number in 0..130u8 {
        assert_eq!(rt; line.take(End::Node), Some(numbered(number)));
    }
    assert_eq!(rt; line.take(End::Node), None);
}

#[test]
fn order_is_kept_both_ways(rt: HostRuntime) {
    let mut line = MemoryLine::new();
    line.send(End::Node, numbered(1));
    line.send(End::Master, numbered(2));
    line.send(End::Node, numbered(3));
    line.send(End::Master, numbered(4));
    assert_eq!(rt; line.take(End::Master), Some(numbered(2)));
    assert_eq!(rt; line.take(End::Node), Some(numbered(1)));
    assert_eq!(rt; line.take(End::Node), Some(numbered(3)));
    assert_eq!(rt; line.take(End::Node), None);
    assert_eq!(rt; line.take(End::Master), Some(numbered(4)));
    assert_eq!(rt; line.take(End::Master), None);
}

#[test]
fn a_mailbox_keeps_the_first_each_way(rt: HostRuntime) {
    let mut line = MailboxLine::new();
    line.send(End::Node, numbered(1));
    line.send(End::Node, numbered(2));
    line.send(End::Master, numbered(3));
    line.send(End::Master, numbered(4));
    assert_eq!(rt; line.take(End::Node), Some(numbered(1)));
    assert_eq!(rt; line.take(End::Node), None);
    assert_eq!(rt; line.take(End::Master), Some(numbered(3)));
    assert_eq!(rt; line.take(End::Master), None);
    assert_eq!(rt; carried(&mut line, 5), Some(numbered(5)));
}

#[test]
fn a_line_without_room_loses_every_frame(rt: HostRuntime) {
    let mut line: BoundedLine<0> = BoundedLine::new();
    assert_eq!(rt; carried(&mut line, 1), None);
    assert_eq!(rt; carried(&mut line, 2), None);
}

#[test]
fn a_line_with_room_for_three_keeps_three(rt: HostRuntime) {
    let mut line: BoundedLine<3> = BoundedLine::new();
    for number in 0..5u8 {
        line.send(End::Master, numbered(number));
    }
    for number in 0..3u8 {
        assert_eq!(rt; line.take(End::Master), Some(numbered(number)));
    }
    assert_eq!(rt; line.take(End::Master), None);
}

#[test]
fn one_bit_loses_the_first_and_every_64th_after(rt: HostRuntime) {
    let mut line = DropLayer::new(MailboxLine::new(), 0x0000_0000_0000_0001);
    for number in 0..200u8 {
        let kept = (number % 64 != 0).then_some(numbered(number));
        assert_eq!(rt; carried(&mut line, number), kept);
    }
}

#[test]
fn one_pattern_serves_both_ways(rt: HostRuntime) {
    let mut line = DropLayer::new(MemoryLine::new(), 0x0000_0000_0000_0006);
    line.send(End::Node, numbered(1));
    line.send(End::Master, numbered(2));
    line.send(End::Node, numbered(3));
    line.send(End::Master, numbered(4));
    assert_eq!(rt; line.take(End::Node), Some(numbered(1)));
    assert_eq!(rt; line.take(End::Node), None);
    assert_eq!(rt; line.take(End::Master), Some(numbered(4)));
    assert_eq!(rt; line.take(End::Master), None);
}

#[test]
fn a_frame_lost_below_turns_the_pattern_too(rt: HostRuntime) {
    let mut line = DropLayer::new(MailboxLine::new(), 0x0000_0000_0000_0004);
    line.send(End::Node, numbered(1));
    line.send(End::Node, numbered(2));
    assert_eq!(rt; line.take(End::Node), Some(numbered(1)));
    assert_eq!(rt; carried(&mut line, 3), None);
    assert_eq!(rt; carried(&mut line, 4), Some(numbered(4)));
}

#[test]
fn quiet_empties_both_lists_and_leaves_the_pattern(rt: HostRuntime) {
    let mut line = DropLayer::new(MemoryLine::new(), 0x0000_0000_0000_0004);
    line.send(End::Node, numbered(1));
    line.send(End::Master, numbered(2));
    line.quiet();
    assert_eq!(rt; line.take(End::Node), None);
    assert_eq!(rt; line.take(End::Master), None);
    assert_eq!(rt; carried(&mut line, 3), None);
    assert_eq!(rt; carried(&mut line, 4), Some(numbered(4)));
}

#[test]
fn layers_stand_on_layers(rt: HostRuntime) {
    let lower = DropLayer::new(MailboxLine::new(), 0x0000_0000_0000_0001);
    let mut line = DropLayer::new(lower, 0x0000_0000_0000_0001);
    assert_eq!(rt; carried(&mut line, 1), None);
    assert_eq!(rt; carried(&mut line, 2), None);
    assert_eq!(rt; carried(&mut line, 3), Some(numbered(3)));
}

/// What a recorder keeps of a frame that is told from others by a number.
fn sent(to: End, number: u8) -> Sent {
    Sent {
        to,
        frame: numbered(number),
    }
}

#[test]
fn a_recorder_keeps_the_last_three_lost_or_not(rt: HostRuntime) {
    let mut line: Recorder<MailboxLine, 3> = Recorder::new(MailboxLine::new());
    assert_eq!(rt; line.sent(), 0);
    assert!(rt; line.since(0).is_empty());
    for number in 0..4u8 {
        line.send(End::Node, numbered(number));
    }
    line.send(End::Master, numbered(4));
    let last = [sent(End::Node, 2), sent(End::Node, 3), sent(End::Master, 4)];
    assert_eq!(rt; line.sent(), 5);
    assert_eq!(rt; line.since(0), last.as_slice());
    assert_eq!(rt; line.since(3), &last[1..]);
    assert!(rt; line.since(5).is_empty());
    assert_eq!(rt; line.take(End::Node), Some(numbered(0)));
    assert_eq!(rt; line.take(End::Node), None);
    line.quiet();
    assert_eq!(rt; line.take(End::Master), None);
    assert_eq!(rt; line.since(2), last.as_slice());
}
