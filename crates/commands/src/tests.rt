//! Benches as they are ordered, and the frames that their lines pass.
use crate::bench_order::BenchOrder;
use crate::device::DeviceKind;
use crate::line_order::{LineKind, LineOrder};
use master::Method;
use node::Served;
use wire::{LONGEST, Multiplexor};

/// An entry of the sample, of up to 1,024 bytes.
const TEXT: Multiplexor = Multiplexor {
    index: 0x2001,
    subindex: 0,
};

/// What a node does at last that is called for the start and for both segments of a block write, over a line that loses frames by a pattern.
fn last_served(kind: LineKind, pattern: u64) -> Served {
    let order = BenchOrder {
        node: 5,
        block_size: 127,
        line: LineOrder { kind, pattern },
        device: DeviceKind::Sample,
    };
    let mut session = order.session();
    let _ = session.begin_write(Method::Block, TEXT, b"parameter");
    let _ = session.serve();
    let _ = session.hear();
    let _ = session.serve();
    let last = session.serve();
    let _ = session.close(&mut [0; LONGEST]);
    last
}

#[test]
fn a_memory_line_holds_both_segments(rt: HostRuntime) {
    assert!(rt; last_served(LineKind::Memory, 0) == Served::Answered);
}

#[test]
fn a_mailbox_holds_the_first_alone(rt: HostRuntime) {
    assert!(rt; last_served(LineKind::Mailbox, 0) == Served::NothingWaited);
}

#[test]
fn a_pattern_loses_the_second_segment(rt: HostRuntime) {
    assert!(rt; last_served(LineKind::Memory, 0b1000) == Served::NothingWaited);
}
