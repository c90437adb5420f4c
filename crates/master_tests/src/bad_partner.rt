//! Frames that a correct partner never sends.
use crate::runs::*;
use master::{Finder, Heard, Method};
use std::test::Fail;
use wire::{AbortCode, Frame, Identifier, NodeNumber};

#[test]
fn a_read_needs_its_toggle(rt: HostRuntime) -> Result<(), Fail> {
    let mut master = reading_segments(9)?;
    let segment = [0x10, 0x31, 0x32, 0x33, 0x34, 0x35, 0x36, 0x37];
    check_found(&rt, &mut master, segment, AbortCode::ToggleNotAlternated)
}

#[test]
fn a_write_needs_its_toggle(rt: HostRuntime) -> Result<(), Fail> {
    let mut master = writing(Method::Segmented, &DIGITS)?;
    let _ = hear(&mut master, [0x60, 1, 0x20, 0, 0, 0, 0, 0]);
    let taken = [0x30, 0, 0, 0, 0, 0, 0, 0];
    check_found(&rt, &mut master, taken, AbortCode::ToggleNotAlternated)
}

#[test]
fn a_start_needs_its_multiplexor(rt: HostRuntime) -> Result<(), Fail> {
    let mut master = writing(Method::Expedited, &[1])?;
    let other = [0x60, 2, 0x20, 0, 0, 0, 0, 0];
    check_found(&rt, &mut master, other, AbortCode::UnknownCommand)?;
    let mut master = reading()?;
    let other = [0x43, 1, 0x20, 1, 0, 0, 0, 0];
    check_found(&rt, &mut master, other, AbortCode::UnknownCommand)?;
    let mut master = writing(Method::Segmented, &DIGITS)?;
    let other = [0x60, 1, 0x20, 1, 0, 0, 0, 0];
    check_found(&rt, &mut master, other, AbortCode::UnknownCommand)?;
    let mut master = writing(Method::Block, &DIGITS)?;
    let other = [0xa4, 1, 0x21, 0, 127, 0, 0, 0];
    check_found(&rt, &mut master, other, AbortCode::UnknownCommand)
}

#[test]
fn only_the_awaited_kind_is_taken(rt: HostRuntime) -> Result<(), Fail> {
    for (awaited, kind) in ALL_AWAITED {
        for command in [0, 0x20, 0x43, 0x60, 0xa0, 0xa1, 0xa2, 0xa3, 0xc0, 0xe0] {
            if command != kind {
                let mut master = awaiting(awaited)?;
                let other = [command, 1, 0x20, 0, 1, 0, 0, 0];
                check_found(&rt, &mut master, other, AbortCode::UnknownCommand)?;
            }
        }
    }
    Ok(())
}

#[test]
fn a_size_has_to_be_one_of_a_value(rt: HostRuntime) -> Result<(), Fail> {
    let mut master = reading()?;
    let none = [0x41, 1, 0x20, 0, 0, 0, 0, 0];
    check_found(&rt, &mut master, none, AbortCode::OutOfMemory)?;
    let mut master = reading()?;
    let above = [0x41, 1, 0x20, 0, 1, 4, 0, 0];
    check_found(&rt, &mut master, above, AbortCode::OutOfMemory)
}

#[test]
fn a_total_has_to_be_the_size(rt: HostRuntime) -> Result<(), Fail> {
    let mut master = reading_segments(6)?;
    let five = [5, 0x31, 0x32, 0x33, 0x34, 0x35, 0, 0];
    check_found(&rt, &mut master, five, AbortCode::LengthMismatch)?;
    let mut master = reading_segments(6)?;
    let seven = [1, 0x31, 0x32, 0x33, 0x34, 0x35, 0x36, 0x37];
    check_found(&rt, &mut master, seven, AbortCode::LengthMismatch)?;
    let mut master = reading_segments(6)?;
    let none = [0x0f, 0, 0, 0, 0, 0, 0, 0];
    check_found(&rt, &mut master, none, AbortCode::OutOfMemory)
}

#[test]
fn a_read_has_to_stop_at_1024_bytes(rt: HostRuntime) -> Result<(), Fail> {
    let mut master = reading()?;
    let _ = hear(&mut master, [0x40, 1, 0x20, 0, 0, 0, 0, 0]);
    for _ in 0..73 {
        let _ = hear(&mut master, [0, 1, 2, 3, 4, 5, 6, 7]);
        let _ = hear(&mut master, [0x10, 1, 2, 3, 4, 5, 6, 7]);
    }
    assert!(rt; master.value().len() == 1022);
    let segment = [0, 1, 2, 3, 4, 5, 6, 7];
    check_found(&rt, &mut master, segment, AbortCode::OutOfMemory)?;
    assert!(rt; failure(&master)?.segment == 147);
    Ok(())
}

#[test]
fn a_block_size_is_1_to_127(rt: HostRuntime) -> Result<(), Fail> {
    for size in [0, 128, 255] {
        let mut master = writing(Method::Block, &DIGITS)?;
        let started = [0xa4, 1, 0x20, 0, size, 0, 0, 0];
        check_found(&rt, &mut master, started, AbortCode::InvalidBlockSize)?;
        let mut master = writing_block()?;
        let kept = [0xa2, 3, size, 0, 0, 0, 0, 0];
        check_found(&rt, &mut master, kept, AbortCode::InvalidBlockSize)?;
    }
    Ok(())
}

#[test]
fn no_more_is_kept_than_was_sent(rt: HostRuntime) -> Result<(), Fail> {
    let mut master = writing_block()?;
    let kept = [0xa2, 3, 127, 0, 0, 0, 0, 0];
    check_found(&rt, &mut master, kept, AbortCode::InvalidSequenceNumber)?;
    let failure = failure(&master)?;
    assert!(rt; failure.segment == 2 && !failure.may_be_set);
    Ok(())
}

#[test]
fn the_ninth_short_sub_block_ends_it(rt: HostRuntime) -> Result<(), Fail> {
    let mut master = writing_block()?;
    let kept = [0xa2, 0, 127, 0, 0, 0, 0, 0];
    for _ in 0..8 {
        assert!(rt; hear(&mut master, kept).heard == Heard::Sent);
    }
    check_found(&rt, &mut master, kept, AbortCode::InvalidSequenceNumber)
}

#[test]
fn foreign_frames_are_dropped(rt: HostRuntime) -> Result<(), Fail> {
    let mut master = writing(Method::Expedited, &[1])?;
    let node = NodeNumber::nearest(6);
    let bytes = [0x60, 1, 0x20, 0, 0, 0, 0, 0];
    for identifier in [Identifier::of_answers(node), Identifier::of_requests(node)] {
        let hearing = master.hear(Some(Frame { identifier, bytes }));
        assert!(rt; hearing.heard == Heard::Dropped);
        check_frames(&rt, hearing.sending.frames, &[])?;
    }
    check_done(&rt, &mut master, bytes)
}

#[test]
fn a_late_answer_is_dropped(rt: HostRuntime) -> Result<(), Fail> {
    let mut master = writing(Method::Expedited, &[1])?;
    let taken = [0x60, 1, 0x20, 0, 0, 0, 0, 0];
    check_done(&rt, &mut master, taken)?;
    assert!(rt; hear(&mut master, taken).heard == Heard::Dropped);
    master.clear();
    assert!(rt; hear(&mut master, taken).heard == Heard::Dropped);
    assert!(rt; master.hear(None).heard == Heard::NothingWaited);
    Ok(())
}

#[test]
fn an_abort_ends_any_transfer(rt: HostRuntime) -> Result<(), Fail> {
    for (awaited, _) in ALL_AWAITED {
        for command in [0x80, 0x9f] {
            let mut master = awaiting(awaited)?;
            let hearing = hear(&mut master, [command, 0, 0, 0, 2, 0, 1, 6]);
            assert!(rt; hearing.heard == Heard::Over && hearing.sending.quiet);
            check_frames(&rt, hearing.sending.frames, &[])?;
            let failure = failure(&master)?;
            assert!(rt; failure.code == AbortCode::ReadOnly);
            assert!(rt; failure.finder == Finder::Node && !failure.may_be_set);
        }
    }
    Ok(())
}

#[test]
fn a_read_segment_may_have_no_bytes(rt: HostRuntime) -> Result<(), Fail> {
    let mut master = reading_segments(2)?;
    let none = [0x0e, 0, 0, 0, 0, 0, 0, 0];
    check_goes_on(&rt, &mut master, none, [0x70, 0, 0, 0, 0, 0, 0, 0])?;
    check_done(&rt, &mut master, [0x1b, 1, 2, 0, 0, 0, 0, 0])?;
    assert!(rt; master.value() == [1, 2].as_slice());
    Ok(())
}

#[test]
fn a_value_at_once_without_a_size_has_four_bytes(rt: HostRuntime) -> Result<(), Fail> {
    let mut master = reading()?;
    check_done(&rt, &mut master, [0x42, 1, 0x20, 0, 1, 2, 3, 4])?;
    assert!(rt; master.value() == [1, 2, 3, 4].as_slice());
    Ok(())
}
