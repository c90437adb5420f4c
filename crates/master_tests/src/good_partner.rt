//! Transfers with a partner that does all as it should.
use crate::runs::*;
use master::{Heard, Method};
use std::test::Fail;
use wire::Multiplexor;

#[test]
fn the_ramp_is_set(rt: HostRuntime) -> Result<(), Fail> {
    let mut master = fresh();
    let ramp = Multiplexor {
        index: 0x2000,
        subindex: 1,
    };
    let begun = begun(master.begin_write(Method::Expedited, ramp, &[0xe8, 3]))?;
    assert!(rt; begun.number == 1 && begun.sending.quiet);
    check_frames(
        &rt,
        begun.sending.frames,
        &[[0x2b, 0, 0x20, 1, 0xe8, 3, 0, 0]],
    )?;
    check_done(&rt, &mut master, [0x60, 0, 0x20, 1, 0, 0, 0, 0])
}

#[test]
fn the_name_is_read(rt: HostRuntime) -> Result<(), Fail> {
    let mut master = fresh();
    let name = Multiplexor {
        index: 0x1008,
        subindex: 0,
    };
    let begun = begun(master.begin_read(name))?;
    check_frames(&rt, begun.sending.frames, &[[0x40, 8, 0x10, 0, 0, 0, 0, 0]])?;
    check_goes_on(
        &rt,
        &mut master,
        [0x41, 8, 0x10, 0, 6, 0, 0, 0],
        [0x60, 0, 0, 0, 0, 0, 0, 0],
    )?;
    check_done(&rt, &mut master, [3, 0x6c, 0x6f, 0x61, 0x64, 0x65, 0x72, 0])?;
    assert!(rt; master.value() == b"loader".as_slice());
    Ok(())
}

#[test]
fn a_short_value_is_read_at_once(rt: HostRuntime) -> Result<(), Fail> {
    let mut master = reading()?;
    check_done(&rt, &mut master, [0x4b, 1, 0x20, 0, 0xe8, 3, 0, 0])?;
    assert!(rt; master.value() == [0xe8, 3].as_slice());
    Ok(())
}

#[test]
fn digits_are_read_in_segments(rt: HostRuntime) -> Result<(), Fail> {
    let mut master = reading_segments(9)?;
    check_goes_on(
        &rt,
        &mut master,
        [0, 0x31, 0x32, 0x33, 0x34, 0x35, 0x36, 0x37],
        [0x70, 0, 0, 0, 0, 0, 0, 0],
    )?;
    check_done(&rt, &mut master, [0x1b, 0x38, 0x39, 0, 0, 0, 0, 0])?;
    assert!(rt; master.value() == DIGITS.as_slice());
    Ok(())
}

#[test]
fn digits_go_in_segments(rt: HostRuntime) -> Result<(), Fail> {
    let mut master = writing(Method::Segmented, &DIGITS)?;
    check_goes_on(
        &rt,
        &mut master,
        [0x60, 1, 0x20, 0, 0, 0, 0, 0],
        [0, 0x31, 0x32, 0x33, 0x34, 0x35, 0x36, 0x37],
    )?;
    check_goes_on(
        &rt,
        &mut master,
        [0x20, 0, 0, 0, 0, 0, 0, 0],
        [0x1b, 0x38, 0x39, 0, 0, 0, 0, 0],
    )?;
    check_done(&rt, &mut master, [0x30, 0, 0, 0, 0, 0, 0, 0])
}

#[test]
fn a_block_write_starts_with_size_and_crc(rt: HostRuntime) -> Result<(), Fail> {
    let mut master = fresh();
    let begun = begun(master.begin_write(Method::Block, PLACE, &DIGITS))?;
    check_frames(&rt, begun.sending.frames, &[[0xc6, 1, 0x20, 0, 9, 0, 0, 0]])
}

#[test]
fn digits_go_by_block(rt: HostRuntime) -> Result<(), Fail> {
    let mut master = writing(Method::Block, &DIGITS)?;
    let hearing = hear(&mut master, [0xa4, 1, 0x20, 0, 127, 0, 0, 0]);
    assert!(rt; hearing.heard == Heard::Sent);
    let first = [1, 0x31, 0x32, 0x33, 0x34, 0x35, 0x36, 0x37];
    let second = [0x82, 0x38, 0x39, 0, 0, 0, 0, 0];
    check_frames(&rt, hearing.sending.frames, &[first, second])?;
    let end = [0xd5, 0xc3, 0x31, 0, 0, 0, 0, 0];
    check_goes_on(&rt, &mut master, [0xa2, 2, 127, 0, 0, 0, 0, 0], end)?;
    check_done(&rt, &mut master, [0xa1, 0, 0, 0, 0, 0, 0, 0])
}

#[test]
fn a_lost_segment_is_sent_again(rt: HostRuntime) -> Result<(), Fail> {
    let mut master = writing_block()?;
    check_goes_on(
        &rt,
        &mut master,
        [0xa2, 1, 127, 0, 0, 0, 0, 0],
        [0x81, 0x38, 0x39, 0, 0, 0, 0, 0],
    )
}

#[test]
fn without_an_offer_the_crc_is_zero(rt: HostRuntime) -> Result<(), Fail> {
    let mut master = writing(Method::Block, &DIGITS)?;
    let _ = hear(&mut master, [0xa0, 1, 0x20, 0, 127, 0, 0, 0]);
    check_goes_on(
        &rt,
        &mut master,
        [0xa2, 2, 127, 0, 0, 0, 0, 0],
        [0xd5, 0, 0, 0, 0, 0, 0, 0],
    )
}
