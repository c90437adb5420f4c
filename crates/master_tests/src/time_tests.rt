//! Time-out, giving up and rest.
use crate::runs::*;
use master::{Heard, Master, Method};
use std::process::Abort;
use std::test::Fail;
use wire::AbortCode;

/// Lets some ticks pass, and checks that none of them ends a transfer or quiets the line.
fn pass(rt: &impl Abort, master: &mut Master, ticks: u8) {
    for _ in 0..ticks {
        let tick = master.tick();
        assert!(rt; !tick.ended && !tick.sending.quiet);
    }
}

#[test]
fn the_tenth_tick_ends_a_transfer(rt: HostRuntime) -> Result<(), Fail> {
    let mut master = writing(Method::Expedited, &[1])?;
    pass(&rt, &mut master, 9);
    assert!(rt; master.hear(None).heard == Heard::NothingWaited);
    let tick = master.tick();
    assert!(rt; tick.ended);
    check_abort(&rt, tick.sending, AbortCode::TimedOut)?;
    check_failed(&rt, &master, AbortCode::TimedOut)?;
    assert!(rt; failure(&master)?.may_be_set);
    Ok(())
}

#[test]
fn an_answer_starts_the_count_again(rt: HostRuntime) -> Result<(), Fail> {
    let mut master = writing(Method::Segmented, &DIGITS)?;
    pass(&rt, &mut master, 9);
    let taken = [0x60, 1, 0x20, 0, 0, 0, 0, 0];
    assert!(rt; hear(&mut master, taken).heard == Heard::Sent);
    pass(&rt, &mut master, 9);
    assert!(rt; master.tick().ended);
    let failure = failure(&master)?;
    assert!(rt; failure.segment == 1 && !failure.may_be_set);
    Ok(())
}

#[test]
fn a_master_rests_for_30_ticks(rt: HostRuntime) -> Result<(), Fail> {
    let mut master = reading()?;
    let sending = master.give_up();
    check_abort(&rt, sending, AbortCode::GeneralError)?;
    check_failed(&rt, &master, AbortCode::GeneralError)?;
    master.clear();
    pass(&rt, &mut master, 29);
    assert!(rt; u8::from(refusal(master.begin_read(PLACE))?) == 2);
    assert!(rt; master.tick().sending.quiet);
    assert!(rt; master.begin_read(PLACE).is_ok());
    Ok(())
}

#[test]
fn giving_up_needs_an_open_transfer(rt: HostRuntime) -> Result<(), Fail> {
    let mut master = writing(Method::Expedited, &[1])?;
    check_done(&rt, &mut master, [0x60, 1, 0x20, 0, 0, 0, 0, 0])?;
    let sending = master.give_up();
    assert!(rt; !sending.quiet);
    check_frames(&rt, sending.frames, &[])?;
    master.clear();
    assert!(rt; master.begin_read(PLACE).is_ok());
    Ok(())
}

#[test]
fn an_open_transfer_is_not_cleared(rt: HostRuntime) -> Result<(), Fail> {
    let mut master = reading()?;
    master.clear();
    assert!(rt; master.begin_read(PLACE).is_err());
    Ok(())
}
