//! Ticks.
use crate::cases::BLOCK_127;
use crate::setup::{Setup, Turn, is_reply};
use node::Served;
use std::process::Abort;
use std::test::Fail;

/// Checks that some ticks bring nothing.
fn check_silent(rt: &impl Abort, setup: &mut Setup, ticks: usize) -> Result<(), Fail> {
    for _ in 0..ticks {
        assert!(rt; setup.node.tick().is_none());
    }
    Ok(())
}

/// Checks that 24 ticks bring nothing to a node in a transfer.
fn check_patient(rt: &impl Abort, setup: &mut Setup) -> Result<(), Fail> {
    check_silent(rt, setup, 24)?;
    assert!(rt; !setup.node.is_idle());
    Ok(())
}

/// Checks that the next tick ends the transfer.
fn check_ends(rt: &impl Abort, setup: &mut Setup) -> Result<(), Fail> {
    assert!(rt; is_reply(setup.node.tick(), Some(0x80_012000_00000405)));
    assert!(rt; setup.node.is_idle());
    Ok(())
}

#[test]
fn the_25th_tick_ends_a_transfer(rt: HostRuntime) -> Result<(), Fail> {
    let mut setup = Setup::in_state(&BLOCK_127)?;
    check_patient(&rt, &mut setup)?;
    check_ends(&rt, &mut setup)?;
    check_silent(&rt, &mut setup, 1)
}

#[test]
fn a_dropped_segment_restarts_the_time(rt: HostRuntime) -> Result<(), Fail> {
    let mut setup = Setup::in_state(&BLOCK_127)?;
    check_patient(&rt, &mut setup)?;
    assert!(rt; setup.goes(&[Turn(0x02_000000_00000000, Served::Dropped, None)])?);
    check_patient(&rt, &mut setup)?;
    check_ends(&rt, &mut setup)
}

#[test]
fn a_foreign_frame_restarts_the_time(rt: HostRuntime) -> Result<(), Fail> {
    let mut setup = Setup::in_state(&BLOCK_127)?;
    check_patient(&rt, &mut setup)?;
    assert!(rt; setup.serve(0x606, 0)?.served == Served::Dropped);
    check_patient(&rt, &mut setup)?;
    check_ends(&rt, &mut setup)
}

#[test]
fn a_serve_that_finds_nothing_does_not_restart_the_time(rt: HostRuntime) -> Result<(), Fail> {
    let mut setup = Setup::in_state(&BLOCK_127)?;
    check_patient(&rt, &mut setup)?;
    assert!(rt; setup.node.serve(&mut setup.table, None).served == Served::NothingWaited);
    check_ends(&rt, &mut setup)
}

#[test]
fn an_idle_node_has_all_the_time(rt: HostRuntime) -> Result<(), Fail> {
    let mut setup = Setup::new(127);
    check_silent(&rt, &mut setup, 60)?;
    assert!(rt; setup.node.is_idle());
    Ok(())
}
