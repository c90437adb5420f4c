//! What a master begins, and what it refuses.
use crate::runs::*;
use master::{BeginRefusal, Method};
use std::process::Abort;
use std::test::Fail;

/// Checks that a write of a value is refused by a number.
fn check_refused(rt: &impl Abort, method: Method, value: &[u8], number: u8) -> Result<(), Fail> {
    let refusal = refusal(fresh().begin_write(method, PLACE, value))?;
    assert!(rt; u8::from(refusal) == number);
    Ok(())
}

#[test]
fn a_value_has_1_to_1024_bytes(rt: HostRuntime) -> Result<(), Fail> {
    let master = writing(Method::Segmented, &[7; 1024])?;
    assert!(rt; master.value().len() == 1024);
    check_refused(&rt, Method::Segmented, &[7; 1025], 4)?;
    check_refused(&rt, Method::Block, &[], 4)
}

#[test]
fn four_bytes_go_at_once(rt: HostRuntime) -> Result<(), Fail> {
    assert!(rt; writing(Method::Expedited, &[1, 2, 3, 4])?.value() == [1, 2, 3, 4].as_slice());
    check_refused(&rt, Method::Expedited, &[1, 2, 3, 4, 5], 5)?;
    check_refused(&rt, Method::Expedited, &[7; 1025], 4)
}

#[test]
fn one_transfer_at_a_time(rt: HostRuntime) -> Result<(), Fail> {
    let mut master = reading()?;
    assert!(rt; refusal(master.begin_read(PLACE))? == BeginRefusal::NotCleared);
    check_done(&rt, &mut master, [0x43, 1, 0x20, 0, 1, 2, 3, 4])?;
    assert!(rt; u8::from(refusal(master.begin_read(PLACE))?) == 1);
    master.clear();
    assert!(rt; begun(master.begin_read(PLACE))?.number == 2);
    Ok(())
}
