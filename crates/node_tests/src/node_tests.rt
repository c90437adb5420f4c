//! What no frame to the node shows.
use crate::setup::{Setup, is_reply};
use node::Served;
use std::test::Fail;

#[test]
fn a_node_tells_its_number_and_its_commits(rt: HostRuntime) -> Result<(), Fail> {
    let mut setup = Setup::new(127);
    let reaction = setup.serve(0x605, 0x2b_002001_e8030000)?;
    assert!(rt; reaction.served == Served::Committed);
    assert!(rt; setup.node.commits() == 1 && setup.node.is_idle());
    assert!(rt; setup.node.number().number() == 5);
    Ok(())
}

#[test]
fn foreign_frames_are_dropped(rt: HostRuntime) -> Result<(), Fail> {
    let mut setup = Setup::new(127);
    for identifier in [0x606, 0x585, 0x5, 0] {
        let reaction = setup.serve(identifier, 0x2b_002001_e8030000)?;
        assert!(rt; reaction.served == Served::Dropped);
        assert!(rt; is_reply(reaction.reply, None));
    }
    assert!(rt; setup.node.commits() == 0);
    Ok(())
}

#[test]
fn nothing_waits(rt: HostRuntime) {
    let mut setup = Setup::new(127);
    let reaction = setup.node.serve(&mut setup.table, None);
    assert!(rt; reaction.served == Served::NothingWaited);
    assert!(rt; is_reply(reaction.reply, None));
}
