//! The table of cases, row by row.
use crate::cases::CASES;
use crate::setup::Setup;
use std::test::Fail;

#[test]
fn each_case_goes_as_it_should() -> Result<(), Fail> {
    for case in &CASES {
        if !Setup::in_state(&case.state)?.goes(case.turns)? {
            return Err(Fail::new(case.name));
        }
    }
    Ok(())
}
