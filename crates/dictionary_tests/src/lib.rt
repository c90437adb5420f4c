//! Tests of dictionaries on examples: each is proved, and then run.
#![tactic(auto)]

#[cfg(test)]
mod drive_tests;
#[cfg(test)]
mod search_tests;
#[cfg(test)]
mod table_tests;
