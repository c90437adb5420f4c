//! Tests of lines and their layers on examples: each is proved, and then run.
#![tactic(auto)]

#[cfg(test)]
mod line_tests;
