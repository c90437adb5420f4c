//! Tests of frames and messages on examples: each is proved, and then run.
#![tactic(auto)]

#[cfg(test)]
mod frame_tests;
#[cfg(test)]
mod message_tests;
