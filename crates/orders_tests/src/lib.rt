//! Tests of orders as text on examples: each is proved, and then run.
#![tactic(auto)]

#[cfg(test)]
mod order_tests;
