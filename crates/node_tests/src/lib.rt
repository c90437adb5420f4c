//! Runs of frames at the sample node with number 5: the worked examples, and what a correct partner never sends.
#![tactic(auto)]

#[cfg(test)]
mod case_tests;
#[cfg(test)]
mod cases;
#[cfg(test)]
mod node_tests;
#[cfg(test)]
mod setup;
#[cfg(test)]
mod time_tests;
