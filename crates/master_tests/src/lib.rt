//! Runs of a master, frame by frame: with a correct partner, with one that is not, and in time. Each is proved, and then run.
#![tactic(auto)]

#[cfg(test)]
mod bad_partner;
#[cfg(test)]
mod begin_tests;
#[cfg(test)]
mod good_partner;
#[cfg(test)]
mod runs;
#[cfg(test)]
mod time_tests;
