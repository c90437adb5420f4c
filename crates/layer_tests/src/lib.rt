//! Layers over any dictionary and any line, and one owner of both: proved for all of them, and run over some.
#![tactic(auto)]

mod handing_dictionary;
mod handing_line;
#[cfg(test)]
mod layer_tests;
mod station;

pub use handing_dictionary::HandingDictionary;
pub use handing_line::HandingLine;
pub use station::Station;
