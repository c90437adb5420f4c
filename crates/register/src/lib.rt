//! The register of abort codes: the layer of the stack that each belongs to.
#![tactic(auto)]

mod layer;
mod register;
#[cfg(test)]
mod tests;

pub use layer::{Layer, layers_told_apart};
pub use register::layer_of;
