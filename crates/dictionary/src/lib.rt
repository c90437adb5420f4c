//! Object dictionaries: what every dictionary promises, and the table that holds its values in memory.
#![tactic(auto)]

mod access;
mod attributes;
mod front;
mod laws;
mod readable;
mod refusal;
mod row;
mod samples;
mod starting;
mod table;
mod writable;

pub use access::Access;
pub use attributes::Attributes;
pub use front::copy_to_front;
pub use laws::{dictionary_laws, multiplexors_ordered};
pub use readable::Readable;
pub use refusal::{AddRefusal, CopyRefusal};
pub use samples::sample;
pub use starting::check_start;
pub use table::Table;
pub use writable::Writable;
