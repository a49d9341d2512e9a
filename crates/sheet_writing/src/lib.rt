// A sheet made from its sections: the order and its matrix, directions, exponents and tasks.
#![tactic(auto)]

mod bytes;
mod questions;
mod sections;
mod write;

pub use sections::Sections;
pub use write::write_sheet;
