// A task of a sheet, from its code and index to its line.
#![tactic(auto)]

mod function;
mod task;

pub use task::{Sheet, run_task};
