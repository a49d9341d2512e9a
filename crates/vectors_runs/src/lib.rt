// Recorded calls, run in either width.
#![tactic(auto)]

pub mod function_calls;
pub mod lu_calls;
pub mod roots;
