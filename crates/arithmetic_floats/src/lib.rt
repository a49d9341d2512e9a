// Floats of both widths, one by one, and the square root.
#![tactic(auto)]

pub mod compare;
pub mod double;
pub mod float;
pub mod real;
pub mod root;
pub mod single;
