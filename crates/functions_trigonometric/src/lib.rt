// Cosine and sine of a matrix.
#![tactic(auto)]

mod calls;
mod cosine;
mod sine;

pub use calls::{cosm, cosm_with, sinm, sinm_with};
