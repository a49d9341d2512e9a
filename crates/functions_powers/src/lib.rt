// Powers of a matrix.
#![tactic(auto)]

mod calls;
pub mod exponent;
mod power;
mod whole;

pub use calls::{powm, powm_with};
