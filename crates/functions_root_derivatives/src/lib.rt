// The derivatives of the square root of a matrix.
#![tactic(auto)]

mod calls;
mod root_derivative;
mod sylvester;

pub use calls::{
    frechet_sqrtm, frechet_sqrtm_sylvester, frechet_sqrtm_sylvester_with, frechet_sqrtm_with,
};
