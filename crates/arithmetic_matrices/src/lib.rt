// Matrices of floats row by row in one slice: products, norms, and the workspace that matrices stand in.
#![tactic(auto)]

pub mod matrix;
pub mod norm;
pub mod product;
pub mod workspace;
