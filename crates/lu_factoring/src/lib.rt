// LU factoring with partial pivoting.
#![tactic(auto)]

pub mod factor;
pub mod part;
pub mod pivots;
pub mod room;
pub mod swap;

// The column that factoring a matrix refused.
#[derive(Clone, Copy)]
pub struct Singular {
    pub column: usize,
}
