// What a sheet is made of.

// The counts of the four sections, each with what it counts. Numbers are given as their 64 bits, tasks as codes and indices.
#[derive(Clone, Copy)]
pub struct Sections<'a> {
    pub order: usize,
    pub matrix: &'a [u64],
    pub directions: usize,
    pub direction: &'a [u64],
    pub exponents: usize,
    pub exponent: &'a [u64],
    pub tasks: usize,
    pub task: &'a [u8],
}
