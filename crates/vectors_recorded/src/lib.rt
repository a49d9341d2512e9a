// Reading recorded vectors and comparing calls with them: what programs that run calls share.
#![tactic(auto)]

pub mod call;
pub mod ending;
pub mod input;
pub mod outcome;
pub mod reader;
pub mod run;
pub mod tally;
pub mod told;
pub mod width;

use crate::width::Width;

// Whether x and y have the same bits; every NaN has the same.
pub fn same<T: Width>(x: T, y: T) -> bool {
    x.bits() == y.bits()
}

// Whether x has these bits; every NaN has the same.
pub fn has_bits<T: Width>(x: T, bits: u64) -> bool {
    same(x, T::of_bits(bits))
}

// Whether every number of x is y.
pub fn are_all<T: Width>(x: &[T], y: T) -> bool {
    x.iter().all(|number| same(*number, y))
}

// Whether the first numbers of w, `cleared` of them, are +0 and the others are `lent`.
pub fn is_cleared<T: Width>(w: &[T], cleared: usize, lent: T) -> bool {
    let (first, others) = w.split_at(cleared.min(w.len()));
    are_all(first, T::ZERO) && are_all(others, lent)
}
