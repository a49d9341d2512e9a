// What callers of the layers above meet of this one: the widths of floats, answers, and the bits of a number of either width. This crate is the face of the
// crates arithmetic_*.
#![tactic(auto)]

pub use arithmetic_floats::double::{bits_of, float_of};
pub use arithmetic_floats::real::Real;
pub use arithmetic_floats::root::sqrt;
pub use arithmetic_floats::single;
pub use arithmetic_questions::answer::{Answer, Outcome, Refusal, Report, smallest_bits};
