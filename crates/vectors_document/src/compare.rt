// What the lines compare beside numbers by their bits.
ghost use Rattle.std.specs.Prelude.{◌<◌};

use arithmetic::{Outcome, Refusal};
use vectors_recorded::same;

// What each number of an output holds before a call.
pub const LENT: f64 = 7.0;

// What each number of a workspace holds before a call.
pub const LENT_ROOM: f64 = 5.0;

// What each byte of room for a sheet's lines holds before a call.
pub const LENT_BYTE: u8 = 1;

// Whether a call is done, without halvings.
pub fn is_done(outcome: Outcome) -> bool {
    matches!(outcome, Ok(0))
}

// Whether a call is refused by 13.
pub fn is_not_converged(outcome: Outcome) -> bool {
    matches!(outcome, Err(Refusal::NotConverged))
}

// Whether x is the identity of order n.
pub fn is_identity(x: &[f64], n: usize) -> bool
    requires { 0 < n }
{
    x.iter().enumerate().all(|(i, number)| same(*number, if i / n == i % n { 1.0 } else { 0.0 }))
}
