// The part of two lent slices that holds an answer.
ghost use Rattle.std.specs.Prelude.{◌≡◌, ◌≤◌, length, take};
ghost use Rattle.lu_factoring.specs.Solve.{stand_in};

use crate::Singular;
use arithmetic_floats::real::Real;

// The first `count` numbers of the quotient, or of the numerator where LU refused the denominator.
pub fn quotient_or_numerator<'a, T: Real>(
    quotient: &'a [T],
    numerator: &'a [T],
    count: usize,
    outcome: Result<(), Singular>,
) -> &'a [T]
    requires { (count ≤ length quotient.now) × (count ≤ length numerator.now) }
    ensures { T.floats result.now ≡ take count (stand_in outcome (T.floats quotient.now) (T.floats numerator.now)) }
{
    match outcome {
        Ok(()) => &quotient[..count],
        Err(_) => &numerator[..count],
    }
}
