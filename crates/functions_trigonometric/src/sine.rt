// The sine of the matrix X of order n in slot 0, which takes its place. The cosine stands in slot 4, X3, X5 and X7, powers of X, in slots 2, 3 and 5.
ghost use Rattle.std.specs.Prelude.{◌≡◌, ◌≤◌, [], ◌∷◌};
ghost use Rattle.arithmetic_matrices.specs.Workspace.{Room, slot};
ghost use Rattle.arithmetic_questions.specs.Kernels.{Replaced};
ghost use Rattle.arithmetic_questions.specs.Reports.{nothing, report_at};
ghost use Rattle.functions_definitions.specs.Trigonometric.{sin_m};
ghost use Rattle.functions_trigonometric.specs.Kernels.{OddPowers, Seventh, BothSeries, BothDoubled, BothAfter, SineRun};

use crate::cosine::{cosine_beside, double, one_over, trigonometric_halvings};
use arithmetic_floats::real::Real;
use arithmetic_matrices::workspace::{accumulate, deduct, minus_identity, mult, scale};
use arithmetic_questions::answer::{Answer, done, refused};

// The odd powers of X, by X2 in slot 1.
pub fn odd_powers<T: Real>(w: &mut [T], n: usize)
    requires { Room n (T.floats w.old) }
    ensures { OddPowers T.format n (T.floats w.old) (T.floats w.new) }
{
    mult(w, 1, 0, 2, n);
    mult(w, 2, 1, 3, n);
    mult(w, 3, 1, 5, n);
}

// The terms of the odd powers are added to X.
pub fn sine_to_7<T: Real>(w: &mut [T], n: usize)
    requires { Room n (T.floats w.old) }
    ensures { Seventh T.format n (T.floats w.old) (T.floats w.new) }
{
    deduct(w, 0, 2, one_over(6), n);
    accumulate(w, 0, 3, one_over(120), n);
    deduct(w, 0, 5, one_over(5040), n);
}

// The sine takes the place of X, and the cosine stands beside it.
pub fn sine_and_cosine<T: Real>(w: &mut [T], n: usize)
    requires { Room n (T.floats w.old) }
    ensures { BothSeries T.format n (T.floats w.old) (T.floats w.new) }
{
    cosine_beside(w, n);
    odd_powers(w, n);
    sine_to_7(w, n);
}

// Sine and cosine become those of the double angle, 2 S C and 2 C C - I: the sine first, by the cosine that is not doubled yet.
pub fn double_angle<T: Real>(w: &mut [T], n: usize)
    requires { Room n (T.floats w.old) }
    ensures { BothDoubled T.format n (T.floats w.old) (T.floats w.new) }
{
    double(w, 0, n);
    double(w, 4, n);
    minus_identity(w, 4, n);
}

// The same s times.
// Not one with `double_cosines` over a closure: its contract would have to say what each call of the closure leaves.
pub fn double_both<T: Real>(w: &mut [T], n: usize, s: u64)
    requires { Room n (T.floats w.old) }
    ensures { BothAfter T.format n (T.floats w.old) s (T.floats w.new) }
{
    for i in 0..s {
        double_angle(w, n);
    }
}

// The sine of the matrix in slot 0 at s halvings takes its place.
pub fn sine_at<T: Real>(w: &mut [T], n: usize, s: u64)
    requires room { Room n (T.floats w.old) }
    requires s_bound { s ≤ 64 }
    ensures { SineRun T.format n s (T.floats w.old) (T.floats w.new) }
{
    scale(w, 0, T::inverse_power_of_two(s), n);
    sine_and_cosine(w, n);
    double_both(w, n, s);
}

// The sine of the matrix in slot 0 takes its place.
// Not one with `cosm_in` over a closure: its contract would have to say what each call of the closure leaves.
pub fn sinm_in<T: Real>(w: &mut [T], n: usize) -> Answer
    requires { Room n (T.floats w.old) }
    ensures replaced { Replaced (0 ∷ 1 ∷ 2 ∷ 3 ∷ 4 ∷ 5 ∷ []) n (sin_m T.format n (slot n (T.floats w.old) 0)) result.outcome (T.floats w.old) (T.floats w.new) }
    ensures report_value { result.report ≡ report_at (sin_m T.format n (slot n (T.floats w.old) 0)) nothing }
{
    match trigonometric_halvings(w, n) {
        Err(why) => refused(why),
        Ok(halvings) => {
            sine_at(w, n, halvings);
            done(halvings)
        }
    }
}
