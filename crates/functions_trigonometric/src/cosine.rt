// The cosine of the matrix X of order n in slot 0: X2, X4 and X6, powers of X, stand in slots 1, 2 and 3, and the cosine in slot 4.
ghost use Rattle.std.specs.Prelude.{◌≡◌, ◌<◌, ◌≤◌, false, [], ◌∷◌, T as Holds, eqb};
ghost use Rattle.std.specs.Float.Ieee.{add};
ghost use Rattle.arithmetic_floats.specs.Float.{one};
ghost use Rattle.arithmetic_matrices.specs.Norm.{norm1};
ghost use Rattle.arithmetic_matrices.specs.Workspace.{Room, slot, member};
ghost use Rattle.arithmetic_questions.specs.Answers.{reported};
ghost use Rattle.arithmetic_questions.specs.Kernels.{Replaced};
ghost use Rattle.arithmetic_questions.specs.Reports.{nothing, report_at};
ghost use Rattle.functions_definitions.specs.Powers.{halvings_report};
ghost use Rattle.functions_definitions.specs.Trigonometric.{one_over, cos_m};
ghost use Rattle.functions_trigonometric.specs.Kernels.{reciprocals, EvenPowers, Sixth, Beside, Eighth, Doubled, CosineDoubled, CosineAfter, CosineRun};

use arithmetic_floats::real::Real;
use arithmetic_matrices::norm::norm_1;
use arithmetic_matrices::workspace::{
    accumulate, copy, deduct, identity, minus_identity, mult, scale, times,
};
use arithmetic_questions::answer::{Answer, Outcome, done, refused};
use functions_exponential::halvings::halvings_for;

// The rounded reciprocal of k, one of those that the series take.
pub fn one_over<T: Real>(k: usize) -> T
    requires { Holds (member reciprocals k) }
    ensures { T.float result ≡ one_over T.format k }
{
    T::ONE / T::of_small(k)
}

// The even powers of X.
pub fn even_powers<T: Real>(w: &mut [T], n: usize)
    requires { Room n (T.floats w.old) }
    ensures { EvenPowers T.format n (T.floats w.old) (T.floats w.new) }
{
    mult(w, 0, 0, 1, n);
    mult(w, 1, 1, 2, n);
    mult(w, 2, 1, 3, n);
}

// The terms to X6 are summed from the even powers.
pub fn cosine_to_6<T: Real>(w: &mut [T], n: usize)
    requires { Room n (T.floats w.old) }
    ensures { Sixth T.format n (T.floats w.old) (T.floats w.new) }
{
    identity(w, 4, n);
    deduct(w, 4, 1, one_over(2), n);
    accumulate(w, 4, 2, one_over(24), n);
    deduct(w, 4, 3, one_over(720), n);
}

// The same from X itself.
pub fn cosine_beside<T: Real>(w: &mut [T], n: usize)
    requires { Room n (T.floats w.old) }
    ensures { Beside T.format n (T.floats w.old) (T.floats w.new) }
{
    even_powers(w, n);
    cosine_to_6(w, n);
}

// The terms to X8. X is not kept.
pub fn cosine_to_8<T: Real>(w: &mut [T], n: usize)
    requires { Room n (T.floats w.old) }
    ensures { Eighth T.format n (T.floats w.old) (T.floats w.new) }
{
    cosine_beside(w, n);
    mult(w, 3, 1, 0, n);
    accumulate(w, 4, 0, one_over(40320), n);
}

// Slot c becomes 2 times its product with the cosine in slot 4. Slot 1 is scratch.
pub fn double<T: Real>(w: &mut [T], c: usize, n: usize)
    requires room { Room n (T.floats w.old) }
    requires c_bound { (c < 32) × (eqb c 1 ≡ false) }
    ensures { Doubled T.format n c (T.floats w.old) (T.floats w.new) }
{
    mult(w, c, 4, 1, n);
    times(w, 1, c, T::power_of_two(1), n);
}

// The cosine becomes that of the double angle, 2 C C - I.
pub fn double_cosine<T: Real>(w: &mut [T], n: usize)
    requires { Room n (T.floats w.old) }
    ensures { CosineDoubled T.format n (T.floats w.old) (T.floats w.new) }
{
    double(w, 4, n);
    minus_identity(w, 4, n);
}

// The same s times.
pub fn double_cosines<T: Real>(w: &mut [T], n: usize, s: u64)
    requires { Room n (T.floats w.old) }
    ensures { CosineAfter T.format n (T.floats w.old) s (T.floats w.new) }
{
    for i in 0..s {
        double_cosine(w, n);
    }
}

// The cosine of the matrix in slot 0 at s halvings takes its place.
pub fn cosine_at<T: Real>(w: &mut [T], n: usize, s: u64)
    requires room { Room n (T.floats w.old) }
    requires s_bound { s ≤ 64 }
    ensures { CosineRun T.format n s (T.floats w.old) (T.floats w.new) }
{
    scale(w, 0, T::inverse_power_of_two(s), n);
    cosine_to_8(w, n);
    double_cosines(w, n, s);
    copy(w, 4, 0, n);
}

// The halvings that 1 more than the norm of the matrix in slot 0 sets, or refusal 12 or 17.
pub fn trigonometric_halvings<T: Real>(w: &[T], n: usize) -> Outcome
    requires { Room n (T.floats w.now) }
    ensures { reported result ≡ halvings_report (add T.format (norm1 T.format n (slot n (T.floats w.now) 0)) one) }
{
    halvings_for(norm_1(w, 0, n) + T::ONE)
}

// The cosine of the matrix in slot 0 takes its place.
pub fn cosm_in<T: Real>(w: &mut [T], n: usize) -> Answer
    requires { Room n (T.floats w.old) }
    ensures replaced { Replaced (0 ∷ 1 ∷ 2 ∷ 3 ∷ 4 ∷ []) n (cos_m T.format n (slot n (T.floats w.old) 0)) result.outcome (T.floats w.old) (T.floats w.new) }
    ensures report_value { result.report ≡ report_at (cos_m T.format n (slot n (T.floats w.old) 0)) nothing }
{
    match trigonometric_halvings(w, n) {
        Err(why) => refused(why),
        Ok(halvings) => {
            cosine_at(w, n, halvings);
            done(halvings)
        }
    }
}
