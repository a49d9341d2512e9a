// Whole powers of the matrix of order n in slot 0, by the exponent's bits from the lowest. The product stands in slot 1, and slot 2 is scratch.
ghost use Rattle.std.specs.Prelude.{◌≡◌, [], ◌∷◌, length};
ghost use Rattle.arithmetic_matrices.specs.Product.{identity_m};
ghost use Rattle.arithmetic_matrices.specs.Workspace.{Room, slot};
ghost use Rattle.arithmetic_questions.specs.Kernels.{Replaced};
ghost use Rattle.arithmetic_questions.specs.Reports.{report_at};
ghost use Rattle.lu_factoring.specs.Solve.{inverse};
ghost use Rattle.functions_definitions.specs.Roots.{or_not_converged};
ghost use Rattle.functions_definitions.specs.Powers.{whole_power, inverse_power};
ghost use Rattle.functions_definitions.specs.Reports.{lu_report, whole_report};
ghost use Rattle.functions_powers.specs.Kernels.{BitMultiplied, AllMultiplied, BitPowered};

use crate::exponent::{is_negative, size_of};
use arithmetic_floats::real::Real;
use arithmetic_matrices::workspace::{copy, identity, mult, square};
use arithmetic_questions::answer::{Answer, Refusal, done, refused};
use arithmetic_questions::report::factored;
use lu_factoring::room::pivot_room;
use lu_systems::workspace::invert;

// The product is multiplied by slot 0 where the lowest bit of `rest` is set.
fn multiply_bit<T: Real>(w: &mut [T], n: usize, rest: u64)
    requires { Room n (T.floats w.old) }
    ensures { BitMultiplied T.format n rest (T.floats w.old) (T.floats w.new) }
{
    if rest % 2 == 1 {
        mult(w, 1, 0, 2, n);
        copy(w, 2, 1, n);
    }
}

// The product, which begins as the identity, is multiplied by the powers whose bit of e is set. Slot 0 is squared from bit to bit, up to the last.
fn multiply_bits<T: Real>(w: &mut [T], n: usize, e: u64)
    requires room { Room n (T.floats w.old) }
    requires w_value { slot n (T.floats w.old) 1 ≡ identity_m n }
    ensures { AllMultiplied T.format n e (T.floats w.old) (T.floats w.new) }
{
    let mut rest = e;
    // The exponent is halved from turn to turn, so no range fits.
    while rest > 1 {
        multiply_bit(w, n, rest);
        square(w, 0, 2, n, 1);
        rest = rest / 2;
    }
    multiply_bit(w, n, rest);
}

// The power e of the matrix in slot 0 takes its place.
pub fn bit_power<T: Real>(w: &mut [T], n: usize, e: u64)
    requires { Room n (T.floats w.old) }
    ensures { BitPowered T.format n e (T.floats w.old) (T.floats w.new) }
{
    identity(w, 1, n);
    multiply_bits(w, n, e);
    copy(w, 1, 0, n);
}

// The inverse of the matrix in slot 0 takes its place. `pivots` is room for n pivots.
fn take_inverse<T: Real>(w: &mut [T], n: usize, pivots: &mut [usize]) -> Answer
    requires room { Room n (T.floats w.old) }
    requires pivots_len { length pivots.old ≡ n }
    ensures replaced { Replaced (0 ∷ 1 ∷ []) n (or_not_converged (inverse T.format n (slot n (T.floats w.old) 0))) result.outcome (T.floats w.old) (T.floats w.new) }
    ensures report_value { result.report ≡ report_at (or_not_converged (inverse T.format n (slot n (T.floats w.old) 0))) (lu_report T.format n (slot n (T.floats w.old) 0)) }
{
    let d = invert(w, 0, 1, n, pivots);
    let outcome = d.outcome;
    match outcome {
        Err(_) => refused(Refusal::NotConverged),
        Ok(()) => {
            copy(w, 1, 0, n);
            Answer {
                outcome: Ok(0),
                report: factored(d.smallest),
            }
        }
    }
}

// `take_inverse` with room of its own.
fn inverse_in<T: Real>(w: &mut [T], n: usize) -> Answer
    requires { Room n (T.floats w.old) }
    ensures replaced { Replaced (0 ∷ 1 ∷ []) n (or_not_converged (inverse T.format n (slot n (T.floats w.old) 0))) result.outcome (T.floats w.old) (T.floats w.new) }
    ensures report_value { result.report ≡ report_at (or_not_converged (inverse T.format n (slot n (T.floats w.old) 0))) (lu_report T.format n (slot n (T.floats w.old) 0)) }
{
    let mut pivots = pivot_room();
    take_inverse(w, n, &mut pivots[..n])
}

// The power e of the inverse of the matrix in slot 0 takes its place.
fn inverse_power<T: Real>(w: &mut [T], n: usize, e: u64) -> Answer
    requires { Room n (T.floats w.old) }
    ensures replaced { Replaced (0 ∷ 1 ∷ 2 ∷ []) n (inverse_power T.format n (slot n (T.floats w.old) 0) e) result.outcome (T.floats w.old) (T.floats w.new) }
    ensures report_value { result.report ≡ report_at (inverse_power T.format n (slot n (T.floats w.old) 0) e) (lu_report T.format n (slot n (T.floats w.old) 0)) }
{
    let answer = inverse_in(w, n);
    let outcome = answer.outcome;
    match outcome {
        Err(why) => refused(why),
        Ok(_) => {
            bit_power(w, n, e);
            let report = answer.report;
            Answer {
                outcome: Ok(0),
                report,
            }
        }
    }
}

// The power e of the matrix in slot 0 takes its place: a negative one is that of the inverse.
pub fn whole_power<T: Real>(w: &mut [T], n: usize, e: i64) -> Answer
    requires { Room n (T.floats w.old) }
    ensures replaced { Replaced (0 ∷ 1 ∷ 2 ∷ []) n (whole_power T.format n (slot n (T.floats w.old) 0) e) result.outcome (T.floats w.old) (T.floats w.new) }
    ensures report_value { result.report ≡ report_at (whole_power T.format n (slot n (T.floats w.old) 0) e) (whole_report T.format n (slot n (T.floats w.old) 0) e) }
{
    if is_negative(e) {
        inverse_power(w, n, size_of(e))
    } else {
        bit_power(w, n, size_of(e));
        done(0)
    }
}
