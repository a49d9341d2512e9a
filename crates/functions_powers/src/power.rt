// Powers of the matrix of order n in slot 0: by products where the exponent is taken for a whole number, and otherwise by the logarithm and the
// exponential.
ghost use Rattle.std.specs.Prelude.{◌≡◌, [], ◌∷◌};
ghost use Rattle.arithmetic_matrices.specs.Product.{times_m};
ghost use Rattle.arithmetic_matrices.specs.Workspace.{Room, slot};
ghost use Rattle.arithmetic_questions.specs.Kernels.{Replaced};
ghost use Rattle.arithmetic_questions.specs.Reports.{report_at};
ghost use Rattle.functions_definitions.specs.Powers.{fractional_power, power_m, multiple_exponential};
ghost use Rattle.functions_definitions.specs.Reports.{exp_report, fractional_report, power_report};

use crate::whole::whole_power;
use arithmetic_floats::real::Real;
use arithmetic_matrices::workspace::{copy, times};
use arithmetic_questions::answer::{Answer, answering, beside, refused};
use functions_exponential::expm::expm_in;
use functions_logarithms::logarithm::logm_in;

// The exponential of p times the matrix in slot 0 takes its place, with no halvings reported.
fn multiple_exponential<T: Real>(w: &mut [T], n: usize, p: T) -> Answer
    requires { Room n (T.floats w.old) }
    ensures replaced { Replaced (0 ∷ 1 ∷ 2 ∷ 3 ∷ 4 ∷ 5 ∷ []) n (multiple_exponential T.format n (T.float p) (slot n (T.floats w.old) 0)) result.outcome (T.floats w.old) (T.floats w.new) }
    ensures report_value { result.report ≡ report_at (multiple_exponential T.format n (T.float p) (slot n (T.floats w.old) 0)) (exp_report T.format n (times_m T.format n (T.float p) (slot n (T.floats w.old) 0))) }
{
    times(w, 0, 1, p, n);
    copy(w, 1, 0, n);
    let answer = expm_in(w, n);
    let outcome = answer.outcome;
    match outcome {
        Err(why) => refused(why),
        Ok(_) => {
            let report = answer.report;
            Answer {
                outcome: Ok(0),
                report,
            }
        }
    }
}

// The power p, exp (p log A), of the matrix in slot 0 takes its place.
fn fractional_power<T: Real>(w: &mut [T], n: usize, p: T) -> Answer
    requires { Room n (T.floats w.old) }
    ensures replaced { Replaced (0 ∷ 1 ∷ 2 ∷ 3 ∷ 4 ∷ 5 ∷ []) n (fractional_power T.format n (slot n (T.floats w.old) 0) (T.float p)) result.outcome (T.floats w.old) (T.floats w.new) }
    ensures report_value { result.report ≡ report_at (fractional_power T.format n (slot n (T.floats w.old) 0) (T.float p)) (fractional_report T.format n (slot n (T.floats w.old) 0) (T.float p)) }
{
    let answer = logm_in(w, n);
    let outcome = answer.outcome;
    match outcome {
        Err(why) => refused(why),
        Ok(_) => {
            let second = multiple_exponential(w, n, p);
            let end = second.outcome;
            answering(end, beside(answer.report, second.report))
        }
    }
}

// The power p of the matrix in slot 0 takes its place.
pub fn powm_in<T: Real>(w: &mut [T], n: usize, p: T) -> Answer
    requires { Room n (T.floats w.old) }
    ensures replaced { Replaced (0 ∷ 1 ∷ 2 ∷ 3 ∷ 4 ∷ 5 ∷ []) n (power_m T.format n (slot n (T.floats w.old) 0) (T.float p)) result.outcome (T.floats w.old) (T.floats w.new) }
    ensures report_value { result.report ≡ report_at (power_m T.format n (slot n (T.floats w.old) 0) (T.float p)) (power_report T.format n (slot n (T.floats w.old) 0) (T.float p)) }
{
    if p.is_integer() {
        whole_power(w, n, p.integer_of())
    } else {
        fractional_power(w, n, p)
    }
}
