// The derivative of the logarithm as a difference quotient, in a workspace: the matrix stands in slot 0 and the direction in slot 4. Slot 5 keeps the
// matrix and slot 6 its logarithm; slots 1 to 3 are scratch.
ghost use Rattle.std.specs.Prelude.{◌≡◌, [], ◌∷◌};
ghost use Rattle.arithmetic_matrices.specs.Product.{add_multiple_m};
ghost use Rattle.arithmetic_matrices.specs.Workspace.{Room, slot};
ghost use Rattle.arithmetic_questions.specs.Kernels.{ReplacedBoth};
ghost use Rattle.arithmetic_questions.specs.Reports.{report_at};
ghost use Rattle.functions_definitions.specs.Derivatives.{log_step, second_logarithm, frechet_log_m};
ghost use Rattle.functions_definitions.specs.Reports.{log_report, frechet_log_report};
ghost use Rattle.functions_logarithms.specs.Kernels.{QuotientPlaced};

use crate::logarithm::logm_in;
use arithmetic_floats::real::Real;
use arithmetic_matrices::workspace::{accumulate, copy, difference_quotient};
use arithmetic_questions::answer::{Answer, answering, beside, refused};

// The step of the difference quotient: the root of `EPSILON`.
fn log_step<T: Real>() -> T
    ensures { T.float result ≡ log_step T.format }
{
    T::EPSILON.sqrt()
}

// The logarithm in slot 6 goes to slot 0, and the difference quotient of slots 0 and 6 to slot 1.
fn place_quotient<T: Real>(w: &mut [T], n: usize)
    requires { Room n (T.floats w.old) }
    ensures { QuotientPlaced T.format n (T.floats w.old) (T.floats w.new) }
{
    difference_quotient(w, 0, 6, log_step(), n);
    copy(w, 0, 1, n);
    copy(w, 6, 0, n);
}

// The second logarithm, of the matrix moved a step in the direction. The first stands in slot 0.
fn second_logarithm<T: Real>(w: &mut [T], n: usize) -> Answer
    requires { Room n (T.floats w.old) }
    ensures replaced_both { ReplacedBoth (0 ∷ 1 ∷ 2 ∷ 3 ∷ 5 ∷ 6 ∷ []) n (second_logarithm T.format n (slot n (T.floats w.old) 5) (slot n (T.floats w.old) 4) (slot n (T.floats w.old) 0)) result.outcome (T.floats w.old) (T.floats w.new) }
    ensures report_value { result.report ≡ report_at (second_logarithm T.format n (slot n (T.floats w.old) 5) (slot n (T.floats w.old) 4) (slot n (T.floats w.old) 0)) (log_report T.format n (add_multiple_m T.format n (log_step T.format) (slot n (T.floats w.old) 4) (slot n (T.floats w.old) 5))) }
{
    copy(w, 0, 6, n);
    accumulate(w, 5, 4, log_step(), n);
    copy(w, 5, 0, n);
    let answer = logm_in(w, n);
    let outcome = answer.outcome;
    match outcome {
        Ok(_) => {
            place_quotient(w, n);
            let report = answer.report;
            Answer {
                outcome: Ok(0),
                report,
            }
        }
        Err(why) => refused(why),
    }
}

// The logarithm goes to slot 0, and its derivative in the direction of slot 4 to slot 1.
pub fn frechet_logm_in<T: Real>(w: &mut [T], n: usize) -> Answer
    requires { Room n (T.floats w.old) }
    ensures replaced_both { ReplacedBoth (0 ∷ 1 ∷ 2 ∷ 3 ∷ 5 ∷ 6 ∷ []) n (frechet_log_m T.format n (slot n (T.floats w.old) 0) (slot n (T.floats w.old) 4)) result.outcome (T.floats w.old) (T.floats w.new) }
    ensures report_value { result.report ≡ report_at (frechet_log_m T.format n (slot n (T.floats w.old) 0) (slot n (T.floats w.old) 4)) (frechet_log_report T.format n (slot n (T.floats w.old) 0) (slot n (T.floats w.old) 4)) }
{
    copy(w, 0, 5, n);
    let answer = logm_in(w, n);
    let outcome = answer.outcome;
    match outcome {
        Ok(_) => {
            let second = second_logarithm(w, n);
            let end = second.outcome;
            answering(end, beside(answer.report, second.report))
        }
        Err(why) => refused(why),
    }
}
