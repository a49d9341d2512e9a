// The exponential of a matrix.
ghost use Rattle.std.specs.Prelude.{◌≡◌, [], ◌∷◌, length};
ghost use Rattle.arithmetic_matrices.specs.Workspace.{Room, slot};
ghost use Rattle.arithmetic_questions.specs.Outputs.{OneOutputIn, OneOutputWith};
ghost use Rattle.arithmetic_questions.specs.Kernels.{Replaced};
ghost use Rattle.arithmetic_questions.specs.Reports.{report_at};
ghost use Rattle.functions_definitions.specs.Powers.{exp_m};
ghost use Rattle.functions_definitions.specs.Calls.{expm as expm_of};
ghost use Rattle.functions_definitions.specs.Reports.{exp_report};

use crate::exponential::exponential_at;
use crate::halvings::halvings_for;
use arithmetic_floats::real::Real;
use arithmetic_matrices::norm::norm_1;
use arithmetic_matrices::workspace::copy_in;
use arithmetic_questions::answer::{Answer, refused};
use arithmetic_questions::output::deliver;
use arithmetic_questions::question::ask_expm;

// The exponential of the matrix of order n in slot 0 takes its place.
pub fn expm_in<T: Real>(w: &mut [T], n: usize) -> Answer
    requires { Room n (T.floats w.old) }
    ensures replaced { Replaced (0 ∷ 1 ∷ 2 ∷ 3 ∷ 4 ∷ 5 ∷ []) n (exp_m T.format n (slot n (T.floats w.old) 0)) result.outcome (T.floats w.old) (T.floats w.new) }
    ensures report_value { result.report ≡ report_at (exp_m T.format n (slot n (T.floats w.old) 0)) (exp_report T.format n (slot n (T.floats w.old) 0)) }
{
    let outcome = halvings_for(norm_1(w, 0, n));
    match outcome {
        Ok(halvings) => {
            let report = exponential_at(w, n, halvings);
            Answer {
                outcome: Ok(halvings),
                report,
            }
        }
        Err(why) => refused(why),
    }
}

// `expm`, where the workspace is cleared only if `clears` is true.
pub fn expm_with<T: Real>(
    rows: usize,
    columns: usize,
    a: &[T],
    out: &mut [T],
    w: &mut [T],
    clears: bool,
) -> Answer
    ensures one_output_with { OneOutputWith clears (expm_of T.format rows columns (T.floats a.now) (length out.old) (length w.old)) result.outcome (T.floats out.old) (T.floats out.new) (T.floats w.old) (T.floats w.new) }
    ensures report_value { result.report ≡ report_at (expm_of T.format rows columns (T.floats a.now) (length out.old) (length w.old)) (exp_report T.format rows (T.floats a.now)) }
{
    match ask_expm(rows, columns, a, out.len(), w.len()) {
        Err(why) => refused(why),
        Ok(()) => {
            copy_in(w, 0, a);
            let answer = expm_in(w, rows);
            deliver(answer, out, w, clears)
        }
    }
}

// The exponential of the matrix a is written to out.
pub fn expm<T: Real>(rows: usize, columns: usize, a: &[T], out: &mut [T], w: &mut [T]) -> Answer
    ensures one_output_in { OneOutputIn (expm_of T.format rows columns (T.floats a.now) (length out.old) (length w.old)) result.outcome (T.floats out.old) (T.floats out.new) (T.floats w.old) (T.floats w.new) }
    ensures report_value { result.report ≡ report_at (expm_of T.format rows columns (T.floats a.now) (length out.old) (length w.old)) (exp_report T.format rows (T.floats a.now)) }
{
    expm_with(rows, columns, a, out, w, true)
}
