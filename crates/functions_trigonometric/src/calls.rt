// The public calls of cosine and sine. Each asks its questions first, and a refusal leaves output and workspace as they were lent.
ghost use Rattle.std.specs.Prelude.{◌≡◌, length};
ghost use Rattle.arithmetic_questions.specs.Outputs.{OneOutputIn, OneOutputWith};
ghost use Rattle.arithmetic_questions.specs.Reports.{nothing, report_at};
ghost use Rattle.functions_definitions.specs.Calls.{cosm as cosm_of, sinm as sinm_of};

use crate::cosine::cosm_in;
use crate::sine::sinm_in;
use arithmetic_floats::real::Real;
use arithmetic_matrices::workspace::copy_in;
use arithmetic_questions::answer::{Answer, refused};
use arithmetic_questions::output::deliver;
use arithmetic_questions::question::ask_expm;

// `cosm`, where the workspace is cleared only if `clears` is true.
pub fn cosm_with<T: Real>(
    rows: usize,
    columns: usize,
    a: &[T],
    out: &mut [T],
    w: &mut [T],
    clears: bool,
) -> Answer
    ensures one_output_with { OneOutputWith clears (cosm_of T.format rows columns (T.floats a.now) (length out.old) (length w.old)) result.outcome (T.floats out.old) (T.floats out.new) (T.floats w.old) (T.floats w.new) }
    ensures report_value { result.report ≡ report_at (cosm_of T.format rows columns (T.floats a.now) (length out.old) (length w.old)) nothing }
{
    match ask_expm(rows, columns, a, out.len(), w.len()) {
        Err(why) => refused(why),
        Ok(()) => {
            copy_in(w, 0, a);
            let answer = cosm_in(w, rows);
            deliver(answer, out, w, clears)
        }
    }
}

// The cosine of the matrix a is written to out.
pub fn cosm<T: Real>(rows: usize, columns: usize, a: &[T], out: &mut [T], w: &mut [T]) -> Answer
    ensures one_output_in { OneOutputIn (cosm_of T.format rows columns (T.floats a.now) (length out.old) (length w.old)) result.outcome (T.floats out.old) (T.floats out.new) (T.floats w.old) (T.floats w.new) }
    ensures report_value { result.report ≡ report_at (cosm_of T.format rows columns (T.floats a.now) (length out.old) (length w.old)) nothing }
{
    cosm_with(rows, columns, a, out, w, true)
}

// `sinm`, where the workspace is cleared only if `clears` is true.
// Not one with `cosm_with` over a closure: its contract would have to say what each call of the closure leaves.
pub fn sinm_with<T: Real>(
    rows: usize,
    columns: usize,
    a: &[T],
    out: &mut [T],
    w: &mut [T],
    clears: bool,
) -> Answer
    ensures one_output_with { OneOutputWith clears (sinm_of T.format rows columns (T.floats a.now) (length out.old) (length w.old)) result.outcome (T.floats out.old) (T.floats out.new) (T.floats w.old) (T.floats w.new) }
    ensures report_value { result.report ≡ report_at (sinm_of T.format rows columns (T.floats a.now) (length out.old) (length w.old)) nothing }
{
    match ask_expm(rows, columns, a, out.len(), w.len()) {
        Err(why) => refused(why),
        Ok(()) => {
            copy_in(w, 0, a);
            let answer = sinm_in(w, rows);
            deliver(answer, out, w, clears)
        }
    }
}

// The sine of the matrix a is written to out.
pub fn sinm<T: Real>(rows: usize, columns: usize, a: &[T], out: &mut [T], w: &mut [T]) -> Answer
    ensures one_output_in { OneOutputIn (sinm_of T.format rows columns (T.floats a.now) (length out.old) (length w.old)) result.outcome (T.floats out.old) (T.floats out.new) (T.floats w.old) (T.floats w.new) }
    ensures report_value { result.report ≡ report_at (sinm_of T.format rows columns (T.floats a.now) (length out.old) (length w.old)) nothing }
{
    sinm_with(rows, columns, a, out, w, true)
}
