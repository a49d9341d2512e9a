// The public calls of the square root. Each asks its questions first.
ghost use Rattle.std.specs.Prelude.{◌≡◌, length};
ghost use Rattle.arithmetic_questions.specs.Outputs.{OneOutputIn, OneOutputWith};
ghost use Rattle.arithmetic_questions.specs.Reports.{report_at};
ghost use Rattle.functions_definitions.specs.Calls.{sqrtm as sqrtm_of};
ghost use Rattle.functions_definitions.specs.Reports.{root_report};

use crate::square_root::sqrtm_in;
use arithmetic_floats::real::Real;
use arithmetic_matrices::workspace::copy_in;
use arithmetic_questions::answer::{Answer, refused};
use arithmetic_questions::output::deliver;
use arithmetic_questions::question::ask_sqrtm;

// `sqrtm`, where the workspace is cleared only if `clears` is true.
pub fn sqrtm_with<T: Real>(
    rows: usize,
    columns: usize,
    a: &[T],
    out: &mut [T],
    w: &mut [T],
    clears: bool,
) -> Answer
    ensures one_output_with { OneOutputWith clears (sqrtm_of T.format rows columns (T.floats a.now) (length out.old) (length w.old)) result.outcome (T.floats out.old) (T.floats out.new) (T.floats w.old) (T.floats w.new) }
    ensures report_value { result.report ≡ report_at (sqrtm_of T.format rows columns (T.floats a.now) (length out.old) (length w.old)) (root_report T.format rows (T.floats a.now)) }
{
    match ask_sqrtm(rows, columns, a, out.len(), w.len()) {
        Err(why) => refused(why),
        Ok(()) => {
            copy_in(w, 0, a);
            let answer = sqrtm_in(w, rows);
            deliver(answer, out, w, clears)
        }
    }
}

// The square root of the matrix a is written to out.
pub fn sqrtm<T: Real>(rows: usize, columns: usize, a: &[T], out: &mut [T], w: &mut [T]) -> Answer
    ensures one_output_in { OneOutputIn (sqrtm_of T.format rows columns (T.floats a.now) (length out.old) (length w.old)) result.outcome (T.floats out.old) (T.floats out.new) (T.floats w.old) (T.floats w.new) }
    ensures report_value { result.report ≡ report_at (sqrtm_of T.format rows columns (T.floats a.now) (length out.old) (length w.old)) (root_report T.format rows (T.floats a.now)) }
{
    sqrtm_with(rows, columns, a, out, w, true)
}
