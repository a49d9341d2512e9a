// The public calls of the logarithm. Each asks its questions first.
ghost use Rattle.std.specs.Prelude.{◌≡◌, length};
ghost use Rattle.arithmetic_questions.specs.Outputs.{OneOutputIn, OneOutputWith, TwoOutputsIn, TwoOutputsWith};
ghost use Rattle.arithmetic_questions.specs.Reports.{report_at};
ghost use Rattle.functions_definitions.specs.Calls.{frechet_logm, logm as logm_of};
ghost use Rattle.functions_definitions.specs.Reports.{frechet_log_report, log_report};

use crate::log_derivative::frechet_logm_in;
use crate::logarithm::logm_in;
use arithmetic_floats::real::Real;
use arithmetic_matrices::workspace::copy_in;
use arithmetic_questions::answer::{Answer, refused};
use arithmetic_questions::output::{deliver, deliver_both};
use arithmetic_questions::question::{ask_frechet_logm, ask_logm};

// `logm`, where the workspace is cleared only if `clears` is true.
pub fn logm_with<T: Real>(
    rows: usize,
    columns: usize,
    a: &[T],
    out: &mut [T],
    w: &mut [T],
    clears: bool,
) -> Answer
    ensures one_output_with { OneOutputWith clears (logm_of T.format rows columns (T.floats a.now) (length out.old) (length w.old)) result.outcome (T.floats out.old) (T.floats out.new) (T.floats w.old) (T.floats w.new) }
    ensures report_value { result.report ≡ report_at (logm_of T.format rows columns (T.floats a.now) (length out.old) (length w.old)) (log_report T.format rows (T.floats a.now)) }
{
    match ask_logm(rows, columns, a, out.len(), w.len()) {
        Err(why) => refused(why),
        Ok(()) => {
            copy_in(w, 0, a);
            let answer = logm_in(w, rows);
            deliver(answer, out, w, clears)
        }
    }
}

// The logarithm of the matrix a is written to out.
pub fn logm<T: Real>(rows: usize, columns: usize, a: &[T], out: &mut [T], w: &mut [T]) -> Answer
    ensures one_output_in { OneOutputIn (logm_of T.format rows columns (T.floats a.now) (length out.old) (length w.old)) result.outcome (T.floats out.old) (T.floats out.new) (T.floats w.old) (T.floats w.new) }
    ensures report_value { result.report ≡ report_at (logm_of T.format rows columns (T.floats a.now) (length out.old) (length w.old)) (log_report T.format rows (T.floats a.now)) }
{
    logm_with(rows, columns, a, out, w, true)
}

// `frechet_logm`, where the workspace is cleared only if `clears` is true.
pub fn frechet_logm_with<T: Real>(
    rows: usize,
    columns: usize,
    a: &[T],
    height: usize,
    width: usize,
    e: &[T],
    first: &mut [T],
    second: &mut [T],
    w: &mut [T],
    clears: bool,
) -> Answer
    ensures two_outputs_with { TwoOutputsWith clears (frechet_logm T.format rows columns (T.floats a.now) height width (T.floats e.now) (length first.old) (length second.old) (length w.old)) result.outcome (T.floats first.old) (T.floats first.new) (T.floats second.old) (T.floats second.new) (T.floats w.old) (T.floats w.new) }
    ensures report_value { result.report ≡ report_at (frechet_logm T.format rows columns (T.floats a.now) height width (T.floats e.now) (length first.old) (length second.old) (length w.old)) (frechet_log_report T.format rows (T.floats a.now) (T.floats e.now)) }
{
    match ask_frechet_logm(
        rows,
        columns,
        a,
        height,
        width,
        e,
        first.len(),
        second.len(),
        w.len(),
    ) {
        Err(why) => refused(why),
        Ok(()) => {
            copy_in(w, 0, a);
            copy_in(w, 4, e);
            let answer = frechet_logm_in(w, rows);
            deliver_both(answer, first, second, w, clears)
        }
    }
}

// The logarithm of the matrix a is written to first, and its derivative in the direction e, of height by width, to second.
pub fn frechet_logm<T: Real>(
    rows: usize,
    columns: usize,
    a: &[T],
    height: usize,
    width: usize,
    e: &[T],
    first: &mut [T],
    second: &mut [T],
    w: &mut [T],
) -> Answer
    ensures two_outputs_in { TwoOutputsIn (frechet_logm T.format rows columns (T.floats a.now) height width (T.floats e.now) (length first.old) (length second.old) (length w.old)) result.outcome (T.floats first.old) (T.floats first.new) (T.floats second.old) (T.floats second.new) (T.floats w.old) (T.floats w.new) }
    ensures report_value { result.report ≡ report_at (frechet_logm T.format rows columns (T.floats a.now) height width (T.floats e.now) (length first.old) (length second.old) (length w.old)) (frechet_log_report T.format rows (T.floats a.now) (T.floats e.now)) }
{
    frechet_logm_with(rows, columns, a, height, width, e, first, second, w, true)
}
