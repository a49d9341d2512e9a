// The public call of powers. It asks its questions first, and a refusal leaves output and workspace as they were lent.
ghost use Rattle.std.specs.Prelude.{◌≡◌, length};
ghost use Rattle.arithmetic_questions.specs.Outputs.{OneOutputIn, OneOutputWith};
ghost use Rattle.arithmetic_questions.specs.Reports.{report_at};
ghost use Rattle.functions_definitions.specs.Calls.{powm as powm_of};
ghost use Rattle.functions_definitions.specs.Reports.{power_report};

use crate::power::powm_in;
use arithmetic_floats::real::Real;
use arithmetic_matrices::workspace::copy_in;
use arithmetic_questions::answer::{Answer, refused};
use arithmetic_questions::output::deliver;
use arithmetic_questions::question::ask_powm;

// `powm`, where the workspace is cleared only if `clears` is true.
pub fn powm_with<T: Real>(
    rows: usize,
    columns: usize,
    a: &[T],
    p: T,
    out: &mut [T],
    w: &mut [T],
    clears: bool,
) -> Answer
    ensures one_output_with { OneOutputWith clears (powm_of T.format rows columns (T.floats a.now) (length out.old) (length w.old) (T.float p)) result.outcome (T.floats out.old) (T.floats out.new) (T.floats w.old) (T.floats w.new) }
    ensures report_value { result.report ≡ report_at (powm_of T.format rows columns (T.floats a.now) (length out.old) (length w.old) (T.float p)) (power_report T.format rows (T.floats a.now) (T.float p)) }
{
    match ask_powm(rows, columns, a, p, out.len(), w.len()) {
        Err(why) => refused(why),
        Ok(()) => {
            copy_in(w, 0, a);
            let answer = powm_in(w, rows, p);
            deliver(answer, out, w, clears)
        }
    }
}

// The power p of the matrix a is written to out.
pub fn powm<T: Real>(
    rows: usize,
    columns: usize,
    a: &[T],
    p: T,
    out: &mut [T],
    w: &mut [T],
) -> Answer
    ensures one_output_in { OneOutputIn (powm_of T.format rows columns (T.floats a.now) (length out.old) (length w.old) (T.float p)) result.outcome (T.floats out.old) (T.floats out.new) (T.floats w.old) (T.floats w.new) }
    ensures report_value { result.report ≡ report_at (powm_of T.format rows columns (T.floats a.now) (length out.old) (length w.old) (T.float p)) (power_report T.format rows (T.floats a.now) (T.float p)) }
{
    powm_with(rows, columns, a, p, out, w, true)
}
