// The public calls of the derivatives of the square root. Each asks its questions first.
ghost use Rattle.std.specs.Prelude.{◌≡◌, length};
ghost use Rattle.arithmetic_questions.specs.Outputs.{TwoOutputsIn, TwoOutputsWith};
ghost use Rattle.arithmetic_questions.specs.Reports.{report_at};
ghost use Rattle.functions_definitions.specs.Calls.{frechet_sqrtm, frechet_sqrtm_sylvester};
ghost use Rattle.functions_definitions.specs.Derivatives.{SymmetricRoot};
ghost use Rattle.functions_definitions.specs.Reports.{root_with_derivative_report, frechet_sqrt_report, frechet_sqrt_sylvester_report};
ghost use Rattle.functions_root_derivatives.specs.Kernels.{second_of, derivative_call};

use crate::root_derivative::root_derivative_in;
use arithmetic_floats::real::Real;
use arithmetic_matrices::workspace::copy_in;
use arithmetic_questions::answer::{Answer, refused};
use arithmetic_questions::output::deliver_both;
use arithmetic_questions::question::ask_frechet_sqrtm;

// A derivative of the square root: by the system of frechet_sqrtm, or by that of frechet_sqrtm_sylvester where `transposed` is true. The workspace is cleared
// only if `clears` is true.
fn root_derivative_with<T: Real>(
    rows: usize,
    columns: usize,
    a: &[T],
    height: usize,
    width: usize,
    e: &[T],
    first: &mut [T],
    second: &mut [T],
    w: &mut [T],
    transposed: bool,
    clears: bool,
) -> Answer
    ensures two_outputs_with { TwoOutputsWith clears (derivative_call T.format transposed rows columns (T.floats a.now) height width (T.floats e.now) (length first.old) (length second.old) (length w.old)) result.outcome (T.floats first.old) (T.floats first.new) (T.floats second.old) (T.floats second.new) (T.floats w.old) (T.floats w.new) }
    ensures report_value { result.report ≡ report_at (derivative_call T.format transposed rows columns (T.floats a.now) height width (T.floats e.now) (length first.old) (length second.old) (length w.old)) (root_with_derivative_report T.format rows (second_of transposed rows) (T.floats a.now)) }
{
    match ask_frechet_sqrtm(
        rows,
        columns,
        a,
        height,
        width,
        e,
        first.len(),
        second.len(),
        w.len(),
    ) {
        Err(why) => refused(why),
        Ok(()) => {
            copy_in(w, 0, a);
            copy_in(w, 6, e);
            let answer = root_derivative_in(w, rows, transposed);
            deliver_both(answer, first, second, w, clears)
        }
    }
}

// `frechet_sqrtm`, where the workspace is cleared only if `clears` is true.
pub fn frechet_sqrtm_with<T: Real>(
    rows: usize,
    columns: usize,
    a: &[T],
    height: usize,
    width: usize,
    e: &[T],
    first: &mut [T],
    second: &mut [T],
    w: &mut [T],
    clears: bool,
) -> Answer
    ensures two_outputs_with { TwoOutputsWith clears (frechet_sqrtm T.format rows columns (T.floats a.now) height width (T.floats e.now) (length first.old) (length second.old) (length w.old)) result.outcome (T.floats first.old) (T.floats first.new) (T.floats second.old) (T.floats second.new) (T.floats w.old) (T.floats w.new) }
    ensures report_value { result.report ≡ report_at (frechet_sqrtm T.format rows columns (T.floats a.now) height width (T.floats e.now) (length first.old) (length second.old) (length w.old)) (frechet_sqrt_report T.format rows (T.floats a.now)) }
{
    root_derivative_with(
        rows, columns, a, height, width, e, first, second, w, false, clears,
    )
}

// The square root S of the matrix a is written to first, and the X with S X + X S' = E for the direction E, which is e, of height by width, to second. S' is
// the transpose of S, as the source has it; X is the derivative where S is symmetric.
pub fn frechet_sqrtm<T: Real>(
    rows: usize,
    columns: usize,
    a: &[T],
    height: usize,
    width: usize,
    e: &[T],
    first: &mut [T],
    second: &mut [T],
    w: &mut [T],
) -> Answer
    ensures two_outputs_in { TwoOutputsIn (frechet_sqrtm T.format rows columns (T.floats a.now) height width (T.floats e.now) (length first.old) (length second.old) (length w.old)) result.outcome (T.floats first.old) (T.floats first.new) (T.floats second.old) (T.floats second.new) (T.floats w.old) (T.floats w.new) }
    ensures report_value { result.report ≡ report_at (frechet_sqrtm T.format rows columns (T.floats a.now) height width (T.floats e.now) (length first.old) (length second.old) (length w.old)) (frechet_sqrt_report T.format rows (T.floats a.now)) }
{
    frechet_sqrtm_with(rows, columns, a, height, width, e, first, second, w, true)
}

// `frechet_sqrtm_sylvester`, where the workspace is cleared only if `clears` is true.
pub fn frechet_sqrtm_sylvester_with<T: Real>(
    rows: usize,
    columns: usize,
    a: &[T],
    height: usize,
    width: usize,
    e: &[T],
    first: &mut [T],
    second: &mut [T],
    w: &mut [T],
    clears: bool,
) -> Answer
    ensures two_outputs_with { TwoOutputsWith clears (frechet_sqrtm_sylvester T.format rows columns (T.floats a.now) height width (T.floats e.now) (length first.old) (length second.old) (length w.old)) result.outcome (T.floats first.old) (T.floats first.new) (T.floats second.old) (T.floats second.new) (T.floats w.old) (T.floats w.new) }
    ensures report_value { result.report ≡ report_at (frechet_sqrtm_sylvester T.format rows columns (T.floats a.now) height width (T.floats e.now) (length first.old) (length second.old) (length w.old)) (frechet_sqrt_sylvester_report T.format rows (T.floats a.now)) }
{
    root_derivative_with(
        rows, columns, a, height, width, e, first, second, w, true, clears,
    )
}

// The square root S of the matrix a is written to first, and its derivative in the direction e, of height by width, to second: the X with S X + X S = E.
// Where S is symmetric bit for bit it answers as frechet_sqrtm does.
pub fn frechet_sqrtm_sylvester<T: Real>(
    rows: usize,
    columns: usize,
    a: &[T],
    height: usize,
    width: usize,
    e: &[T],
    first: &mut [T],
    second: &mut [T],
    w: &mut [T],
) -> Answer
    ensures two_outputs_in { TwoOutputsIn (frechet_sqrtm_sylvester T.format rows columns (T.floats a.now) height width (T.floats e.now) (length first.old) (length second.old) (length w.old)) result.outcome (T.floats first.old) (T.floats first.new) (T.floats second.old) (T.floats second.new) (T.floats w.old) (T.floats w.new) }
    ensures report_value { result.report ≡ report_at (frechet_sqrtm_sylvester T.format rows columns (T.floats a.now) height width (T.floats e.now) (length first.old) (length second.old) (length w.old)) (frechet_sqrt_sylvester_report T.format rows (T.floats a.now)) }
    ensures two_outputs_in_2 { SymmetricRoot T.format rows (T.floats a.now) → TwoOutputsIn (frechet_sqrtm T.format rows columns (T.floats a.now) height width (T.floats e.now) (length first.old) (length second.old) (length w.old)) result.outcome (T.floats first.old) (T.floats first.new) (T.floats second.old) (T.floats second.new) (T.floats w.old) (T.floats w.new) × (result.report ≡ report_at (frechet_sqrtm T.format rows columns (T.floats a.now) height width (T.floats e.now) (length first.old) (length second.old) (length w.old)) (frechet_sqrt_report T.format rows (T.floats a.now))) }
{
    frechet_sqrtm_sylvester_with(rows, columns, a, height, width, e, first, second, w, true)
}
