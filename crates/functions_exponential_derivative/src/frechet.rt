// The derivative of the exponential at A in the direction E, from the exponential of the block [A E; 0 A] of order 2 n.
ghost use Rattle.std.specs.Prelude.{◌≡◌, ◌+◌, ◌*◌, ◌<◌, ◌≤◌, length};
ghost use Rattle.arithmetic_matrices.specs.Kernels.{with_row};
ghost use Rattle.arithmetic_matrices.specs.Workspace.{Room, slot, store};
ghost use Rattle.arithmetic_questions.specs.Outputs.{TwoOutputsIn, TwoOutputsWith};
ghost use Rattle.arithmetic_questions.specs.Reports.{report_at};
ghost use Rattle.functions_definitions.specs.Exponential.{block, quarter};
ghost use Rattle.functions_definitions.specs.Frechet.{FirstAlone};
ghost use Rattle.functions_exponential_derivative.specs.Kernels.{quarter_row, Quartered, Written};
ghost use Rattle.functions_definitions.specs.Derivatives.{frechet_exp_m};
ghost use Rattle.functions_definitions.specs.Calls.{frechet_expm};
ghost use Rattle.functions_definitions.specs.Reports.{frechet_exp_report};

use arithmetic_floats::real::Real;
use arithmetic_matrices::matrix::place;
use arithmetic_matrices::workspace::{clear_where, zero};
use arithmetic_questions::answer::{Answer, refused};
use arithmetic_questions::question::ask_frechet_expm;
use functions_exponential::expm::expm_in;

// Slot 0 becomes the block [A E; 0 A].
pub fn fill_block<T: Real>(w: &mut [T], n: usize, a: &[T], e: &[T])
    requires room { Room (n + n) (T.floats w.old) }
    requires n_bound { (n ≤ 8) × (length a.now ≡ n * n) × (length e.now ≡ n * n) }
    ensures { T.floats w.new ≡ store (T.floats w.old) 0 (block n (T.floats a.now) (T.floats e.now)) }
{
    let step = n + n;
    zero(w, 0, step);
    place(w, 0, step, a, n);
    place(w, n, step, e, n);
    place(w, n * step + n, step, a, n);
}

// Row i of the quarter of b that starts at column c becomes row i of out. b is of order 2 n.
fn quarter_row<T: Real>(b: &[T], n: usize, c: usize, i: usize, out: &mut [T])
    requires { (i < n) × (n ≤ 8) × (c ≤ n) × (length b.now ≡ (n + n) * (n + n)) × (length out.old ≡ n * n) }
    ensures { T.floats out.new ≡ with_row n i (quarter_row n c (T.floats b.now) i) (T.floats out.old) }
{
    for j in 0..n {
        out[i * n + j] = b[i * (n + n) + (c + j)];
    }
}

// The quarter of b that starts at row 0 and column c is copied to out. b is of order 2 n.
pub fn copy_quarter<T: Real>(b: &[T], n: usize, c: usize, out: &mut [T])
    requires { (n ≤ 8) × (c ≤ n) × (length b.now ≡ (n + n) * (n + n)) × (length out.old ≡ n * n) }
    ensures { T.floats out.new ≡ quarter n c (T.floats b.now) }
{
    for i in 0..n {
        quarter_row(b, n, c, i, out);
    }
}

// The upper quarters of the matrix of order 2 n in slot 0 are copied to first and second.
fn copy_quarters<T: Real>(w: &[T], n: usize, first: &mut [T], second: &mut [T])
    requires { (n ≤ 8) × (8192 ≤ length w.now) × (length first.old ≡ n * n) × (length second.old ≡ n * n) }
    ensures first_after { T.floats first.new ≡ quarter n 0 (slot (n + n) (T.floats w.now) 0) }
    ensures second_after { T.floats second.new ≡ quarter n n (slot (n + n) (T.floats w.now) 0) }
{
    let end = (n + n) * (n + n);
    let b = &w[..end];
    copy_quarter(b, n, 0, first);
    copy_quarter(b, n, n, second);
}

// The upper quarters of the matrix of order 2 n in slot 0 are copied to first and second where the answer is done. The answer is handed on.
fn write_quarters<T: Real>(
    answer: Answer,
    w: &[T],
    n: usize,
    first: &mut [T],
    second: &mut [T],
) -> Answer
    requires { (n ≤ 8) × (8192 ≤ length w.now) × (length first.old ≡ n * n) × (length second.old ≡ n * n) }
    ensures quartered { Quartered n answer.outcome result.outcome (T.floats w.now) (T.floats first.old) (T.floats first.new) (T.floats second.old) (T.floats second.new) }
    ensures report_value { result.report ≡ answer.report }
{
    let outcome = answer.outcome;
    match outcome {
        Ok(_) => {
            copy_quarters(w, n, first, second);
            answer
        }
        Err(_) => answer,
    }
}

// The exponential of A and its derivative in the direction E are written to first and second.
pub fn frechet_expm_in<T: Real>(
    n: usize,
    a: &[T],
    e: &[T],
    first: &mut [T],
    second: &mut [T],
    w: &mut [T],
) -> Answer
    requires room { Room (n + n) (T.floats w.old) }
    requires n_bound { (n ≤ 8) × (length a.now ≡ n * n) × (length e.now ≡ n * n) × (length first.old ≡ n * n) × (length second.old ≡ n * n) }
    ensures written { Written (frechet_exp_m T.format n (T.floats a.now) (T.floats e.now)) result.outcome (T.floats first.old) (T.floats first.new) (T.floats second.old) (T.floats second.new) (T.floats w.old) (T.floats w.new) }
    ensures report_value { result.report ≡ report_at (frechet_exp_m T.format n (T.floats a.now) (T.floats e.now)) (frechet_exp_report T.format n (T.floats a.now) (T.floats e.now)) }
{
    fill_block(w, n, a, e);
    let answer = expm_in(w, n + n);
    write_quarters(answer, w, n, first, second)
}

// `frechet_expm`, where the workspace is cleared only if `clears` is true.
pub fn frechet_expm_with<T: Real>(
    rows: usize,
    columns: usize,
    a: &[T],
    height: usize,
    width: usize,
    e: &[T],
    first: &mut [T],
    second: &mut [T],
    w: &mut [T],
    clears: bool,
) -> Answer
    ensures two_outputs_with { TwoOutputsWith clears (frechet_expm T.format rows columns (T.floats a.now) height width (T.floats e.now) (length first.old) (length second.old) (length w.old)) result.outcome (T.floats first.old) (T.floats first.new) (T.floats second.old) (T.floats second.new) (T.floats w.old) (T.floats w.new) }
    ensures first_alone { FirstAlone T.format rows result.outcome (T.floats a.now) (T.floats e.now) (T.floats first.new) }
    ensures report_value { result.report ≡ report_at (frechet_expm T.format rows columns (T.floats a.now) height width (T.floats e.now) (length first.old) (length second.old) (length w.old)) (frechet_exp_report T.format rows (T.floats a.now) (T.floats e.now)) }
{
    match ask_frechet_expm(
        rows,
        columns,
        a,
        height,
        width,
        e,
        first.len(),
        second.len(),
        w.len(),
    ) {
        Err(why) => refused(why),
        Ok(()) => {
            let answer = frechet_expm_in(rows, a, e, first, second, w);
            clear_where(w, clears);
            answer
        }
    }
}

// The exponential of A and its derivative in the direction E, of height by width, are written to first and second. The first clause says, for all input, the
// outcome, both outputs and the workspace, by `frechet_expm` of specs/Calls.antt. The second is demand 3: specs/Frechet.antt says what it means, and
// proofs/FirstOutput.antt proves it. The third is the report.
pub fn frechet_expm<T: Real>(
    rows: usize,
    columns: usize,
    a: &[T],
    height: usize,
    width: usize,
    e: &[T],
    first: &mut [T],
    second: &mut [T],
    w: &mut [T],
) -> Answer
    ensures two_outputs_in { TwoOutputsIn (frechet_expm T.format rows columns (T.floats a.now) height width (T.floats e.now) (length first.old) (length second.old) (length w.old)) result.outcome (T.floats first.old) (T.floats first.new) (T.floats second.old) (T.floats second.new) (T.floats w.old) (T.floats w.new) }
    ensures first_alone { FirstAlone T.format rows result.outcome (T.floats a.now) (T.floats e.now) (T.floats first.new) }
    ensures report_value { result.report ≡ report_at (frechet_expm T.format rows columns (T.floats a.now) height width (T.floats e.now) (length first.old) (length second.old) (length w.old)) (frechet_exp_report T.format rows (T.floats a.now) (T.floats e.now)) }
{
    frechet_expm_with(rows, columns, a, height, width, e, first, second, w, true)
}
