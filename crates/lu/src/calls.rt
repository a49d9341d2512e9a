// The public calls of LU. Each asks its questions first, and a refusal leaves every output as it was lent.
ghost use Rattle.std.specs.Prelude.{◌≡◌, ℕ, ◌*◌, ◌<◌, ◌≤◌, length, get_or};
ghost use Rattle.arithmetic_floats.specs.Float.{+zero};
ghost use Rattle.arithmetic_questions.specs.Answers.{reported};
ghost use Rattle.arithmetic_questions.specs.Result.{exit, outcome as outcome_of};
ghost use Rattle.arithmetic_questions.specs.Outputs.{OneOutput};
ghost use Rattle.arithmetic_questions.specs.Reports.{report_at, factored, nothing as nothing_reported};
ghost use Rattle.lu_factoring.specs.Pivots.{smallest_pivot};
ghost use Rattle.lu_factoring.specs.Solve.{solved_matrix};
ghost use Rattle.lu.specs.Kernels.{FactoredCopy, Computing};
ghost use Rattle.lu.specs.Calls.{Computed, compute as compute_of, solve as solve_of, determinant as determinant_of};

use crate::question::{answer_of, ask_compute, ask_determinant, ask_solve};
use arithmetic_floats::real::Real;
use arithmetic_matrices::workspace::{clear, copy_in, copy_out};
use arithmetic_questions::answer::{Answer, Outcome, Report, done, refused};
use lu_factoring::Singular;
use lu_factoring::factor::factor_in;
use lu_factoring::room::pivot_room;
use lu_substitution::pivots::copy_pivots;
use lu_substitution::substitution::solve_rows;

// The answer of `determinant`; +0 beside a refusal.
#[derive(Clone, Copy)]
pub struct DeterminantAnswer<T> {
    pub outcome: Outcome,
    pub value: T,
    pub report: Report,
}

// A copy of the n by n matrix a is factored in w, from slot 0 on.
fn factor_copy<T: Real>(
    n: usize,
    a: &[T],
    w: &mut [T],
    pivots: &mut [usize],
) -> Result<(), Singular>
    requires { (n ≤ 64) × (length a.now ≡ n * n) × (8192 ≤ length w.old) × (length pivots.old ≡ n) }
    ensures { FactoredCopy T.format n (T.floats a.now) (T.floats w.old) pivots.old (T.floats w.new) pivots.new result }
{
    copy_in(w, 0, a);
    factor_in(w, 0, n, pivots)
}

// Where every column passes, the factors and the pivots of the n by n matrix a are written. rows is room for n pivots.
fn compute_in<T: Real>(
    n: usize,
    a: &[T],
    factors: &mut [T],
    pivots: &mut [usize],
    w: &mut [T],
    rows: &mut [usize],
) -> Result<(), Singular>
    requires { (n ≤ 64) × (length a.now ≡ n * n) × (8192 ≤ length w.old) × (length rows.old ≡ n) × (length factors.old ≡ n * n) × (length pivots.old ≡ n) }
    ensures { Computing T.format n (T.floats a.now) (T.floats factors.old) (T.floats factors.new) pivots.old pivots.new (T.floats w.old) (T.floats w.new) result }
{
    factor_copy(n, a, w, rows)?;
    copy_out(w, 0, factors);
    copy_pivots(pivots, rows);
    Ok(())
}

// `compute_in` with room of its own.
fn compute_with_room<T: Real>(
    n: usize,
    a: &[T],
    factors: &mut [T],
    pivots: &mut [usize],
    w: &mut [T],
) -> Result<(), Singular>
    requires { (n ≤ 64) × (length a.now ≡ n * n) × (8192 ≤ length w.old) × (length factors.old ≡ n * n) × (length pivots.old ≡ n) }
    ensures { Computing T.format n (T.floats a.now) (T.floats factors.old) (T.floats factors.new) pivots.old pivots.new (T.floats w.old) (T.floats w.new) result }
{
    let mut rows = pivot_room();
    compute_in(n, a, factors, pivots, w, &mut rows[..n])
}

// The LU factors of the matrix a and the pivots' rows.
pub fn compute<T: Real>(
    rows: usize,
    columns: usize,
    a: &[T],
    factors: &mut [T],
    pivots: &mut [usize],
    w: &mut [T],
) -> Answer
    ensures computed { Computed (compute_of T.format rows columns (T.floats a.now) pivots.old (length factors.old) (length w.old)) result.outcome (T.floats factors.old) (T.floats factors.new) pivots.old pivots.new (T.floats w.old) (T.floats w.new) }
    ensures report_value { result.report ≡ report_at (compute_of T.format rows columns (T.floats a.now) pivots.old (length factors.old) (length w.old)) (factored (smallest_pivot T.format rows (T.floats a.now))) }
{
    match ask_compute(rows, columns, a, pivots, factors.len(), w.len()) {
        Err(why) => refused(why),
        Ok(()) => {
            let outcome = compute_with_room(rows, a, factors, pivots, w);
            clear(w);
            answer_of(outcome, factors, rows)
        }
    }
}

// The solutions for the m columns of b are written to out.
fn solve_into<T: Real>(f: &[T], n: usize, pivots: &[usize], b: &[T], m: usize, out: &mut [T])
    requires { (length f.now ≡ n * n) × (length b.now ≡ n * m) × (length out.old ≡ n * m) × (length pivots.now ≡ n) × ((k : ℕ) → k < n → get_or pivots.now k 0 < n) }
    ensures { T.floats out.new ≡ solved_matrix T.format n m (T.floats f.now) pivots.now (T.floats b.now) }
{
    out.copy_from_slice(b);
    solve_rows(out, f, n, m, pivots);
}

// The solution of the systems whose matrix has the factors f and the pivots, for the columns of b, of height by width.
pub fn solve<T: Real>(
    rows: usize,
    columns: usize,
    f: &[T],
    pivots: &[usize],
    height: usize,
    width: usize,
    b: &[T],
    out: &mut [T],
) -> Answer
    ensures one_output { OneOutput (solve_of T.format rows columns (T.floats f.now) pivots.now height width (T.floats b.now) (length out.old)) result.outcome (T.floats out.old) (T.floats out.new) }
    ensures report_value { result.report ≡ report_at (solve_of T.format rows columns (T.floats f.now) pivots.now height width (T.floats b.now) (length out.old)) nothing_reported }
{
    match ask_solve(rows, columns, f, pivots, height, width, b, out.len()) {
        Err(why) => refused(why),
        Ok(()) => {
            solve_into(f, rows, pivots, b, width, out);
            done(0)
        }
    }
}

// The answer with a value.
fn valued<T: Real>(answer: Answer, value: T) -> DeterminantAnswer<T>
    ensures { (result.outcome ≡ answer.outcome) × (result.value ≡ value) × (result.report ≡ answer.report) }
{
    let outcome = answer.outcome;
    let report = answer.report;
    DeterminantAnswer {
        outcome,
        value,
        report,
    }
}

// The determinant of the matrix that has the factors f and the pivots.
pub fn determinant<T: Real>(
    rows: usize,
    columns: usize,
    f: &[T],
    pivots: &[usize],
) -> DeterminantAnswer<T>
    ensures outcome_value { reported result.outcome ≡ outcome_of (determinant_of T.format rows columns (T.floats f.now) pivots.now) }
    ensures value_value { T.float result.value ≡ exit (λ d. d) (determinant_of T.format rows columns (T.floats f.now) pivots.now) +zero }
    ensures report_value { result.report ≡ report_at (determinant_of T.format rows columns (T.floats f.now) pivots.now) nothing_reported }
{
    match ask_determinant(rows, columns, f, pivots) {
        Err(why) => valued(refused(why), T::ZERO),
        Ok(()) => {
            let value = lu_substitution::substitution::determinant(f, rows, pivots);
            valued(done(0), value)
        }
    }
}
