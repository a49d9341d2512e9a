// The questions that the calls of LU ask, in their order.
ghost use Rattle.std.specs.Prelude.{◌≡◌, ◌&&◌, [], ◌∷◌, ◌*◌, ◌≤◌, eqb, ltb, leb, length};
ghost use Rattle.arithmetic_matrices.specs.Matrix.{part};
ghost use Rattle.arithmetic_questions.specs.Result.{first_no, ask as ask_of};
ghost use Rattle.arithmetic_questions.specs.Questions.{at_most, exactly, pivots_from, asked, of_compute, of_solve, of_determinant};
ghost use Rattle.arithmetic_questions.specs.Answers.{found, reported};
ghost use Rattle.arithmetic_questions.specs.Reports.{report_at, factored as factored_with};
ghost use Rattle.lu_factoring.specs.Kernels.{diagonal_smallest};
ghost use Rattle.lu.specs.Kernels.{lu_result};
ghost use Rattle.lu.specs.Calls.{compute_call, solve_call, determinant_call};

use arithmetic_floats::real::Real;
use arithmetic_questions::answer::{Answer, Refusal, refused};
use arithmetic_questions::question::{ask, ask_at_most, ask_length, ask_room, ask_square};
use arithmetic_questions::report::factored;
use lu_factoring::Singular;
use lu_factoring::pivots::smallest_pivot;

// Is p, which is pivot k, a row from k to n - 1?
pub fn names_row(k: usize, p: usize, n: usize) -> bool
    ensures { result ≡ (leb k p && ltb p n) }
{
    if p < k {
        return false;
    }
    p < n
}

// 9: does each pivot k name a row from k to n - 1?
pub fn ask_pivots(pivots: &[usize], n: usize) -> Result<(), Refusal>
    ensures { found result ≡ pivots_from n 0 pivots.now }
{
    for k in 0..pivots.len() {
        let p = pivots[k];
        if !names_row(k, p, n) {
            return Err(Refusal::PivotOutOfRange(k, p));
        }
    }
    Ok(())
}

// 2 and 4, for a matrix alone.
pub fn ask_order(rows: usize, columns: usize) -> Result<(), Refusal>
    ensures { found result ≡ first_no (ask_of (eqb rows columns) 2 rows columns ∷ at_most 64 rows ∷ []) }
{
    ask_square(rows, columns)?;
    ask_at_most(rows, 64)
}

// 2, 4 and 5, for a matrix and pivots of so many numbers.
pub fn ask_system(rows: usize, columns: usize, entries: usize, pivots: usize) -> Result<(), Refusal>
    ensures { found result ≡ first_no (ask_of (eqb rows columns) 2 rows columns ∷ at_most 64 rows ∷ exactly (rows * columns) entries ∷ exactly rows pivots ∷ []) }
{
    ask_order(rows, columns)?;
    ask_length(entries, rows * columns)?;
    ask_length(pivots, rows)
}

// 2 to 4, for a matrix and a right-hand side of `height` rows and `width` columns.
pub fn ask_sides(rows: usize, columns: usize, height: usize, width: usize) -> Result<(), Refusal>
    ensures { found result ≡ first_no (ask_of (eqb rows columns) 2 rows columns ∷ ask_of (eqb height rows) 3 height width ∷ at_most 64 rows ∷ at_most 64 width ∷ []) }
{
    ask_square(rows, columns)?;
    ask(height == rows, Refusal::CompanionShape(height, width))?;
    ask_at_most(rows, 64)?;
    ask_at_most(width, 64)
}

// 2 to 5, for factors, pivots, a right-hand side and a solution of so many numbers.
pub fn ask_shapes(
    rows: usize,
    columns: usize,
    entries: usize,
    pivots: usize,
    height: usize,
    width: usize,
    right: usize,
    out: usize,
) -> Result<(), Refusal>
    ensures { found result ≡ first_no (ask_of (eqb rows columns) 2 rows columns ∷ ask_of (eqb height rows) 3 height width ∷ at_most 64 rows ∷ at_most 64 width ∷ exactly (rows * columns) entries ∷ exactly (height * width) right ∷ exactly rows pivots ∷ exactly (rows * width) out ∷ []) }
{
    ask_sides(rows, columns, height, width)?;
    ask_length(entries, rows * columns)?;
    ask_length(right, height * width)?;
    ask_length(pivots, rows)?;
    ask_length(out, rows * width)
}

// ---- all that a call asks before it begins

// Of compute: `factors` and `room` are the lengths of the lent factors and of the workspace.
pub fn ask_compute<T: Real>(
    rows: usize,
    columns: usize,
    a: &[T],
    pivots: &[usize],
    factors: usize,
    room: usize,
) -> Result<(), Refusal>
    ensures { found result ≡ asked of_compute (compute_call rows columns (T.floats a.now) pivots.now factors room) }
{
    ask_system(rows, columns, a.len(), pivots.len())?;
    ask_length(factors, rows * columns)?;
    ask_room(room)
}

pub fn ask_determinant<T: Real>(
    rows: usize,
    columns: usize,
    f: &[T],
    pivots: &[usize],
) -> Result<(), Refusal>
    ensures { found result ≡ asked of_determinant (determinant_call rows columns (T.floats f.now) pivots.now) }
{
    ask_system(rows, columns, f.len(), pivots.len())?;
    ask_pivots(pivots, rows)
}

// Of solve: `out` is the length of the lent solution.
pub fn ask_solve<T: Real>(
    rows: usize,
    columns: usize,
    f: &[T],
    pivots: &[usize],
    height: usize,
    width: usize,
    b: &[T],
    out: usize,
) -> Result<(), Refusal>
    ensures { found result ≡ asked of_solve (solve_call rows columns (T.floats f.now) pivots.now height width (T.floats b.now) out) }
{
    ask_shapes(
        rows,
        columns,
        f.len(),
        pivots.len(),
        height,
        width,
        b.len(),
        out,
    )?;
    ask_pivots(pivots, rows)
}

// There is no From<Singular> for Refusal, for which ? asks: no crate of the two types may cite the other.
// Question 14: done, with the smallest pivot of the factors of order n, or refused by the column that did not pass.
pub fn answer_of<T: Real>(outcome: Result<(), Singular>, factors: &[T], n: usize) -> Answer
    requires { n * n ≤ length factors.now }
    ensures outcome_value { reported result.outcome ≡ lu_result outcome }
    ensures report_value { result.report ≡ report_at (lu_result outcome) (factored_with (diagonal_smallest n (part (T.floats factors.now) 0 (n * n)))) }
{
    match outcome {
        Ok(()) => Answer {
            outcome: Ok(0),
            report: factored(smallest_pivot(factors, 0, n)),
        },
        Err(no) => refused(Refusal::SingularColumn(no.column)),
    }
}
