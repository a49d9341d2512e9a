// The questions asked of a call, in their order: each finds that the call passes, or the refusal with its details.
ghost use Rattle.std.specs.Prelude.{◌≡◌, cond, ◌&&◌, [], ◌∷◌, ℕ, ◌*◌, ◌<◌, eqb, ltb, leb, length};
ghost use Rattle.std.specs.Float.Ieee.{lt, le};
ghost use Rattle.std.specs.Float.Ieee.Scale.{finite};
ghost use Rattle.arithmetic_floats.specs.Float.{+zero};
ghost use Rattle.arithmetic_matrices.specs.Matrix.{item};
ghost use Rattle.arithmetic_questions.specs.Result.{passes, first_no, only_where, ask as ask_of};
ghost use Rattle.arithmetic_questions.specs.Questions.{at_most, exactly, at_least8192, all_finite, norm_question, halvings_question, unary, powered, binary, shape_questions, asked, of_expm, of_logm, of_sqrtm, of_powm, of_frechet_expm, of_frechet_logm, of_frechet_sqrtm, of_cond_expm};
ghost use Rattle.arithmetic_questions.specs.Answers.{numbered, scanned, found};

use crate::answer::Refusal;
use arithmetic_floats::compare::is_finite;
use arithmetic_floats::real::Real;

// ---- one question

// Ok, or else the refusal.
pub fn ask(yes: bool, why: Refusal) -> Result<(), Refusal>
    ensures { found result ≡ cond yes passes (numbered why) }
{
    if yes { Ok(()) } else { Err(why) }
}

// 1: is there a row?
pub fn ask_rows(rows: usize) -> Result<(), Refusal>
    ensures { found result ≡ ask_of (ltb 0 rows) 1 0 0 }
{
    ask(0 < rows, Refusal::EmptyMatrix)
}

// 2: are there as many columns as rows?
pub fn ask_square(rows: usize, columns: usize) -> Result<(), Refusal>
    ensures { found result ≡ ask_of (eqb rows columns) 2 rows columns }
{
    ask(rows == columns, Refusal::NotSquare(rows, columns))
}

// 3: is the direction n by n?
pub fn ask_direction_fits(n: usize, rows: usize, columns: usize) -> Result<(), Refusal>
    ensures { found result ≡ ask_of (eqb rows n && eqb columns n) 3 rows columns }
{
    if rows != n {
        return Err(Refusal::CompanionShape(rows, columns));
    }
    ask(columns == n, Refusal::CompanionShape(rows, columns))
}

// 4: is x at most the limit?
pub fn ask_at_most(x: usize, limit: usize) -> Result<(), Refusal>
    ensures { found result ≡ at_most limit x }
{
    ask(x <= limit, Refusal::TooLarge(x, limit))
}

// 5: is a length the one wanted?
pub fn ask_length(x: usize, wanted: usize) -> Result<(), Refusal>
    ensures { found result ≡ exactly wanted x }
{
    ask(x == wanted, Refusal::WrongLength(x, wanted))
}

// 5: is a workspace of x numbers large enough?
pub fn ask_room(x: usize) -> Result<(), Refusal>
    ensures { found result ≡ at_least8192 x }
{
    ask(8192 <= x, Refusal::WrongLength(x, 8192))
}

// The row and column of the first entry of a, of rows by columns, that is not finite.
pub fn scan_finite<T: Real>(a: &[T], rows: usize, columns: usize) -> Option<(usize, usize)>
    requires { length a.now ≡ rows * columns }
    ensures { (number : ℕ) → scanned number result ≡ all_finite number columns (T.floats a.now) }
{
    for i in 0..rows {
        for j in 0..columns {
            let k = i * columns + j;
            if !is_finite(a[k]) {
                return Some((i, j));
            }
        }
    }
    None
}

// 6: is every entry of the matrix finite?
pub fn ask_entries<T: Real>(a: &[T], rows: usize, columns: usize) -> Result<(), Refusal>
    requires { length a.now ≡ rows * columns }
    ensures { found result ≡ all_finite 6 columns (T.floats a.now) }
{
    match scan_finite(a, rows, columns) {
        None => Ok(()),
        Some((i, j)) => Err(Refusal::EntryNotFinite(i, j)),
    }
}

// 7: is every entry of the direction finite?
pub fn ask_direction<T: Real>(e: &[T], rows: usize, columns: usize) -> Result<(), Refusal>
    requires { length e.now ≡ rows * columns }
    ensures { found result ≡ all_finite 7 columns (T.floats e.now) }
{
    match scan_finite(e, rows, columns) {
        None => Ok(()),
        Some((i, j)) => Err(Refusal::DirectionNotFinite(i, j)),
    }
}

// 8: is the exponent finite?
pub fn ask_exponent<T: Real>(p: T) -> Result<(), Refusal>
    ensures { found result ≡ ask_of (finite (T.float p)) 8 0 0 }
{
    ask(is_finite(p), Refusal::ExponentNotFinite)
}

// 10: is a matrix of order 1 a number above 0?
pub fn ask_positive<T: Real>(rows: usize, a: &[T]) -> Result<(), Refusal>
    requires { 0 < length a.now }
    ensures { found result ≡ only_where (eqb rows 1) (ask_of (lt +zero (item (T.floats a.now) 0)) 10 0 0) }
{
    if rows != 1 {
        return Ok(());
    }
    ask(T::ZERO < a[0], Refusal::NotDefined)
}

// 10: is a matrix of order 1 a number that is at least 0?
pub fn ask_nonnegative<T: Real>(rows: usize, a: &[T]) -> Result<(), Refusal>
    requires { 0 < length a.now }
    ensures { found result ≡ only_where (eqb rows 1) (ask_of (le +zero (item (T.floats a.now) 0)) 10 0 0) }
{
    if rows != 1 {
        return Ok(());
    }
    ask(T::ZERO <= a[0], Refusal::NotDefined)
}

// 11: is the order at least 2?
pub fn ask_from_two(rows: usize) -> Result<(), Refusal>
    ensures { found result ≡ ask_of (leb 2 rows) 11 0 0 }
{
    ask(2 <= rows, Refusal::OrderOne)
}

// 12: is the norm that sets the halvings finite?
pub fn ask_norm<T: Real>(norm: T) -> Result<(), Refusal>
    ensures { found result ≡ norm_question (T.float norm) }
{
    ask(is_finite(norm), Refusal::NormNotFinite)
}

// 17: are there at most 64 halvings?
pub fn ask_halvings(s: u64) -> Result<(), Refusal>
    ensures { found result ≡ halvings_question s }
{
    ask(s <= 64, Refusal::TooManyHalvings(s as usize))
}

// ---- several

// 1 and 2.
pub fn ask_order(rows: usize, columns: usize) -> Result<(), Refusal>
    ensures { found result ≡ first_no (ask_of (ltb 0 rows) 1 0 0 ∷ ask_of (eqb rows columns) 2 rows columns ∷ []) }
{
    ask_rows(rows)?;
    ask_square(rows, columns)
}

// 5, of two slices and a workspace.
pub fn ask_lengths(first: usize, second: usize, wanted: usize, room: usize) -> Result<(), Refusal>
    ensures { found result ≡ first_no (exactly wanted first ∷ exactly wanted second ∷ at_least8192 room ∷ []) }
{
    let lengths = ask_length(first, wanted).and(ask_length(second, wanted));
    lengths.and(ask_room(room))
}

// 1, 2 and 4, for a matrix alone.
pub fn ask_matrix_order(rows: usize, columns: usize) -> Result<(), Refusal>
    ensures { found result ≡ first_no (ask_of (ltb 0 rows) 1 0 0 ∷ ask_of (eqb rows columns) 2 rows columns ∷ at_most 8 rows ∷ []) }
{
    ask_order(rows, columns)?;
    ask_at_most(rows, 8)
}

// 1, 2, 4 and 5, for a matrix and an output.
pub fn ask_shape<T: Real>(
    rows: usize,
    columns: usize,
    a: &[T],
    out: usize,
    room: usize,
) -> Result<(), Refusal>
    ensures { found result ≡ first_no (shape_questions of_cond_expm (unary rows columns (T.floats a.now) (out ∷ []) room)) }
{
    ask_matrix_order(rows, columns)?;
    ask_lengths(a.len(), out, rows * columns, room)
}

// 1 to 4, for a matrix and a direction of `height` rows and `width` columns.
pub fn ask_direction_order(
    rows: usize,
    columns: usize,
    height: usize,
    width: usize,
) -> Result<(), Refusal>
    ensures { found result ≡ first_no (ask_of (ltb 0 rows) 1 0 0 ∷ ask_of (eqb rows columns) 2 rows columns ∷ ask_of (eqb height rows && eqb width rows) 3 height width ∷ at_most 8 rows ∷ []) }
{
    ask_order(rows, columns)?;
    ask_direction_fits(rows, height, width)?;
    ask_at_most(rows, 8)
}

// 1 to 5, for a matrix, a direction and two outputs.
pub fn ask_direction_shape<T: Real>(
    rows: usize,
    columns: usize,
    a: &[T],
    height: usize,
    width: usize,
    e: &[T],
    first: usize,
    second: usize,
    room: usize,
) -> Result<(), Refusal>
    ensures { found result ≡ first_no (shape_questions of_frechet_expm (binary rows columns (T.floats a.now) height width (T.floats e.now) (first ∷ second ∷ []) room)) }
{
    ask_direction_order(rows, columns, height, width)?;
    ask_length(a.len(), rows * columns)?;
    ask_length(e.len(), height * width)?;
    ask_lengths(first, second, rows * columns, room)
}

// 10 and 11 of a logarithm.
pub fn ask_logarithm<T: Real>(rows: usize, a: &[T]) -> Result<(), Refusal>
    requires { 0 < length a.now }
    ensures { found result ≡ first_no (only_where (eqb rows 1) (ask_of (lt +zero (item (T.floats a.now) 0)) 10 0 0) ∷ ask_of (leb 2 rows) 11 0 0 ∷ []) }
{
    ask_positive(rows, a)?;
    ask_from_two(rows)
}

// ---- all that a function asks before it begins

// 1 to 6, for a matrix and an output: these every function of one matrix asks.
pub fn ask_matrix<T: Real>(
    rows: usize,
    columns: usize,
    a: &[T],
    out: usize,
    room: usize,
) -> Result<(), Refusal>
    ensures { found result ≡ asked of_cond_expm (unary rows columns (T.floats a.now) (out ∷ []) room) }
{
    ask_shape(rows, columns, a, out, room)?;
    ask_entries(a, rows, columns)
}

// Of expm, cosm and sinm.
pub fn ask_expm<T: Real>(
    rows: usize,
    columns: usize,
    a: &[T],
    out: usize,
    room: usize,
) -> Result<(), Refusal>
    ensures { found result ≡ asked of_expm (unary rows columns (T.floats a.now) (out ∷ []) room) }
{
    ask_matrix(rows, columns, a, out, room)?;
    ask_from_two(rows)
}

pub fn ask_logm<T: Real>(
    rows: usize,
    columns: usize,
    a: &[T],
    out: usize,
    room: usize,
) -> Result<(), Refusal>
    ensures { found result ≡ asked of_logm (unary rows columns (T.floats a.now) (out ∷ []) room) }
{
    ask_matrix(rows, columns, a, out, room)?;
    ask_logarithm(rows, a)
}

pub fn ask_sqrtm<T: Real>(
    rows: usize,
    columns: usize,
    a: &[T],
    out: usize,
    room: usize,
) -> Result<(), Refusal>
    ensures { found result ≡ asked of_sqrtm (unary rows columns (T.floats a.now) (out ∷ []) room) }
{
    ask_matrix(rows, columns, a, out, room)?;
    ask_nonnegative(rows, a)
}

pub fn ask_powm<T: Real>(
    rows: usize,
    columns: usize,
    a: &[T],
    p: T,
    out: usize,
    room: usize,
) -> Result<(), Refusal>
    ensures { found result ≡ asked of_powm (powered rows columns (T.floats a.now) (T.float p) (out ∷ []) room) }
{
    ask_matrix(rows, columns, a, out, room)?;
    ask_exponent(p)?;
    ask_from_two(rows)
}

// The matrix's own length stands for that of an output, which there is not.
pub fn ask_cond_expm<T: Real>(
    rows: usize,
    columns: usize,
    a: &[T],
    room: usize,
) -> Result<(), Refusal>
    ensures { found result ≡ asked of_cond_expm (unary rows columns (T.floats a.now) [] room) }
{
    ask_matrix(rows, columns, a, a.len(), room)
}

// 1 to 7: these every function of a matrix and a direction asks.
pub fn ask_frechet_expm<T: Real>(
    rows: usize,
    columns: usize,
    a: &[T],
    height: usize,
    width: usize,
    e: &[T],
    first: usize,
    second: usize,
    room: usize,
) -> Result<(), Refusal>
    ensures { found result ≡ asked of_frechet_expm (binary rows columns (T.floats a.now) height width (T.floats e.now) (first ∷ second ∷ []) room) }
{
    ask_direction_shape(rows, columns, a, height, width, e, first, second, room)?;
    ask_entries(a, rows, columns)?;
    ask_direction(e, height, width)
}

pub fn ask_frechet_logm<T: Real>(
    rows: usize,
    columns: usize,
    a: &[T],
    height: usize,
    width: usize,
    e: &[T],
    first: usize,
    second: usize,
    room: usize,
) -> Result<(), Refusal>
    ensures { found result ≡ asked of_frechet_logm (binary rows columns (T.floats a.now) height width (T.floats e.now) (first ∷ second ∷ []) room) }
{
    ask_frechet_expm(rows, columns, a, height, width, e, first, second, room)?;
    ask_logarithm(rows, a)
}

pub fn ask_frechet_sqrtm<T: Real>(
    rows: usize,
    columns: usize,
    a: &[T],
    height: usize,
    width: usize,
    e: &[T],
    first: usize,
    second: usize,
    room: usize,
) -> Result<(), Refusal>
    ensures { found result ≡ asked of_frechet_sqrtm (binary rows columns (T.floats a.now) height width (T.floats e.now) (first ∷ second ∷ []) room) }
{
    ask_frechet_expm(rows, columns, a, height, width, e, first, second, room)?;
    ask_nonnegative(rows, a)
}
