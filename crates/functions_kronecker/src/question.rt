// The questions that kron and kron_sum ask, over the single questions of crate arithmetic_questions.
ghost use Rattle.std.specs.Prelude.{◌≡◌, [], ◌∷◌, ◌*◌, ◌≤◌, eqb, length};
ghost use Rattle.arithmetic_questions.specs.Result.{first_no, ask as ask_of};
ghost use Rattle.arithmetic_questions.specs.Questions.{at_most, exactly, binary, asked, of_kron, of_kron_sum};
ghost use Rattle.arithmetic_questions.specs.Answers.{found};

use arithmetic_floats::real::Real;
use arithmetic_questions::answer::Refusal;
use arithmetic_questions::question::{ask, ask_at_most, ask_length, ask_square};

// 3: is the second matrix square?
pub fn ask_second_square(rows: usize, columns: usize) -> Result<(), Refusal>
    ensures { found result ≡ ask_of (eqb rows columns) 3 rows columns }
{
    ask(rows == columns, Refusal::CompanionShape(rows, columns))
}

// 4, of two numbers.
pub fn ask_both_at_most(x: usize, y: usize, limit: usize) -> Result<(), Refusal>
    ensures { found result ≡ first_no (at_most limit x ∷ at_most limit y ∷ []) }
{
    ask_at_most(x, limit)?;
    ask_at_most(y, limit)
}

// 4, of the rows and columns of two matrices, m by n and p by q.
pub fn ask_sizes(m: usize, n: usize, p: usize, q: usize) -> Result<(), Refusal>
    ensures { found result ≡ first_no (at_most 64 m ∷ at_most 64 n ∷ at_most 64 p ∷ at_most 64 q ∷ []) }
{
    ask_both_at_most(m, n, 64)?;
    ask_both_at_most(p, q, 64)
}

// 4, of the sizes and then of their products, which are formed only after their factors passed.
pub fn ask_products(m: usize, n: usize, p: usize, q: usize) -> Result<(), Refusal>
    ensures { found result ≡ first_no (at_most 64 m ∷ at_most 64 n ∷ at_most 64 p ∷ at_most 64 q ∷ at_most 64 (m * p) ∷ at_most 64 (n * q) ∷ []) }
{
    ask_sizes(m, n, p, q)?;
    ask_both_at_most(m * p, n * q, 64)
}

// 5, of two matrices and an output.
fn ask_slices<T: Real>(
    m: usize,
    n: usize,
    a: &[T],
    p: usize,
    q: usize,
    b: &[T],
    out: usize,
) -> Result<(), Refusal>
    requires { (m ≤ 64) × (n ≤ 64) × (p ≤ 64) × (q ≤ 64) × (m * p ≤ 64) × (n * q ≤ 64) }
    ensures { found result ≡ first_no (exactly (m * n) (length a.now) ∷ exactly (p * q) (length b.now) ∷ exactly ((m * p) * (n * q)) out ∷ []) }
{
    ask_length(a.len(), m * n)?;
    ask_length(b.len(), p * q)?;
    ask_length(out, (m * p) * (n * q))
}

// Of kron: 4 and 5.
pub fn ask_kron<T: Real>(
    m: usize,
    n: usize,
    a: &[T],
    p: usize,
    q: usize,
    b: &[T],
    out: usize,
) -> Result<(), Refusal>
    ensures { found result ≡ asked of_kron (binary m n (T.floats a.now) p q (T.floats b.now) (out ∷ []) 0) }
{
    ask_products(m, n, p, q)?;
    ask_slices(m, n, a, p, q, b, out)
}

// Of kron_sum: 2 and 3, and then those of kron.
pub fn ask_kron_sum<T: Real>(
    m: usize,
    n: usize,
    a: &[T],
    p: usize,
    q: usize,
    b: &[T],
    out: usize,
) -> Result<(), Refusal>
    ensures { found result ≡ asked of_kron_sum (binary m n (T.floats a.now) p q (T.floats b.now) (out ∷ []) 0) }
{
    let squares = ask_square(m, n).and(ask_second_square(p, q));
    let products = ask_kron(m, n, a, p, q, b, out);
    squares.and(products)
}
