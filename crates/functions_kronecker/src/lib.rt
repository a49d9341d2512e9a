// The Kronecker product and the Kronecker sum of two matrices, written block by block: block (i, j) is formed from entry (i, j) of the first matrix.
// Last the two calls, which ask their questions first.
#![tactic(auto)]

pub mod question;

ghost use Rattle.std.specs.Prelude.{◌≡◌, ℕ, ◌+◌, ◌*◌, ◌/◌, ◌%◌, ◌<◌, ◌≤◌, length, Float};
ghost use Rattle.std.specs.Float.Ieee.{add, mul};
ghost use Rattle.arithmetic_floats.specs.Float.{one};
ghost use Rattle.arithmetic_matrices.specs.Matrix.{tab, grid, at, put};
ghost use Rattle.arithmetic_matrices.specs.Product.{diagonal_entry as identity_entry};
ghost use Rattle.functions_definitions.specs.Calls.{kron_sum, kron as kron_of};
ghost use Rattle.arithmetic_questions.specs.Outputs.{OneOutput};
ghost use Rattle.arithmetic_questions.specs.Reports.{nothing, report_at};
ghost use Rattle.functions_definitions.specs.Kronecker.{kron_m, kron_sum_m};
ghost use Rattle.functions_kronecker.specs.Kernels.{FormedBy};
ghost use Rattle.arithmetic_matrices.specs.Kernels.{block_row as row_of_blocks};

use crate::question::{ask_kron, ask_kron_sum};
use arithmetic_floats::real::Real;
use arithmetic_matrices::workspace::diagonal_entry;
use arithmetic_questions::answer::{Answer, done, refused};

// Writes to y row k of a block, from s and d, entry (i, j) of the first matrix and that of the identity, and from row k of b, which has q columns.
fn block_part<T: Real, F: Fn(T, T, T, usize, usize) -> T>(
    out: &mut [T],
    y: usize,
    s: T,
    d: T,
    q: usize,
    b: &[T],
    k: usize,
    entry: &F,
)
    requires room { (y + q ≤ length out.old) × (k * q + q ≤ length b.now) }
    requires entry_pre { F.IsAlwaysCallable entry.now }
    ensures { (e : ℕ → Float) → ((l : ℕ) (x r : T) → l < q → T.float x ≡ at q (T.floats b.now) k l → F.post entry.now s d x k l r → T.float r ≡ e l) → T.floats out.new ≡ put (T.floats out.old) y (tab q e) }
{
    for l in 0..q {
        out[y + l] = entry(s, d, b[k * q + l], k, l);
    }
}

// Writes to y row k of the n blocks of row i of blocks.
fn block_row<T: Real, F: Fn(T, T, T, usize, usize) -> T>(
    out: &mut [T],
    y: usize,
    n: usize,
    a: &[T],
    i: usize,
    q: usize,
    b: &[T],
    k: usize,
    entry: &F,
)
    requires room { (y + n * q ≤ length out.old) × (i * n + n ≤ length a.now) × (k * q + q ≤ length b.now) }
    requires entry_pre { F.IsAlwaysCallable entry.now }
    ensures { (e : ℕ → ℕ → ℕ → ℕ → Float) → FormedBy T.float n (T.floats a.now) q (T.floats b.now) i k (F.post entry.now) e → T.floats out.new ≡ put (T.floats out.old) y (tab (n * q) (row_of_blocks q e i k)) }
{
    let mut z = y;
    for j in 0..n {
        block_part(
            out,
            z,
            a[i * n + j],
            diagonal_entry(T::ONE, i, j),
            q,
            b,
            k,
            entry,
        );
        z += q;
    }
}

// Writes to y the p rows of the n blocks of row i of blocks.
fn block_rows<T: Real, F: Fn(T, T, T, usize, usize) -> T>(
    out: &mut [T],
    y: usize,
    n: usize,
    a: &[T],
    i: usize,
    p: usize,
    q: usize,
    b: &[T],
    entry: &F,
)
    requires room { (n * q ≤ 64) × (y + p * (n * q) ≤ length out.old) × (i * n + n ≤ length a.now) × (length b.now ≡ p * q) }
    requires entry_pre { F.IsAlwaysCallable entry.now }
    ensures { (e : ℕ → ℕ → ℕ → ℕ → Float) → ((k : ℕ) → k < p → FormedBy T.float n (T.floats a.now) q (T.floats b.now) i k (F.post entry.now) e) → T.floats out.new ≡ put (T.floats out.old) y (grid p (n * q) (row_of_blocks q e i)) }
{
    let width = n * q;
    for k in 0..p {
        block_row(out, y + k * width, n, a, i, q, b, k, entry);
    }
}

// Writes to out m by n blocks of p rows and q columns: entry (k, l) of block (i, j) is entry(s, d, x, k, l), where s is entry (i, j) of a, d that of the
// identity, and x entry (k, l) of b.
fn blocks_into<T: Real, F: Fn(T, T, T, usize, usize) -> T>(
    out: &mut [T],
    m: usize,
    n: usize,
    a: &[T],
    p: usize,
    q: usize,
    b: &[T],
    entry: &F,
)
    requires few { (p ≤ 64) × (m * p ≤ 64) × (n * q ≤ 64) × (length out.old ≡ (m * p) * (n * q)) × (length a.now ≡ m * n) × (length b.now ≡ p * q) }
    requires entry_pre { F.IsAlwaysCallable entry.now }
    ensures { (e : ℕ → ℕ → ℕ → ℕ → Float) → ((i k : ℕ) → i < m → k < p → FormedBy T.float n (T.floats a.now) q (T.floats b.now) i k (F.post entry.now) e) → T.floats out.new ≡ grid (m * p) (n * q) (λ r. row_of_blocks q e (r / p) (r % p)) }
{
    let size = p * (n * q);
    for i in 0..m {
        block_rows(out, i * size, n, a, i, p, q, b, entry);
    }
}

// Writes to out the Kronecker product of a, m by n, and b, p by q.
pub fn kron_into<T: Real>(m: usize, n: usize, a: &[T], p: usize, q: usize, b: &[T], out: &mut [T])
    requires m_bound { (m ≤ 64) × (n ≤ 64) × (p ≤ 64) × (q ≤ 64) × (m * p ≤ 64) × (n * q ≤ 64) }
    requires a_len { (length a.now ≡ m * n) × (length b.now ≡ p * q) × (length out.old ≡ (m * p) * (n * q)) }
    ensures { T.floats out.new ≡ kron_m T.format m n (T.floats a.now) p q (T.floats b.now) }
{
    let entry = |s: T, _d: T, x: T, _k: usize, _l: usize|
        ensures { T.float result ≡ mul T.format (T.float s) (T.float x) }
    { s * x };
    blocks_into(out, m, n, a, p, q, b, &entry);
}

// Writes to out the Kronecker sum of a, of order m, and b, of order p: a ⊗ I + I ⊗ b, with each product by an entry of I formed.
pub fn kron_sum_into<T: Real>(m: usize, a: &[T], p: usize, b: &[T], out: &mut [T])
    requires m_bound { (m ≤ 64) × (p ≤ 64) × (m * p ≤ 64) }
    requires a_len { (length a.now ≡ m * m) × (length b.now ≡ p * p) × (length out.old ≡ (m * p) * (m * p)) }
    ensures { T.floats out.new ≡ kron_sum_m T.format m (T.floats a.now) p (T.floats b.now) }
{
    let entry = |s: T, d: T, x: T, k: usize, l: usize|
        ensures { T.float result ≡ add T.format (mul T.format (T.float s) (identity_entry one k l)) (mul T.format (T.float d) (T.float x)) }
    { s * diagonal_entry(T::ONE, k, l) + d * x };
    blocks_into(out, m, m, a, p, p, b, &entry);
}

// The Kronecker product of a, m by n, and b, p by q: out, m * p by n * q, is written where the call is not refused.
pub fn kron<T: Real>(
    m: usize,
    n: usize,
    a: &[T],
    p: usize,
    q: usize,
    b: &[T],
    out: &mut [T],
) -> Answer
    ensures one_output { OneOutput (kron_of T.format m n (T.floats a.now) p q (T.floats b.now) (length out.old)) result.outcome (T.floats out.old) (T.floats out.new) }
    ensures report_value { result.report ≡ report_at (kron_of T.format m n (T.floats a.now) p q (T.floats b.now) (length out.old)) nothing }
{
    match ask_kron(m, n, a, p, q, b, out.len()) {
        Err(why) => refused(why),
        Ok(()) => {
            kron_into(m, n, a, p, q, b, out);
            done(0)
        }
    }
}

// The Kronecker sum of a, m by n, and b, p by q, which both have to be square: out, m * p by n * q, is written where the call is not refused.
pub fn kron_sum<T: Real>(
    m: usize,
    n: usize,
    a: &[T],
    p: usize,
    q: usize,
    b: &[T],
    out: &mut [T],
) -> Answer
    ensures one_output { OneOutput (kron_sum T.format m n (T.floats a.now) p q (T.floats b.now) (length out.old)) result.outcome (T.floats out.old) (T.floats out.new) }
    ensures report_value { result.report ≡ report_at (kron_sum T.format m n (T.floats a.now) p q (T.floats b.now) (length out.old)) nothing }
{
    match ask_kron_sum(m, n, a, p, q, b, out.len()) {
        Err(why) => refused(why),
        Ok(()) => {
            kron_sum_into(m, a, p, b, out);
            done(0)
        }
    }
}
