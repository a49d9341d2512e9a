// The matrix of the system S X + X T' = E, where T is S or its transpose and T' the transpose of T: n by n blocks of order n. Entry (r, c) of block (p, q) is
// +0, plus s(r, c) where p is q, plus t(p, q) where r is c.
ghost use Rattle.std.specs.Prelude.{◌≡◌, ◌+◌, ◌*◌, ◌<◌, ◌≤◌, length};
ghost use Rattle.arithmetic_floats.specs.Float.{+zero};
ghost use Rattle.arithmetic_matrices.specs.Matrix.{tab, grid, at, put};
ghost use Rattle.arithmetic_matrices.specs.Kernels.{block_row};
ghost use Rattle.functions_definitions.specs.Derivatives.{added_where, sylvester_entry, sylvester_matrix};
ghost use Rattle.functions_root_derivatives.specs.Kernels.{second_of};

use arithmetic_floats::real::Real;
use arithmetic_matrices::matrix::entry;

// x, with v added to it where i is j.
fn add_where<T: Real>(x: T, i: usize, j: usize, v: T) -> T
    ensures { T.float result ≡ added_where T.format (T.float x) i j (T.float v) }
{
    if i == j { x + v } else { x }
}

// t(p, q)
fn second_entry<T: Real>(n: usize, s: &[T], transposed: bool, p: usize, q: usize) -> T
    requires { (p < n) × (q < n) × (length s.now ≡ n * n) }
    ensures { T.float result ≡ at n (second_of transposed n (T.floats s.now)) p q }
{
    if transposed {
        entry(s, n, n, q, p)
    } else {
        entry(s, n, n, p, q)
    }
}

// Writes to y row r of block (p, q). v is t(p, q).
fn sylvester_part<T: Real>(
    out: &mut [T],
    y: usize,
    p: usize,
    q: usize,
    v: T,
    n: usize,
    s: &[T],
    r: usize,
)
    requires { (y + n ≤ length out.old) × (r < n) × (length s.now ≡ n * n) }
    ensures { T.floats out.new ≡ put (T.floats out.old) y (tab n (λ c. added_where T.format (added_where T.format +zero p q (at n (T.floats s.now) r c)) r c (T.float v))) }
{
    for c in 0..n {
        out[y + c] = add_where(add_where(T::ZERO, p, q, entry(s, n, n, r, c)), r, c, v);
    }
}

// Writes to y row r of the blocks (p, 0), (p, 1) and so on.
fn sylvester_row<T: Real>(
    out: &mut [T],
    y: usize,
    n: usize,
    s: &[T],
    transposed: bool,
    p: usize,
    r: usize,
)
    requires { (y + n * n ≤ length out.old) × (p < n) × (r < n) × (length s.now ≡ n * n) }
    ensures { T.floats out.new ≡ put (T.floats out.old) y (tab (n * n) (block_row n (sylvester_entry T.format n (T.floats s.now) (second_of transposed n (T.floats s.now))) p r)) }
{
    let mut z = y;
    for q in 0..n {
        sylvester_part(out, z, p, q, second_entry(n, s, transposed, p, q), n, s, r);
        z += n;
    }
}

// Writes to y the n rows of the blocks (p, 0), (p, 1) and so on.
fn sylvester_rows<T: Real>(out: &mut [T], y: usize, n: usize, s: &[T], transposed: bool, p: usize)
    requires { (n * n ≤ 64) × (y + n * (n * n) ≤ length out.old) × (p < n) × (length s.now ≡ n * n) }
    ensures { T.floats out.new ≡ put (T.floats out.old) y (grid n (n * n) (block_row n (sylvester_entry T.format n (T.floats s.now) (second_of transposed n (T.floats s.now))) p)) }
{
    let width = n * n;
    let mut z = y;
    for r in 0..n {
        sylvester_row(out, z, n, s, transposed, p, r);
        z += width;
    }
}

// Writes the matrix to out.
pub fn sylvester_into<T: Real>(n: usize, s: &[T], transposed: bool, out: &mut [T])
    requires { (n ≤ 8) × (n * n ≤ 64) × (length s.now ≡ n * n) × (length out.old ≡ (n * n) * (n * n)) }
    ensures { T.floats out.new ≡ sylvester_matrix T.format n (T.floats s.now) (second_of transposed n (T.floats s.now)) }
{
    let size = n * (n * n);
    let mut y = 0;
    for p in 0..n {
        sylvester_rows(out, y, n, s, transposed, p);
        y += size;
    }
}
