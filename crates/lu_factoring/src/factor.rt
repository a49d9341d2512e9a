// LU factoring with partial pivoting, in place.
ghost use Rattle.std.specs.Prelude.{◌≡◌, ◌+◌, ◌*◌, ◌<◌, ◌≤◌, length};
ghost use Rattle.arithmetic_matrices.specs.Kernels.{with_row};
ghost use Rattle.lu_factoring.specs.Lu.{pivot_row, swap_rows, reduced, eliminated, tolerance as tolerance_of};
ghost use Rattle.lu_factoring.specs.Kernels.{subtracted, LuDone, LuDoneIn};

use crate::Singular;
use crate::swap::exchange_rows;
use arithmetic_floats::real::Real;
use arithmetic_matrices::matrix::{entry, set_entry};

// The row of the first largest magnitude in column k, from row k down.
pub fn find_pivot<T: Real>(m: &[T], n: usize, k: usize) -> usize
    requires { (k < n) × (length m.now ≡ n * n) }
    ensures { (result ≡ pivot_row n (T.floats m.now) k) × (result < n) }
{
    let mut p = k;
    let mut best = entry(m, n, n, k, k).magnitude();
    for i in k + 1..n {
        let v = entry(m, n, n, i, k).magnitude();
        if best < v {
            best = v;
            p = i;
        }
    }
    p
}

// Rows k and p change places.
pub fn swap_rows<T: Real>(m: &mut [T], n: usize, k: usize, p: usize)
    requires { (k < n) × (p < n) × (length m.old ≡ n * n) }
    ensures { T.floats m.new ≡ swap_rows n k p (T.floats m.old) }
{
    exchange_rows(m, 0, n, n, k, p);
}

// Row i below row k, to the right of column k: less x times row k.
pub fn subtract_row<T: Real>(m: &mut [T], n: usize, k: usize, i: usize, x: T)
    requires { (k < i) × (i < n) × (length m.old ≡ n * n) }
    ensures { T.floats m.new ≡ with_row n i (subtracted T.format n k i (T.float x) (T.floats m.old)) (T.floats m.old) }
{
    for j in k + 1..n {
        let v = entry(m, n, n, i, j) - x * entry(m, n, n, k, j);
        set_entry(m, n, n, i, j, v);
    }
}

// Row i below row k: its multiplier, and the rest of the row reduced by it. t is the reciprocal of the pivot.
pub fn eliminate_row<T: Real>(m: &mut [T], n: usize, k: usize, i: usize, t: T)
    requires { (k < i) × (i < n) × (length m.old ≡ n * n) }
    ensures { T.floats m.new ≡ with_row n i (reduced T.format n k (T.float t) (T.floats m.old) i) (T.floats m.old) }
{
    let x = entry(m, n, n, i, k) * t;
    set_entry(m, n, n, i, k, x);
    subtract_row(m, n, k, i, x);
}

// Column k is eliminated below row k.
pub fn eliminate<T: Real>(m: &mut [T], n: usize, k: usize)
    requires { (k < n) × (length m.old ≡ n * n) }
    ensures { T.floats m.new ≡ eliminated T.format n k (T.floats m.old) }
{
    let t = T::ONE / entry(m, n, n, k, k);
    for i in k + 1..n {
        eliminate_row(m, n, k, i, t);
    }
}

// The largest magnitude of a pivot that is refused: n times the distance from 1 to the next number.
pub fn tolerance<T: Real>(n: usize) -> T
    requires { n ≤ 64 }
    ensures { T.float result ≡ tolerance_of T.format n }
{
    T::EPSILON * T::of_small(n)
}

// The factors of an n by n matrix take its place, and the pivots' rows are written to pivots. Where a column is refused, the
// columns before it are done.
pub fn factor_matrix<T: Real>(m: &mut [T], n: usize, pivots: &mut [usize]) -> Result<(), Singular>
    requires { (n ≤ 64) × (length m.old ≡ n * n) × (length pivots.old ≡ n) }
    ensures { LuDone T.format n (T.floats m.old) pivots.old (T.floats m.new) pivots.new result }
{
    let tol = tolerance(n);
    for k in 0..n {
        let p = find_pivot(m, n, k);
        if entry(m, n, n, p, k).magnitude() <= tol {
            return Err(Singular { column: k });
        }
        pivots[k] = p;
        swap_rows(m, n, k, p);
        eliminate(m, n, k);
    }
    Ok(())
}

// `factor_matrix` for the n by n matrix that stands in w from index off. The rest of w is unchanged.
pub fn factor_in<T: Real>(
    w: &mut [T],
    off: usize,
    n: usize,
    pivots: &mut [usize],
) -> Result<(), Singular>
    requires { (n ≤ 64) × (off + n * n ≤ length w.old) × (length pivots.old ≡ n) }
    ensures { LuDoneIn T.format n off (T.floats w.old) pivots.old (T.floats w.new) pivots.new result }
{
    let end = off + n * n;
    factor_matrix(&mut w[off..end], n, pivots)
}
