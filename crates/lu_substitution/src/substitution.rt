// The solution of systems by their factors, for all right-hand columns at once, and the determinant. The right-hand matrix x has n rows and m columns
// and becomes the solution row by row; f are the factors, a matrix of order n.
ghost use Rattle.std.specs.Prelude.{◌≡◌, ℕ, ◌+◌, ◌*◌, ◌<◌, ◌≤◌, length, get_or};
ghost use Rattle.arithmetic_matrices.specs.Matrix.{tab, put};
ghost use Rattle.lu_factoring.specs.Solve.{permuted, solved_matrix, sign_of, determinant_of, forward as forward_of, back as back_of};
ghost use Rattle.lu_factoring.specs.Kernels.{each_column};
ghost use Rattle.lu_systems.specs.Kernels.{lower_entry, upper_entry, row_at, column_at};

use crate::pivots::swap_count;
use arithmetic_floats::real::Real;
use arithmetic_matrices::matrix::entry;
use lu_factoring::swap::exchange_rows;

// The swaps of the factoring, in their order.
fn permute_rows<T: Real>(x: &mut [T], n: usize, m: usize, pivots: &[usize])
    requires { (length x.old ≡ n * m) × (length pivots.now ≡ n) × ((k : ℕ) → k < n → get_or pivots.now k 0 < n) }
    ensures { T.floats x.new ≡ each_column n m (λ l. permuted n pivots.now l n) (T.floats x.old) }
{
    for k in 0..n {
        exchange_rows(x, 0, n, m, k, pivots[k]);
    }
}

// The C numbers at y + j and on: less the k factors at q times the first k rows, in the columns from j on. C is small: the compiler unrolls the loop over t
// and keeps the sums in registers.
fn lower_block<T: Real, const C: usize>(
    x: &mut [T],
    f: &[T],
    q: usize,
    y: usize,
    j: usize,
    k: usize,
    m: usize,
)
    requires { (j + C ≤ m) × (q + k ≤ length f.now) × (k * m ≤ length x.old) × (y + m ≤ length x.old) }
    ensures { T.floats x.new ≡ put (T.floats x.old) (y + j) (tab C (λ t. lower_entry T.format k (row_at (T.floats f.now) q) (column_at m (T.floats x.old) 0) (row_at (T.floats x.old) y) (j + t))) }
{
    let z = y + j;
    let mut sums = [T::ZERO; C];
    sums.copy_from_slice(&x[z..z + C]);
    for i in 0..k {
        let v = f[q + i];
        for t in 0..C {
            sums[t] = sums[t] - v * x[i * m + (j + t)];
        }
    }
    x[z..z + C].copy_from_slice(&sums);
}

// The row of m numbers at y, less the k factors at q times the first k rows, which stand before it.
fn lower_row<T: Real>(x: &mut [T], f: &[T], q: usize, y: usize, k: usize, m: usize)
    requires { (q + k ≤ length f.now) × (k * m ≤ y) × (y + m ≤ length x.old) }
    ensures { T.floats x.new ≡ put (T.floats x.old) y (tab m (lower_entry T.format k (row_at (T.floats f.now) q) (column_at m (T.floats x.old) 0) (row_at (T.floats x.old) y))) }
{
    for b in 0..m / 4 {
        lower_block::<T, 4>(x, f, q, y, 4 * b, k, m);
    }
    for j in 4 * (m / 4)..m {
        lower_block::<T, 1>(x, f, q, y, j, k, m);
    }
}

// The forward substitution: L has a unit diagonal.
fn forward_rows<T: Real>(x: &mut [T], f: &[T], n: usize, m: usize)
    requires { (length f.now ≡ n * n) × (length x.old ≡ n * m) }
    ensures { T.floats x.new ≡ each_column n m (λ l. forward_of T.format n (T.floats f.now) l n) (T.floats x.old) }
{
    for i in 0..n {
        lower_row(x, f, i * n, i * m, i, m);
    }
}

// The C numbers at y + j and on: less the k factors after the one at g times the k rows after the row at y, in the columns from j on, the last row
// first; then divided by the factor at g.
fn upper_block<T: Real, const C: usize>(
    x: &mut [T],
    f: &[T],
    g: usize,
    y: usize,
    j: usize,
    k: usize,
    m: usize,
)
    requires { (j + C ≤ m) × (g + k < length f.now) × (y + k * m + m ≤ length x.old) }
    ensures { T.floats x.new ≡ put (T.floats x.old) (y + j) (tab C (λ t. upper_entry T.format k (row_at (T.floats f.now) g) (column_at m (T.floats x.old) y) (row_at (T.floats x.old) y) (j + t))) }
{
    let z = y + j;
    let mut sums = [T::ZERO; C];
    sums.copy_from_slice(&x[z..z + C]);
    for i in 0..k {
        let r = k - i;
        let v = f[g + r];
        for t in 0..C {
            sums[t] = sums[t] - v * x[y + (r * m + (j + t))];
        }
    }
    let d = f[g];
    for t in 0..C {
        x[z + t] = sums[t] / d;
    }
}

// The row of m numbers at y, less the k factors after the one at g times the k rows after it, the last first; then divided by the factor at g.
fn upper_row<T: Real>(x: &mut [T], f: &[T], g: usize, y: usize, k: usize, m: usize)
    requires { (g + k < length f.now) × (y + k * m + m ≤ length x.old) }
    ensures { T.floats x.new ≡ put (T.floats x.old) y (tab m (upper_entry T.format k (row_at (T.floats f.now) g) (column_at m (T.floats x.old) y) (row_at (T.floats x.old) y))) }
{
    for b in 0..m / 4 {
        upper_block::<T, 4>(x, f, g, y, 4 * b, k, m);
    }
    for j in 4 * (m / 4)..m {
        upper_block::<T, 1>(x, f, g, y, j, k, m);
    }
}

// The back substitution.
fn back_rows<T: Real>(x: &mut [T], f: &[T], n: usize, m: usize)
    requires { (length f.now ≡ n * n) × (length x.old ≡ n * m) }
    ensures { T.floats x.new ≡ each_column n m (λ l. back_of T.format n (T.floats f.now) l n) (T.floats x.old) }
{
    for k in 0..n {
        let i = n - 1 - k;
        upper_row(x, f, i * n + i, i * m, k, m);
    }
}

// The right-hand matrix x becomes the solution of the systems whose matrix has the factors f and the pivots.
pub fn solve_rows<T: Real>(x: &mut [T], f: &[T], n: usize, m: usize, pivots: &[usize])
    requires { (length f.now ≡ n * n) × (length x.old ≡ n * m) × (length pivots.now ≡ n) × ((k : ℕ) → k < n → get_or pivots.now k 0 < n) }
    ensures { T.floats x.new ≡ solved_matrix T.format n m (T.floats f.now) pivots.now (T.floats x.old) }
{
    permute_rows(x, n, m, pivots);
    forward_rows(x, f, n, m);
    back_rows(x, f, n, m);
}

// 1 where the number of swaps is even, and -1 where it is odd.
pub fn sign<T: Real>(c: usize) -> T
    ensures { T.float result ≡ sign_of c }
{
    if c % 2 == 0 { T::ONE } else { -T::ONE }
}

// The determinant of the matrix that has the factors f and the pivots.
pub fn determinant<T: Real>(f: &[T], n: usize, pivots: &[usize]) -> T
    requires { (length f.now ≡ n * n) × (length pivots.now ≡ n) }
    ensures { T.float result ≡ determinant_of T.format n (T.floats f.now) pivots.now }
{
    let mut d = sign(swap_count(pivots, n));
    for k in 0..n {
        d = d * entry(f, n, n, k, k);
    }
    d
}
