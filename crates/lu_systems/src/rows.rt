// The substitutions for all right-hand columns at once, by the rows of the right-hand matrix. It has n rows and m columns and stands in w from x on;
// the factors, a matrix of order n, stand at f.
ghost use Rattle.std.specs.Prelude.{◌≡◌, ℕ, ◌+◌, ◌*◌, ◌<◌, ◌≤◌, length, get_or};
ghost use Rattle.arithmetic_matrices.specs.Matrix.{tab, at, part, put, Apart};
ghost use Rattle.arithmetic_matrices.specs.Kernels.{patch};
ghost use Rattle.lu_factoring.specs.Solve.{permuted, back_step, forward as forward_of, back as back_of};
ghost use Rattle.lu_factoring.specs.Kernels.{lowered, each_column};
ghost use Rattle.lu_systems.specs.Kernels.{lower_entry, upper_entry, row_at, column_at};

use arithmetic_floats::real::Real;
use lu_factoring::swap::exchange_rows;

// Entry (i, k) of the factors.
fn factor_at<T: Real>(w: &[T], f: usize, n: usize, i: usize, k: usize) -> T
    requires { (i < n) × (k < n) × (f + n * n ≤ length w.now) }
    ensures { T.float result ≡ at n (part (T.floats w.now) f (n * n)) i k }
{
    w[f + (i * n + k)]
}

// The swaps of the factoring, in their order.
pub fn permute_rows<T: Real>(w: &mut [T], x: usize, n: usize, m: usize, pivots: &[usize])
    requires { (x + n * m ≤ length w.old) × (length pivots.now ≡ n) × ((k : ℕ) → k < n → get_or pivots.now k 0 < n) }
    ensures { T.floats w.new ≡ put (T.floats w.old) x (each_column n m (λ l. permuted n pivots.now l n) (part (T.floats w.old) x (n * m))) }
{
    for k in 0..n {
        exchange_rows(w, x, n, m, k, pivots[k]);
    }
}

// One right-hand column: its rows from lo up to hi, less their factors in column k times row k.
fn lower_column<T: Real>(w: &mut [T], f: usize, x: usize, n: usize, k: usize, lo: usize, hi: usize)
    requires k_lt_n { (k < n) × (lo ≤ hi) × (hi ≤ n) }
    requires n_in_bounds { (f + n * n ≤ length w.old) × (x + n ≤ length w.old) × Apart f (n * n) x n }
    ensures { T.floats w.new ≡ put (T.floats w.old) x (patch lo hi (lowered T.format n (part (T.floats w.old) f (n * n)) k (part (T.floats w.old) x n)) (part (T.floats w.old) x n)) }
{
    let v = w[x + k];
    for i in lo..hi {
        w[x + i] = w[x + i] - factor_at(w, f, n, i, k) * v;
    }
}

// The forward substitution of one column.
fn forward_column<T: Real>(w: &mut [T], f: usize, x: usize, n: usize)
    requires { (f + n * n ≤ length w.old) × (x + n ≤ length w.old) × Apart f (n * n) x n }
    ensures { T.floats w.new ≡ put (T.floats w.old) x (forward_of T.format n (part (T.floats w.old) f (n * n)) (part (T.floats w.old) x n) n) }
{
    for k in 0..n {
        lower_column(w, f, x, n, k, k + 1, n);
    }
}

// One column of the factors in the back substitution of one column.
fn back_column_step<T: Real>(w: &mut [T], f: usize, x: usize, n: usize, k: usize)
    requires { (k < n) × (f + n * n ≤ length w.old) × (x + n ≤ length w.old) × Apart f (n * n) x n }
    ensures { T.floats w.new ≡ put (T.floats w.old) x (back_step T.format n (part (T.floats w.old) f (n * n)) k (part (T.floats w.old) x n)) }
{
    w[x + k] = w[x + k] / factor_at(w, f, n, k, k);
    lower_column(w, f, x, n, k, 0, k);
}

// The back substitution of one column.
fn back_column<T: Real>(w: &mut [T], f: usize, x: usize, n: usize)
    requires { (f + n * n ≤ length w.old) × (x + n ≤ length w.old) × Apart f (n * n) x n }
    ensures { T.floats w.new ≡ put (T.floats w.old) x (back_of T.format n (part (T.floats w.old) f (n * n)) (part (T.floats w.old) x n) n) }
{
    for k in 0..n {
        back_column_step(w, f, x, n, n - (k + 1));
    }
}

// The C numbers at y + j and on: less the k numbers at q times the first k rows, of m numbers each, at x, in the columns from j on. C is small: the
// compiler unrolls the loop over t and keeps the sums in registers.
fn lower_block<T: Real, const C: usize>(
    w: &mut [T],
    q: usize,
    x: usize,
    y: usize,
    j: usize,
    k: usize,
    m: usize,
)
    requires { (j + C ≤ m) × (q + k ≤ length w.old) × (x + k * m ≤ length w.old) × (y + m ≤ length w.old) }
    ensures { T.floats w.new ≡ put (T.floats w.old) (y + j) (tab C (λ t. lower_entry T.format k (row_at (T.floats w.old) q) (column_at m (T.floats w.old) x) (row_at (T.floats w.old) y) (j + t))) }
{
    let z = y + j;
    let mut sums = [T::ZERO; C];
    sums.copy_from_slice(&w[z..z + C]);
    for i in 0..k {
        let v = w[q + i];
        let r = x + (i * m + j);
        for t in 0..C {
            sums[t] = sums[t] - v * w[r + t];
        }
    }
    w[z..z + C].copy_from_slice(&sums);
}

// The same for the next numbers: four of them, or one where fewer than four are left. Returns how many.
fn lower_next<T: Real>(
    w: &mut [T],
    q: usize,
    x: usize,
    y: usize,
    j: usize,
    k: usize,
    m: usize,
) -> usize
    requires { (j < m) × (q + k ≤ length w.old) × (x + k * m ≤ length w.old) × (y + m ≤ length w.old) }
    ensures { (1 ≤ result) × (j + result ≤ m) × (T.floats w.new ≡ put (T.floats w.old) (y + j) (tab result (λ t. lower_entry T.format k (row_at (T.floats w.old) q) (column_at m (T.floats w.old) x) (row_at (T.floats w.old) y) (j + t)))) }
{
    if 4 <= m - j {
        lower_block::<T, 4>(w, q, x, y, j, k, m);
        return 4;
    }
    lower_block::<T, 1>(w, q, x, y, j, k, m);
    1
}

// The row of m numbers at y, less the k numbers at q times the first k rows at x.
fn lower_row<T: Real>(w: &mut [T], q: usize, x: usize, y: usize, k: usize, m: usize)
    requires { (q + k ≤ length w.old) × (x + k * m ≤ length w.old) × (y + m ≤ length w.old) × Apart q k y m × Apart x (k * m) y m }
    ensures { T.floats w.new ≡ put (T.floats w.old) y (tab m (lower_entry T.format k (row_at (T.floats w.old) q) (column_at m (T.floats w.old) x) (row_at (T.floats w.old) y))) }
{
    let mut j = 0;
    // The step is what `lower_next` returns, so no range fits.
    while j < m {
        j += lower_next(w, q, x, y, j, k, m);
    }
}

// The forward substitution row by row.
fn forward_by_rows<T: Real>(w: &mut [T], f: usize, x: usize, n: usize, m: usize)
    requires { (f + n * n ≤ length w.old) × (x + n * m ≤ length w.old) × Apart f (n * n) x (n * m) }
    ensures { T.floats w.new ≡ put (T.floats w.old) x (each_column n m (λ l. forward_of T.format n (part (T.floats w.old) f (n * n)) l n) (part (T.floats w.old) x (n * m))) }
{
    for i in 0..n {
        lower_row(w, f + i * n, x, x + i * m, i, m);
    }
}

// The forward substitution: L has a unit diagonal. A single column has a loop of its own, which is faster.
pub fn forward_rows<T: Real>(w: &mut [T], f: usize, x: usize, n: usize, m: usize)
    requires { (f + n * n ≤ length w.old) × (x + n * m ≤ length w.old) × Apart f (n * n) x (n * m) }
    ensures { T.floats w.new ≡ put (T.floats w.old) x (each_column n m (λ l. forward_of T.format n (part (T.floats w.old) f (n * n)) l n) (part (T.floats w.old) x (n * m))) }
{
    if m == 1 {
        forward_column(w, f, x, n);
    } else {
        forward_by_rows(w, f, x, n, m);
    }
}

// The C numbers at y + j and on: less the k numbers after g times the k rows, of m numbers each, after the row at y, in the columns from j on, the
// last row first; then divided by the number at g. C is small, as above.
fn upper_block<T: Real, const C: usize>(
    w: &mut [T],
    g: usize,
    y: usize,
    j: usize,
    k: usize,
    m: usize,
)
    requires { (j + C ≤ m) × (g + k < length w.old) × (y + k * m + m ≤ length w.old) }
    ensures { T.floats w.new ≡ put (T.floats w.old) (y + j) (tab C (λ t. upper_entry T.format k (row_at (T.floats w.old) g) (column_at m (T.floats w.old) y) (row_at (T.floats w.old) y) (j + t))) }
{
    let z = y + j;
    let mut sums = [T::ZERO; C];
    sums.copy_from_slice(&w[z..z + C]);
    for i in 0..k {
        let v = w[g + (k - i)];
        let p = y + ((k - i) * m + j);
        for t in 0..C {
            sums[t] = sums[t] - v * w[p + t];
        }
    }
    let d = w[g];
    for t in 0..C {
        w[z + t] = sums[t] / d;
    }
}

// The same for the next numbers: four of them, or one where fewer than four are left. Returns how many.
fn upper_next<T: Real>(w: &mut [T], g: usize, y: usize, j: usize, k: usize, m: usize) -> usize
    requires { (j < m) × (g + k < length w.old) × (y + k * m + m ≤ length w.old) }
    ensures { (1 ≤ result) × (j + result ≤ m) × (T.floats w.new ≡ put (T.floats w.old) (y + j) (tab result (λ t. upper_entry T.format k (row_at (T.floats w.old) g) (column_at m (T.floats w.old) y) (row_at (T.floats w.old) y) (j + t)))) }
{
    if 4 <= m - j {
        upper_block::<T, 4>(w, g, y, j, k, m);
        return 4;
    }
    upper_block::<T, 1>(w, g, y, j, k, m);
    1
}

// The row of m numbers at y, less the k numbers after g times the k rows after it, the last first; then divided by the number at g.
fn upper_row<T: Real>(w: &mut [T], g: usize, y: usize, k: usize, m: usize)
    requires { (g + k < length w.old) × (y + k * m + m ≤ length w.old) × Apart g (k + 1) y m }
    ensures { T.floats w.new ≡ put (T.floats w.old) y (tab m (upper_entry T.format k (row_at (T.floats w.old) g) (column_at m (T.floats w.old) y) (row_at (T.floats w.old) y))) }
{
    let mut j = 0;
    // The step is what `upper_next` returns, so no range fits.
    while j < m {
        j += upper_next(w, g, y, j, k, m);
    }
}

// The back substitution row by row.
fn back_by_rows<T: Real>(w: &mut [T], f: usize, x: usize, n: usize, m: usize)
    requires { (f + n * n ≤ length w.old) × (x + n * m ≤ length w.old) × Apart f (n * n) x (n * m) }
    ensures { T.floats w.new ≡ put (T.floats w.old) x (each_column n m (λ l. back_of T.format n (part (T.floats w.old) f (n * n)) l n) (part (T.floats w.old) x (n * m))) }
{
    for k in 0..n {
        let i = n - (k + 1);
        upper_row(w, f + i * n + i, x + i * m, k, m);
    }
}

// The back substitution. A single column has a loop of its own, which is faster.
pub fn back_rows<T: Real>(w: &mut [T], f: usize, x: usize, n: usize, m: usize)
    requires { (f + n * n ≤ length w.old) × (x + n * m ≤ length w.old) × Apart f (n * n) x (n * m) }
    ensures { T.floats w.new ≡ put (T.floats w.old) x (each_column n m (λ l. back_of T.format n (part (T.floats w.old) f (n * n)) l n) (part (T.floats w.old) x (n * m))) }
{
    if m == 1 {
        back_column(w, f, x, n);
    } else {
        back_by_rows(w, f, x, n, m);
    }
}
