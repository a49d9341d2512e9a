// Products of matrices of order n that stand in slices.
ghost use Rattle.std.specs.Prelude.{◌≡◌, ◌+◌, ◌*◌, ◌<◌, ◌≤◌, length};
ghost use Rattle.arithmetic_matrices.specs.Matrix.{tab, part, put, Apart};
ghost use Rattle.arithmetic_matrices.specs.Kernels.{row_dot};
ghost use Rattle.arithmetic_matrices.specs.Product.{mul_m};

use arithmetic_floats::real::Real;

// The row of n numbers of a from x on, times column j of the n by n matrix that begins in b at y.
// A caller may pass one slice as both.
pub fn row_dot<T: Real>(a: &[T], x: usize, b: &[T], y: usize, j: usize, n: usize) -> T
    requires { (n ≤ 16) × (j < n) × (x + n ≤ length a.now) × (y + n * n ≤ length b.now) }
    ensures { T.float result ≡ row_dot T.format n (T.floats a.now) x (T.floats b.now) y j }
{
    // A place counted in b could overflow after the last row.
    let column = &b[y + j..];
    let mut sum = T::ZERO;
    let mut p = 0;
    for k in 0..n {
        sum = sum + a[x + k] * column[p];
        p += n;
    }
    sum
}

// Writes to y + j and on the row at x times the C columns from j on of the n by n matrix at b. C is small: the compiler unrolls the loops over t
// and keeps the sums in registers.
fn mult_block<T: Real, const C: usize>(
    w: &mut [T],
    x: usize,
    b: usize,
    y: usize,
    j: usize,
    n: usize,
)
    requires { (n ≤ 16) × (j + C ≤ n) × (x + n ≤ length w.old) × (b + n * n ≤ length w.old) × (y + n ≤ length w.old) }
    ensures { T.floats w.new ≡ put (T.floats w.old) (y + j) (tab C (λ t. row_dot T.format n (T.floats w.old) x (T.floats w.old) b (j + t))) }
{
    let columns = &w[b + j..];
    let mut sums = [T::ZERO; C];
    let mut p = 0;
    for k in 0..n {
        let v = w[x + k];
        for t in 0..C {
            sums[t] = sums[t] + v * columns[p + t];
        }
        p += n;
    }
    let z = y + j;
    for t in 0..C {
        w[z + t] = sums[t];
    }
}

// Writes to y + j and on the row at x times the next columns, from j on, of the n by n matrix at b: eight of them, or four, two or one where
// fewer are left. Returns how many.
fn mult_next<T: Real>(w: &mut [T], x: usize, b: usize, y: usize, j: usize, n: usize) -> usize
    requires { (n ≤ 16) × (j < n) × (x + n ≤ length w.old) × (b + n * n ≤ length w.old) × (y + n ≤ length w.old) }
    ensures { (1 ≤ result) × (j + result ≤ n) × (T.floats w.new ≡ put (T.floats w.old) (y + j) (tab result (λ t. row_dot T.format n (T.floats w.old) x (T.floats w.old) b (j + t)))) }
{
    if j + 8 <= n {
        mult_block::<T, 8>(w, x, b, y, j, n);
        return 8;
    }
    if j + 4 <= n {
        mult_block::<T, 4>(w, x, b, y, j, n);
        return 4;
    }
    if j + 2 <= n {
        mult_block::<T, 2>(w, x, b, y, j, n);
        return 2;
    }
    w[y + j] = row_dot(w, x, w, b, j, n);
    1
}

// Writes to y the row at x times the n by n matrix at b.
pub fn mult_row<T: Real>(w: &mut [T], x: usize, b: usize, y: usize, n: usize)
    requires n_bound { (n ≤ 16) × (x + n ≤ length w.old) × (b + n * n ≤ length w.old) × (y + n ≤ length w.old) }
    requires apart { Apart x n y n × Apart b (n * n) y n }
    ensures { T.floats w.new ≡ put (T.floats w.old) y (tab n (row_dot T.format n (T.floats w.old) x (T.floats w.old) b)) }
{
    let mut j = 0;
    // The step is what `mult_next` returns, so no range fits.
    while j < n {
        j += mult_next(w, x, b, y, j, n);
    }
}

// Writes to c the product of the n by n matrices at a and b.
pub fn mat_mult<T: Real>(w: &mut [T], a: usize, b: usize, c: usize, n: usize)
    requires n_bound { (n ≤ 16) × (a + n * n ≤ length w.old) × (b + n * n ≤ length w.old) × (c + n * n ≤ length w.old) }
    requires apart { Apart a (n * n) c (n * n) × Apart b (n * n) c (n * n) }
    ensures { T.floats w.new ≡ put (T.floats w.old) c (mul_m T.format n (part (T.floats w.old) a (n * n)) (part (T.floats w.old) b (n * n))) }
{
    let mut x = a;
    let mut y = c;
    for i in 0..n {
        mult_row(w, x, b, y, n);
        x += n;
        y += n;
    }
}
