// Norms of a matrix of order n in a slot.
ghost use Rattle.std.specs.Prelude.{◌≡◌, ◌+◌, ◌*◌, ◌<◌, ◌≤◌, length};
ghost use Rattle.std.specs.Float.Ieee.{sub};
ghost use Rattle.arithmetic_matrices.specs.Matrix.{tab, item, part};
ghost use Rattle.arithmetic_matrices.specs.Product.{minus_identity_entry, minus_identity_m};
ghost use Rattle.arithmetic_matrices.specs.Norm.{sum_of_magnitudes, norm1, sum_of_squares, trace as trace_of};
ghost use Rattle.arithmetic_matrices.specs.Workspace.{slot, Room};

use arithmetic_floats::compare::larger;
use arithmetic_floats::real::Real;

// Two sums, taken in one loop.
#[derive(Clone, Copy)]
pub struct Sums<T> {
    pub first: T,
    pub second: T,
}

// The sum of the magnitudes of column j of the n by n matrix at x.
pub fn column_sum<T: Real>(w: &[T], x: usize, j: usize, n: usize) -> T
    requires { (j < n) × (x + n * n ≤ length w.now) }
    ensures { T.float result ≡ sum_of_magnitudes T.format n (λ i. item (T.floats w.now) (x + (i * n + j))) }
{
    let mut sum = T::ZERO;
    for i in 0..n {
        sum = sum + w[x + (i * n + j)].magnitude();
    }
    sum
}

// The sums of the magnitudes of columns j and j + 1 of the n by n matrix at x. Their numbers stand side by side, so a processor can take two at once.
pub fn two_column_sums<T: Real>(w: &[T], x: usize, j: usize, n: usize) -> Sums<T>
    requires { (j + 1 < n) × (x + n * n ≤ length w.now) }
    ensures { (T.float result.first ≡ sum_of_magnitudes T.format n (λ i. item (T.floats w.now) (x + (i * n + j)))) × (T.float result.second ≡ sum_of_magnitudes T.format n (λ i. item (T.floats w.now) (x + (i * n + (j + 1))))) }
{
    let mut first = T::ZERO;
    let mut second = T::ZERO;
    for i in 0..n {
        first = first + w[x + (i * n + j)].magnitude();
        second = second + w[x + (i * n + (j + 1))].magnitude();
    }
    Sums { first, second }
}

// The 1-norm of the matrix of order n in slot a.
pub fn norm_1<T: Real>(w: &[T], a: usize, n: usize) -> T
    requires room { Room n (T.floats w.now) }
    requires a_bound { a < 32 }
    ensures { T.float result ≡ norm1 T.format n (slot n (T.floats w.now) a) }
{
    let x = 256 * a;
    let mut max = T::ZERO;
    for k in 0..n / 2 {
        let sums = two_column_sums(w, x, 2 * k, n);
        max = larger(larger(max, sums.first), sums.second);
    }
    if n % 2 == 1 {
        larger(max, column_sum(w, x, n - 1, n))
    } else {
        max
    }
}

// The entry v in row i, column j of a matrix, less the one of the identity.
pub fn minus_identity_entry<T: Real>(i: usize, j: usize, v: T) -> T
    ensures { T.float result ≡ minus_identity_entry T.format i j (T.float v) }
{
    if i == j { v - T::ONE } else { v }
}

// The sum of the magnitudes of column j of the n by n matrix at x less the identity.
// Not one with `column_sum` over a closure: its contract would have to say what each call of the closure returns.
pub fn column_sum_minus_identity<T: Real>(w: &[T], x: usize, j: usize, n: usize) -> T
    requires { (j < n) × (x + n * n ≤ length w.now) }
    ensures { T.float result ≡ sum_of_magnitudes T.format n (λ i. minus_identity_entry T.format i j (item (T.floats w.now) (x + (i * n + j)))) }
{
    let mut sum = T::ZERO;
    for i in 0..n {
        sum = sum + minus_identity_entry(i, j, w[x + (i * n + j)]).magnitude();
    }
    sum
}

// The 1-norm of the matrix of order n in slot a less the identity. Not one with `norm_1`, which takes two columns a turn.
pub fn norm_1_minus_identity<T: Real>(w: &[T], a: usize, n: usize) -> T
    requires room { Room n (T.floats w.now) }
    requires a_bound { a < 32 }
    ensures { T.float result ≡ norm1 T.format n (minus_identity_m T.format n (slot n (T.floats w.now) a)) }
{
    let x = 256 * a;
    let mut max = T::ZERO;
    for j in 0..n {
        max = larger(max, column_sum_minus_identity(w, x, j, n));
    }
    max
}

// The sum of the squares of the k numbers from x on.
pub fn sum_of_squares<T: Real>(w: &[T], x: usize, k: usize) -> T
    requires { x + k ≤ length w.now }
    ensures { T.float result ≡ sum_of_squares T.format k (part (T.floats w.now) x k) }
{
    let mut sum = T::ZERO;
    for i in 0..k {
        let v = w[x + i];
        sum = sum + v * v;
    }
    sum
}

// The sums of the squares of the k numbers from x on, and of those from y on.
pub fn sums_of_squares<T: Real>(w: &[T], x: usize, y: usize, k: usize) -> Sums<T>
    requires { (x + k ≤ length w.now) × (y + k ≤ length w.now) }
    ensures { (T.float result.first ≡ sum_of_squares T.format k (part (T.floats w.now) x k)) × (T.float result.second ≡ sum_of_squares T.format k (part (T.floats w.now) y k)) }
{
    let mut first = T::ZERO;
    let mut second = T::ZERO;
    for i in 0..k {
        let u = w[x + i];
        let v = w[y + i];
        first = first + u * u;
        second = second + v * v;
    }
    Sums { first, second }
}

// The sum of the squares of the differences of the k numbers from x on and those from y on.
pub fn sum_of_squared_differences<T: Real>(w: &[T], x: usize, y: usize, k: usize) -> T
    requires { (x + k ≤ length w.now) × (y + k ≤ length w.now) }
    ensures { T.float result ≡ sum_of_squares T.format k (tab k (λ i. sub T.format (item (T.floats w.now) (x + i)) (item (T.floats w.now) (y + i)))) }
{
    let mut sum = T::ZERO;
    for i in 0..k {
        let v = w[x + i] - w[y + i];
        sum = sum + v * v;
    }
    sum
}

// The sum of the diagonal of the matrix of order n in slot a.
pub fn trace<T: Real>(w: &[T], a: usize, n: usize) -> T
    requires room { Room n (T.floats w.now) }
    requires a_bound { a < 32 }
    ensures { T.float result ≡ trace_of T.format n (slot n (T.floats w.now) a) }
{
    let x = 256 * a;
    let mut sum = T::ZERO;
    for i in 0..n {
        sum = sum + w[x + (i * n + i)];
    }
    sum
}
