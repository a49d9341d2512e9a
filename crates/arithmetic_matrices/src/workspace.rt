// Matrices of order n in the slots of one lent workspace.
ghost use Rattle.std.specs.Prelude.{◌≡◌, false, cond, ◌+◌, ◌*◌, ◌<◌, ◌≤◌, eqb, length};
ghost use Rattle.arithmetic_matrices.specs.Matrix.{tab, item, part, put, Apart};
ghost use Rattle.arithmetic_matrices.specs.Product.{mul_m, times_m, add_multiple_m, deduct_m, zero_m, add_m, mean_m, difference_quotient_m, diagonal_entry, diagonal_m, identity_m, minus_identity_m, transpose_m};
ghost use Rattle.arithmetic_matrices.specs.Workspace.{slot, store, Room, cleared};
ghost use Rattle.arithmetic_matrices.specs.Kernels.{Squared};

use crate::product::mat_mult;
use arithmetic_floats::real::Real;

// Room for 64 numbers: a matrix of order up to 8, or a column.
pub fn small_room<T: Real>() -> [T; 64]
    ensures { 64 ≡ length result }
{
    [T::ZERO; 64]
}

// Copies a matrix to the workspace, from slot a on.
pub fn copy_in<T: Real>(w: &mut [T], a: usize, src: &[T])
    requires { (a < 32) × (256 * a + length src.now ≤ length w.old) }
    ensures { T.floats w.new ≡ store (T.floats w.old) a (T.floats src.now) }
{
    let x = 256 * a;
    w[x..x + src.len()].copy_from_slice(src);
}

// Copies the matrix that stands in the workspace from slot a on, as many numbers as out has.
pub fn copy_out<T: Real>(w: &[T], a: usize, out: &mut [T])
    requires { (a < 32) × (256 * a + length out.old ≤ length w.now) }
    ensures { T.floats out.new ≡ part (T.floats w.now) (256 * a) (length out.old) }
{
    let x = 256 * a;
    // Not `copy_from_slice`: only a loop lets a wrong program spoil each number (must-fail/fixed_matrix).
    for k in 0..out.len() {
        out[k] = w[x + k];
    }
}

// Copies the matrix of order n in slot a to slot c.
pub fn copy<T: Real>(w: &mut [T], a: usize, c: usize, n: usize)
    requires room { Room n (T.floats w.old) }
    requires a_bound { (a < 32) × (c < 32) × (eqb a c ≡ false) }
    ensures { T.floats w.new ≡ store (T.floats w.old) c (slot n (T.floats w.old) a) }
{
    let x = 256 * a;
    let y = 256 * c;
    let m = n * n;
    w.copy_within(x..x + m, y);
}

// Writes +0 to every slot.
pub fn clear<T: Real>(w: &mut [T])
    requires { 8192 ≤ length w.old }
    ensures { T.floats w.new ≡ cleared (T.floats w.old) }
{
    // Not `fill`: it needs that a clone cannot fail, which generic code does not know.
    for k in 0..8192 {
        w[k] = T::ZERO;
    }
}

// `clear` where `clears` says so.
pub fn clear_where<T: Real>(w: &mut [T], clears: bool)
    requires { 8192 ≤ length w.old }
    ensures { T.floats w.new ≡ cond clears (cleared (T.floats w.old)) (T.floats w.old) }
{
    if clears {
        clear(w);
    }
}

// Writes to slot c the product of the matrices of order n in slots a and b.
pub fn mult<T: Real>(w: &mut [T], a: usize, b: usize, c: usize, n: usize)
    requires room { Room n (T.floats w.old) }
    requires a_bound { (a < 32) × (b < 32) × (c < 32) × (eqb a c ≡ false) × (eqb b c ≡ false) }
    ensures { T.floats w.new ≡ store (T.floats w.old) c (mul_m T.format n (slot n (T.floats w.old) a) (slot n (T.floats w.old) b)) }
{
    mat_mult(w, 256 * a, 256 * b, 256 * c, n);
}

// Multiplies each entry of the matrix in slot a by `by`.
pub fn scale<T: Real>(w: &mut [T], a: usize, by: T, n: usize)
    requires room { Room n (T.floats w.old) }
    requires a_bound { a < 32 }
    ensures { T.floats w.new ≡ store (T.floats w.old) a (times_m T.format n (T.float by) (slot n (T.floats w.old) a)) }
{
    let x = 256 * a;
    let m = n * n;
    for k in 0..m {
        w[x + k] = w[x + k] * by;
    }
}

// Writes to slot c `by` times the matrix in slot a.
pub fn times<T: Real>(w: &mut [T], a: usize, c: usize, by: T, n: usize)
    requires room { Room n (T.floats w.old) }
    requires a_bound { (a < 32) × (c < 32) × (eqb a c ≡ false) }
    ensures { T.floats w.new ≡ store (T.floats w.old) c (times_m T.format n (T.float by) (slot n (T.floats w.old) a)) }
{
    let x = 256 * a;
    let y = 256 * c;
    let m = n * n;
    for k in 0..m {
        w[y + k] = by * w[x + k];
    }
}

// Adds to each entry of the matrix in slot c the one of slot a.
pub fn add<T: Real>(w: &mut [T], c: usize, a: usize, n: usize)
    requires room { Room n (T.floats w.old) }
    requires c_bound { (c < 32) × (a < 32) × (eqb a c ≡ false) }
    ensures { T.floats w.new ≡ store (T.floats w.old) c (add_m T.format n (slot n (T.floats w.old) c) (slot n (T.floats w.old) a)) }
{
    let x = 256 * a;
    let y = 256 * c;
    let m = n * n;
    for k in 0..m {
        w[y + k] = w[y + k] + w[x + k];
    }
}

// Writes to slot c the mean of the matrices in slots a and b.
pub fn mean<T: Real>(w: &mut [T], a: usize, b: usize, c: usize, n: usize)
    requires room { Room n (T.floats w.old) }
    requires a_bound { (a < 32) × (b < 32) × (c < 32) × (eqb a c ≡ false) × (eqb b c ≡ false) }
    ensures { T.floats w.new ≡ store (T.floats w.old) c (mean_m T.format n (slot n (T.floats w.old) a) (slot n (T.floats w.old) b)) }
{
    let x = 256 * a;
    let z = 256 * b;
    let y = 256 * c;
    let m = n * n;
    for k in 0..m {
        w[y + k] = (w[x + k] + w[z + k]) * T::HALF;
    }
}

// Adds to each entry of the matrix in slot c the one of slot p times `by`.
pub fn accumulate<T: Real>(w: &mut [T], c: usize, p: usize, by: T, n: usize)
    requires room { Room n (T.floats w.old) }
    requires c_bound { (c < 32) × (p < 32) × (eqb p c ≡ false) }
    ensures { T.floats w.new ≡ store (T.floats w.old) c (add_multiple_m T.format n (T.float by) (slot n (T.floats w.old) p) (slot n (T.floats w.old) c)) }
{
    let x = 256 * p;
    let y = 256 * c;
    let m = n * n;
    for k in 0..m {
        w[y + k] = w[y + k] + by * w[x + k];
    }
}

// Takes from each entry of the matrix in slot c the one of slot p times `by`.
pub fn deduct<T: Real>(w: &mut [T], c: usize, p: usize, by: T, n: usize)
    requires room { Room n (T.floats w.old) }
    requires c_bound { (c < 32) × (p < 32) × (eqb p c ≡ false) }
    ensures { T.floats w.new ≡ store (T.floats w.old) c (deduct_m T.format n (T.float by) (slot n (T.floats w.old) p) (slot n (T.floats w.old) c)) }
{
    let x = 256 * p;
    let y = 256 * c;
    let m = n * n;
    for k in 0..m {
        w[y + k] = w[y + k] - w[x + k] * by;
    }
}

// Takes from each entry of the matrix in slot c the one of slot b, and divides the difference by h.
pub fn difference_quotient<T: Real>(w: &mut [T], c: usize, b: usize, h: T, n: usize)
    requires room { Room n (T.floats w.old) }
    requires c_bound { (c < 32) × (b < 32) × (eqb b c ≡ false) }
    ensures { T.floats w.new ≡ store (T.floats w.old) c (difference_quotient_m T.format n (T.float h) (slot n (T.floats w.old) c) (slot n (T.floats w.old) b)) }
{
    let x = 256 * b;
    let y = 256 * c;
    let m = n * n;
    for k in 0..m {
        w[y + k] = (w[y + k] - w[x + k]) / h;
    }
}

// Writes +0 to each entry of the matrix of order n in slot a.
pub fn zero<T: Real>(w: &mut [T], a: usize, n: usize)
    requires room { Room n (T.floats w.old) }
    requires a_bound { a < 32 }
    ensures { T.floats w.new ≡ store (T.floats w.old) a (zero_m n) }
{
    let x = 256 * a;
    let m = n * n;
    // Not `fill`, as in `clear`.
    for k in 0..m {
        w[x + k] = T::ZERO;
    }
}

// The entry in row i, column j of d times the identity.
pub fn diagonal_entry<T: Real>(d: T, i: usize, j: usize) -> T
    ensures { T.float result ≡ diagonal_entry (T.float d) i j }
{
    if i == j { d } else { T::ZERO }
}

// Writes row i of d times the identity of order n to y.
pub fn diagonal_row<T: Real>(w: &mut [T], y: usize, d: T, i: usize, n: usize)
    requires { (n ≤ 16) × (y + n ≤ length w.old) }
    ensures { T.floats w.new ≡ put (T.floats w.old) y (tab n (diagonal_entry (T.float d) i)) }
{
    for j in 0..n {
        w[y + j] = diagonal_entry(d, i, j);
    }
}

// Writes d times the identity of order n to slot a.
pub fn diagonal<T: Real>(w: &mut [T], a: usize, d: T, n: usize)
    requires room { Room n (T.floats w.old) }
    requires a_bound { a < 32 }
    ensures { T.floats w.new ≡ store (T.floats w.old) a (diagonal_m n (T.float d)) }
{
    let mut y = 256 * a;
    for i in 0..n {
        diagonal_row(w, y, d, i, n);
        y += n;
    }
}

// Writes the identity of order n to slot a.
pub fn identity<T: Real>(w: &mut [T], a: usize, n: usize)
    requires room { Room n (T.floats w.old) }
    requires a_bound { a < 32 }
    ensures { T.floats w.new ≡ store (T.floats w.old) a (identity_m n) }
{
    diagonal(w, a, T::ONE, n);
}

// Takes the identity from the matrix of order n in slot a.
pub fn minus_identity<T: Real>(w: &mut [T], a: usize, n: usize)
    requires room { Room n (T.floats w.old) }
    requires a_bound { a < 32 }
    ensures { T.floats w.new ≡ store (T.floats w.old) a (minus_identity_m T.format n (slot n (T.floats w.old) a)) }
{
    let mut q = 256 * a;
    for i in 0..n {
        w[q] = w[q] - T::ONE;
        q += n + 1;
    }
}

// Writes column i of the n by n matrix at x to y.
pub fn transpose_row<T: Real>(w: &mut [T], x: usize, y: usize, i: usize, n: usize)
    requires n_bound { (n ≤ 16) × (i < n) × (x + n * n ≤ length w.old) × (y + n ≤ length w.old) }
    requires apart { Apart x (n * n) y n }
    ensures { T.floats w.new ≡ put (T.floats w.old) y (tab n (λ j. item (T.floats w.old) (x + (j * n + i)))) }
{
    for j in 0..n {
        w[y + j] = w[x + (j * n + i)];
    }
}

// Writes to slot c the transpose of the matrix of order n in slot a.
pub fn transpose<T: Real>(w: &mut [T], a: usize, c: usize, n: usize)
    requires room { Room n (T.floats w.old) }
    requires a_bound { (a < 32) × (c < 32) × (eqb a c ≡ false) }
    ensures { T.floats w.new ≡ store (T.floats w.old) c (transpose_m n (slot n (T.floats w.old) a)) }
{
    let x = 256 * a;
    let mut y = 256 * c;
    for i in 0..n {
        transpose_row(w, x, y, i, n);
        y += n;
    }
}

// Squares the matrix of order n in slot a s times. Slot t is scratch.
pub fn square<T: Real>(w: &mut [T], a: usize, t: usize, n: usize, s: u64)
    requires room { Room n (T.floats w.old) }
    requires a_bound { (a < 32) × (t < 32) × (eqb a t ≡ false) }
    ensures { Squared T.format n (T.floats w.old) a t s (T.floats w.new) }
{
    for done in 0..s {
        mult(w, a, a, t, n);
        copy(w, t, a, n);
    }
}
