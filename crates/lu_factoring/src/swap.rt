// Rows that change places.
ghost use Rattle.std.specs.Prelude.{◌≡◌, ◌+◌, ◌*◌, ◌<◌, ◌≤◌, length};
ghost use Rattle.arithmetic_matrices.specs.Matrix.{part, put, Apart};
ghost use Rattle.lu_factoring.specs.Solve.{swap_items};
ghost use Rattle.lu_factoring.specs.Kernels.{each_column};

use arithmetic_floats::real::Real;

// The m numbers at x and those at y change places.
pub fn swap_parts<T: Real>(w: &mut [T], x: usize, y: usize, m: usize)
    requires { (x + m ≤ length w.old) × (y + m ≤ length w.old) × Apart x m y m }
    ensures { T.floats w.new ≡ put (put (T.floats w.old) x (part (T.floats w.old) y m)) y (part (T.floats w.old) x m) }
{
    for j in 0..m {
        let a = w[x + j];
        let b = w[y + j];
        w[x + j] = b;
        w[y + j] = a;
    }
}

// Rows k and p change places.
pub fn exchange_rows<T: Real>(w: &mut [T], x: usize, n: usize, m: usize, k: usize, p: usize)
    requires { (k < n) × (p < n) × (x + n * m ≤ length w.old) }
    ensures { T.floats w.new ≡ put (T.floats w.old) x (each_column n m (swap_items n k p) (part (T.floats w.old) x (n * m))) }
{
    if p != k {
        swap_parts(w, x + k * m, x + p * m, m);
    }
}
