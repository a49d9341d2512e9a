// Entries, columns and rows of a matrix of r rows and c columns.
ghost use Rattle.std.specs.Prelude.{◌≡◌, ℕ, ◌+◌, ◌*◌, ◌<◌, ◌≤◌, length, set};
ghost use Rattle.arithmetic_matrices.specs.Matrix.{at};
ghost use Rattle.arithmetic_matrices.specs.Kernels.{put_rows};

use arithmetic_floats::real::Real;

// Entry (i, j) of a matrix of r rows and c columns.
pub fn entry<T: Real>(b: &[T], r: usize, c: usize, i: usize, j: usize) -> T
    requires { (i < r) × (j < c) × (length b.now ≡ r * c) }
    ensures { T.float result ≡ at c (T.floats b.now) i j }
{
    b[i * c + j]
}

// Entry (i, j) of a matrix of r rows and c columns becomes v.
pub fn set_entry<T: Real>(b: &mut [T], r: usize, c: usize, i: usize, j: usize, v: T)
    requires { (i < r) × (j < c) × (length b.old ≡ r * c) }
    ensures { T.floats b.new ≡ set (T.floats b.old) (i * c + j) (T.float v) }
{
    b[i * c + j] = v;
}

// Copies the rows of the n by n matrix src to w: the first to o, each `step` after the one before.
pub fn place<T: Real>(w: &mut [T], o: usize, step: usize, src: &[T], n: usize)
    requires src_len { length src.now ≡ n * n }
    requires by_index { (i : ℕ) → i < n → o + i * step + n ≤ length w.old }
    ensures { T.floats w.new ≡ put_rows (T.floats w.old) o step n n (at n (T.floats src.now)) }
{
    for i in 0..n {
        let x = i * n;
        let y = o + i * step;
        w[y..y + n].copy_from_slice(&src[x..x + n]);
    }
}
