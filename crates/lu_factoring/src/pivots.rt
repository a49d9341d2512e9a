// The pivots, read off the factors that LU leaves.
ghost use Rattle.std.specs.Prelude.{◌≡◌, ◌+◌, ◌*◌, ◌≤◌, length};
ghost use Rattle.arithmetic_matrices.specs.Matrix.{part};
ghost use Rattle.lu_factoring.specs.Kernels.{diagonal_smallest};

use arithmetic_floats::compare::smaller;
use arithmetic_floats::real::Real;

// The smallest magnitude on the diagonal of the n by n matrix at off, which holds the factors of LU.
pub fn smallest_pivot<T: Real>(w: &[T], off: usize, n: usize) -> T
    requires { off + n * n ≤ length w.now }
    ensures { T.float result ≡ diagonal_smallest n (part (T.floats w.now) off (n * n)) }
{
    let mut least = T::INFINITY;
    for k in 0..n {
        least = smaller(least, w[off + (k * n + k)].magnitude());
    }
    least
}
