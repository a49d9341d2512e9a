// Systems whose matrix and right-hand matrix stand in one workspace.
ghost use Rattle.std.specs.Prelude.{◌≡◌, false, ℕ, ◌+◌, ◌*◌, ◌<◌, ◌≤◌, eqb, length, get_or};
ghost use Rattle.arithmetic_matrices.specs.Matrix.{part, put, Apart};
ghost use Rattle.arithmetic_matrices.specs.Product.{identity_m};
ghost use Rattle.arithmetic_matrices.specs.Workspace.{slot, store, Room};
ghost use Rattle.lu_factoring.specs.Lu.{lu_outcome};
ghost use Rattle.lu_factoring.specs.Pivots.{smallest_pivot};
ghost use Rattle.lu_factoring.specs.Solve.{solved_matrix};
ghost use Rattle.lu_factoring.specs.Kernels.{divided};

use crate::rows::{back_rows, forward_rows, permute_rows};
use arithmetic_floats::real::Real;
use arithmetic_matrices::workspace::identity;
use lu_factoring::Singular;
use lu_factoring::factor::factor_in;
use lu_factoring::pivots::smallest_pivot;

// What a division gives: the outcome of LU, and the smallest pivot, which is plus infinity where LU refused.
// It is no Result<f64, Singular>: the exponential goes on after a refusal, and reads both.
#[derive(Clone, Copy)]
pub struct Division<T> {
    pub outcome: Result<(), Singular>,
    pub smallest: T,
}

// The right-hand matrix of n rows and m columns at x becomes the solution. The factors stand at f, apart from it.
pub fn solve_in<T: Real>(w: &mut [T], f: usize, x: usize, n: usize, m: usize, pivots: &[usize])
    requires { (f + n * n ≤ length w.old) × (x + n * m ≤ length w.old) × Apart f (n * n) x (n * m) × (length pivots.now ≡ n) × ((k : ℕ) → k < n → get_or pivots.now k 0 < n) }
    ensures { T.floats w.new ≡ put (T.floats w.old) x (solved_matrix T.format n m (part (T.floats w.old) f (n * n)) pivots.now (part (T.floats w.old) x (n * m))) }
{
    permute_rows(w, x, n, m, pivots);
    forward_rows(w, f, x, n, m);
    back_rows(w, f, x, n, m);
}

// The matrix of order n at f is factored, and where all its columns pass the right-hand matrix of m columns at x becomes the solution.
fn divide<T: Real>(
    w: &mut [T],
    f: usize,
    x: usize,
    n: usize,
    m: usize,
    pivots: &mut [usize],
) -> Result<(), Singular>
    requires { (n ≤ 64) × (f + n * n ≤ length w.old) × (x + n * m ≤ length w.old) × Apart f (n * n) x (n * m) × (length pivots.old ≡ n) }
    ensures { (result ≡ lu_outcome T.format n (part (T.floats w.old) f (n * n))) × (T.floats w.new ≡ divided T.format n m f x (T.floats w.old) result) }
{
    factor_in(w, f, n, pivots)?;
    solve_in(w, f, x, n, m, pivots);
    Ok(())
}

// `divide`, with the smallest pivot of the matrix at f.
pub fn divide_reporting<T: Real>(
    w: &mut [T],
    f: usize,
    x: usize,
    n: usize,
    m: usize,
    pivots: &mut [usize],
) -> Division<T>
    requires { (n ≤ 64) × (f + n * n ≤ length w.old) × (x + n * m ≤ length w.old) × Apart f (n * n) x (n * m) × (length pivots.old ≡ n) }
    ensures outcome_value { (result.outcome ≡ lu_outcome T.format n (part (T.floats w.old) f (n * n))) × (T.floats w.new ≡ divided T.format n m f x (T.floats w.old) result.outcome) }
    ensures smallest_value { T.float result.smallest ≡ smallest_pivot T.format n (part (T.floats w.old) f (n * n)) }
{
    match divide(w, f, x, n, m, pivots) {
        Ok(()) => Division {
            outcome: Ok(()),
            smallest: smallest_pivot(w, f, n),
        },
        Err(no) => Division {
            outcome: Err(no),
            smallest: T::INFINITY,
        },
    }
}

// The matrix of order n in slot a is factored, and where all its columns pass slot b becomes its inverse: the solution for the identity.
pub fn invert<T: Real>(
    w: &mut [T],
    a: usize,
    b: usize,
    n: usize,
    pivots: &mut [usize],
) -> Division<T>
    requires room { Room n (T.floats w.old) }
    requires a_bound { (a < 32) × (b < 32) × (eqb a b ≡ false) × (length pivots.old ≡ n) }
    ensures outcome_value { (result.outcome ≡ lu_outcome T.format n (slot n (T.floats w.old) a)) × (T.floats w.new ≡ divided T.format n n (256 * a) (256 * b) (store (T.floats w.old) b (identity_m n)) result.outcome) }
    ensures smallest_value { T.float result.smallest ≡ smallest_pivot T.format n (slot n (T.floats w.old) a) }
{
    identity(w, b, n);
    divide_reporting(w, 256 * a, 256 * b, n, n, pivots)
}
