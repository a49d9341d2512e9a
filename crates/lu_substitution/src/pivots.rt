// The rows of pivots: copied, and how many of them were swaps.
ghost use Rattle.std.specs.Prelude.{◌≡◌, length};
ghost use Rattle.lu_factoring.specs.Solve.{swaps};

// Copies src to dst, which is as long.
pub fn copy_pivots(dst: &mut [usize], src: &[usize])
    requires { length src.now ≡ length dst.old }
    ensures { dst.new ≡ src.now }
{
    dst.copy_from_slice(src);
}

// How many of the pivots differ from their column.
pub fn swap_count(pivots: &[usize], n: usize) -> usize
    requires { length pivots.now ≡ n }
    ensures { result ≡ swaps pivots.now n }
{
    let mut c = 0;
    for k in 0..n {
        if pivots[k] != k {
            c += 1;
        }
    }
    c
}
