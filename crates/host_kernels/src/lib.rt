// Two steps inside the public calls, exported for host/bench, which times them alone.
#![tactic(auto)]

// The 1-norm of the n by n matrix that the workspace w begins with; 0 where n is above 16 or w is shorter than 8,192 numbers.
#[unsafe(no_mangle)]
pub extern "C" fn kernel_norm(w: &[f64], n: usize) -> f64 {
    if n <= 16 && 8192 <= w.len() {
        arithmetic_matrices::norm::norm_1(w, 0, n)
    } else {
        0.0
    }
}

// The row of the pivot in column k of the matrix m of order 64; 0 where there is no such column or m has another length.
#[unsafe(no_mangle)]
pub extern "C" fn kernel_find_pivot(m: &[f64], k: usize) -> usize {
    if k < 64 && m.len() == 4096 {
        lu_factoring::factor::find_pivot(m, 64, k)
    } else {
        0
    }
}
