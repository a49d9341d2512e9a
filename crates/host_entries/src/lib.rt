// The public calls, for a test from outside, which compares all that a caller can see. Rattle has one NaN, so only a caller in another language sees
// whether a refused call leaves the sign and the payload of the NaNs that it was lent. Each answers the refusal's number, and 0 where the call is done;
// its report has five numbers: the halvings and 0 where it is done, or both details of a refusal; the bits of the smallest pivot; the steps; and 1 where
// the iterations settled, or 0. The parameters stand one by one, as C passes them.
#![tactic(auto)]

use vectors_recorded::told::{put, tell, tell_answer};

#[unsafe(no_mangle)]
pub extern "C" fn entry_expm(
    m: usize,
    n: usize,
    a: &[f64],
    out: &mut [f64],
    w: &mut [f64],
    report: &mut [usize],
) -> u64 {
    tell_answer(report, functions::expm(m, n, a, out, w))
}

#[unsafe(no_mangle)]
pub extern "C" fn entry_logm(
    m: usize,
    n: usize,
    a: &[f64],
    out: &mut [f64],
    w: &mut [f64],
    report: &mut [usize],
) -> u64 {
    tell_answer(report, functions::logm(m, n, a, out, w))
}

#[unsafe(no_mangle)]
pub extern "C" fn entry_sqrtm(
    m: usize,
    n: usize,
    a: &[f64],
    out: &mut [f64],
    w: &mut [f64],
    report: &mut [usize],
) -> u64 {
    tell_answer(report, functions::sqrtm(m, n, a, out, w))
}

#[unsafe(no_mangle)]
pub extern "C" fn entry_powm(
    m: usize,
    n: usize,
    a: &[f64],
    p: f64,
    out: &mut [f64],
    w: &mut [f64],
    report: &mut [usize],
) -> u64 {
    tell_answer(report, functions::powm(m, n, a, p, out, w))
}

#[unsafe(no_mangle)]
pub extern "C" fn entry_cosm(
    m: usize,
    n: usize,
    a: &[f64],
    out: &mut [f64],
    w: &mut [f64],
    report: &mut [usize],
) -> u64 {
    tell_answer(report, functions::cosm(m, n, a, out, w))
}

#[unsafe(no_mangle)]
pub extern "C" fn entry_sinm(
    m: usize,
    n: usize,
    a: &[f64],
    out: &mut [f64],
    w: &mut [f64],
    report: &mut [usize],
) -> u64 {
    tell_answer(report, functions::sinm(m, n, a, out, w))
}

#[unsafe(no_mangle)]
pub extern "C" fn entry_frechet_expm(
    m: usize,
    n: usize,
    a: &[f64],
    height: usize,
    width: usize,
    e: &[f64],
    first: &mut [f64],
    second: &mut [f64],
    w: &mut [f64],
    report: &mut [usize],
) -> u64 {
    tell_answer(
        report,
        functions::frechet_expm(m, n, a, height, width, e, first, second, w),
    )
}

#[unsafe(no_mangle)]
pub extern "C" fn entry_frechet_logm(
    m: usize,
    n: usize,
    a: &[f64],
    height: usize,
    width: usize,
    e: &[f64],
    first: &mut [f64],
    second: &mut [f64],
    w: &mut [f64],
    report: &mut [usize],
) -> u64 {
    tell_answer(
        report,
        functions::frechet_logm(m, n, a, height, width, e, first, second, w),
    )
}

#[unsafe(no_mangle)]
pub extern "C" fn entry_frechet_sqrtm(
    m: usize,
    n: usize,
    a: &[f64],
    height: usize,
    width: usize,
    e: &[f64],
    first: &mut [f64],
    second: &mut [f64],
    w: &mut [f64],
    report: &mut [usize],
) -> u64 {
    tell_answer(
        report,
        functions::frechet_sqrtm(m, n, a, height, width, e, first, second, w),
    )
}

#[unsafe(no_mangle)]
pub extern "C" fn entry_cond_expm(
    m: usize,
    n: usize,
    a: &[f64],
    w: &mut [f64],
    numbers: &mut [f64],
    report: &mut [usize],
) -> u64 {
    let answer = functions::cond_expm(m, n, a, w);
    let condition = answer.condition;
    let values = [
        condition.ratio,
        condition.derivative_norm,
        condition.exponential_norm,
    ];
    put(numbers, &values);
    tell(report, answer.outcome, answer.report)
}

#[unsafe(no_mangle)]
pub extern "C" fn entry_frechet_sqrtm_sylvester(
    m: usize,
    n: usize,
    a: &[f64],
    height: usize,
    width: usize,
    e: &[f64],
    first: &mut [f64],
    second: &mut [f64],
    w: &mut [f64],
    report: &mut [usize],
) -> u64 {
    tell_answer(
        report,
        functions::frechet_sqrtm_sylvester(m, n, a, height, width, e, first, second, w),
    )
}

#[unsafe(no_mangle)]
pub extern "C" fn entry_compute(
    m: usize,
    n: usize,
    a: &[f64],
    factors: &mut [f64],
    pivots: &mut [usize],
    w: &mut [f64],
    report: &mut [usize],
) -> u64 {
    tell_answer(report, lu::compute(m, n, a, factors, pivots, w))
}

#[unsafe(no_mangle)]
pub extern "C" fn entry_solve(
    m: usize,
    n: usize,
    f: &[f64],
    pivots: &[usize],
    height: usize,
    width: usize,
    b: &[f64],
    out: &mut [f64],
    report: &mut [usize],
) -> u64 {
    tell_answer(report, lu::solve(m, n, f, pivots, height, width, b, out))
}

#[unsafe(no_mangle)]
pub extern "C" fn entry_determinant(
    m: usize,
    n: usize,
    f: &[f64],
    pivots: &[usize],
    numbers: &mut [f64],
    report: &mut [usize],
) -> u64 {
    let answer = lu::determinant(m, n, f, pivots);
    put(numbers, &[answer.value]);
    tell(report, answer.outcome, answer.report)
}

#[unsafe(no_mangle)]
pub extern "C" fn entry_kron(
    m: usize,
    n: usize,
    a: &[f64],
    height: usize,
    width: usize,
    b: &[f64],
    out: &mut [f64],
    report: &mut [usize],
) -> u64 {
    tell_answer(report, functions::kron(m, n, a, height, width, b, out))
}

#[unsafe(no_mangle)]
pub extern "C" fn entry_kron_sum(
    m: usize,
    n: usize,
    a: &[f64],
    height: usize,
    width: usize,
    b: &[f64],
    out: &mut [f64],
    report: &mut [usize],
) -> u64 {
    tell_answer(report, functions::kron_sum(m, n, a, height, width, b, out))
}
