// The public calls, for a test from outside, which compares all that a caller can see. Rattle has one NaN, so only a caller in another language sees
// whether a refused call leaves the sign and the payload of the NaNs that it was lent. Each answers the refusal's number, and 0 where the call is done;
// its report has five numbers: the halvings and 0 where it is done, or both details of a refusal; the bits of the smallest pivot; the steps; and 1 where
// the iterations settled, or 0. The parameters stand one by one, as C passes them.
#![tactic(auto)]

use vectors_recorded::told::{put, tell, tell_answer};

#[unsafe(no_mangle)]
pub extern "C" fn entry_expm32(
    m: usize,
    n: usize,
    a: &[f32],
    out: &mut [f32],
    w: &mut [f32],
    report: &mut [usize],
) -> u64 {
    tell_answer(report, functions::expm(m, n, a, out, w))
}

#[unsafe(no_mangle)]
pub extern "C" fn entry_logm32(
    m: usize,
    n: usize,
    a: &[f32],
    out: &mut [f32],
    w: &mut [f32],
    report: &mut [usize],
) -> u64 {
    tell_answer(report, functions::logm(m, n, a, out, w))
}

#[unsafe(no_mangle)]
pub extern "C" fn entry_sqrtm32(
    m: usize,
    n: usize,
    a: &[f32],
    out: &mut [f32],
    w: &mut [f32],
    report: &mut [usize],
) -> u64 {
    tell_answer(report, functions::sqrtm(m, n, a, out, w))
}

#[unsafe(no_mangle)]
pub extern "C" fn entry_powm32(
    m: usize,
    n: usize,
    a: &[f32],
    p: f32,
    out: &mut [f32],
    w: &mut [f32],
    report: &mut [usize],
) -> u64 {
    tell_answer(report, functions::powm(m, n, a, p, out, w))
}

#[unsafe(no_mangle)]
pub extern "C" fn entry_cosm32(
    m: usize,
    n: usize,
    a: &[f32],
    out: &mut [f32],
    w: &mut [f32],
    report: &mut [usize],
) -> u64 {
    tell_answer(report, functions::cosm(m, n, a, out, w))
}

#[unsafe(no_mangle)]
pub extern "C" fn entry_sinm32(
    m: usize,
    n: usize,
    a: &[f32],
    out: &mut [f32],
    w: &mut [f32],
    report: &mut [usize],
) -> u64 {
    tell_answer(report, functions::sinm(m, n, a, out, w))
}

#[unsafe(no_mangle)]
pub extern "C" fn entry_frechet_expm32(
    m: usize,
    n: usize,
    a: &[f32],
    height: usize,
    width: usize,
    e: &[f32],
    first: &mut [f32],
    second: &mut [f32],
    w: &mut [f32],
    report: &mut [usize],
) -> u64 {
    tell_answer(
        report,
        functions::frechet_expm(m, n, a, height, width, e, first, second, w),
    )
}

#[unsafe(no_mangle)]
pub extern "C" fn entry_frechet_logm32(
    m: usize,
    n: usize,
    a: &[f32],
    height: usize,
    width: usize,
    e: &[f32],
    first: &mut [f32],
    second: &mut [f32],
    w: &mut [f32],
    report: &mut [usize],
) -> u64 {
    tell_answer(
        report,
        functions::frechet_logm(m, n, a, height, width, e, first, second, w),
    )
}

#[unsafe(no_mangle)]
pub extern "C" fn entry_frechet_sqrtm32(
    m: usize,
    n: usize,
    a: &[f32],
    height: usize,
    width: usize,
    e: &[f32],
    first: &mut [f32],
    second: &mut [f32],
    w: &mut [f32],
    report: &mut [usize],
) -> u64 {
    tell_answer(
        report,
        functions::frechet_sqrtm(m, n, a, height, width, e, first, second, w),
    )
}

#[unsafe(no_mangle)]
pub extern "C" fn entry_cond_expm32(
    m: usize,
    n: usize,
    a: &[f32],
    w: &mut [f32],
    numbers: &mut [f32],
    report: &mut [usize],
) -> u64 {
    let answer = functions::cond_expm(m, n, a, w);
    let condition = answer.condition;
    let values = [
        condition.ratio,
        condition.derivative_norm,
        condition.exponential_norm,
    ];
    put(numbers, &values);
    tell(report, answer.outcome, answer.report)
}

#[unsafe(no_mangle)]
pub extern "C" fn entry_frechet_sqrtm_sylvester32(
    m: usize,
    n: usize,
    a: &[f32],
    height: usize,
    width: usize,
    e: &[f32],
    first: &mut [f32],
    second: &mut [f32],
    w: &mut [f32],
    report: &mut [usize],
) -> u64 {
    tell_answer(
        report,
        functions::frechet_sqrtm_sylvester(m, n, a, height, width, e, first, second, w),
    )
}

#[unsafe(no_mangle)]
pub extern "C" fn entry_compute32(
    m: usize,
    n: usize,
    a: &[f32],
    factors: &mut [f32],
    pivots: &mut [usize],
    w: &mut [f32],
    report: &mut [usize],
) -> u64 {
    tell_answer(report, lu::compute(m, n, a, factors, pivots, w))
}

#[unsafe(no_mangle)]
pub extern "C" fn entry_solve32(
    m: usize,
    n: usize,
    f: &[f32],
    pivots: &[usize],
    height: usize,
    width: usize,
    b: &[f32],
    out: &mut [f32],
    report: &mut [usize],
) -> u64 {
    tell_answer(report, lu::solve(m, n, f, pivots, height, width, b, out))
}

#[unsafe(no_mangle)]
pub extern "C" fn entry_determinant32(
    m: usize,
    n: usize,
    f: &[f32],
    pivots: &[usize],
    numbers: &mut [f32],
    report: &mut [usize],
) -> u64 {
    let answer = lu::determinant(m, n, f, pivots);
    put(numbers, &[answer.value]);
    tell(report, answer.outcome, answer.report)
}

#[unsafe(no_mangle)]
pub extern "C" fn entry_kron32(
    m: usize,
    n: usize,
    a: &[f32],
    height: usize,
    width: usize,
    b: &[f32],
    out: &mut [f32],
    report: &mut [usize],
) -> u64 {
    tell_answer(report, functions::kron(m, n, a, height, width, b, out))
}

#[unsafe(no_mangle)]
pub extern "C" fn entry_kron_sum32(
    m: usize,
    n: usize,
    a: &[f32],
    height: usize,
    width: usize,
    b: &[f32],
    out: &mut [f32],
    report: &mut [usize],
) -> u64 {
    tell_answer(report, functions::kron_sum(m, n, a, height, width, b, out))
}
