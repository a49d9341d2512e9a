// The comparison of a call's answer and outputs with what was recorded.
use crate::ending::{Recorded, read_recorded};
use crate::reader::{Reader, is_list};
use crate::width::Width;
use crate::{are_all, has_bits, is_cleared};
use arithmetic::{Outcome, Report};

// What every lent number holds before a call.
pub fn lent<T: Width>() -> T {
    T::constant(-77.25)
}

// What every lent pivot holds before a call.
pub const LENT_PIVOT: usize = 7_777;

// How many numbers of the workspace a call clears that ends with this number: all 8,192 where it is done or refused by 12 or above.
fn cleared_after(number: u64) -> usize {
    if number == 0 || 12 <= number { 8192 } else { 0 }
}

// Whether the recorded outcome that follows and its report are `call`, and the workspace w is left as the outcome says.
fn same_end<T: Width>(reader: &mut Reader, call: Recorded, w: &[T]) -> bool {
    call == read_recorded(reader) && is_cleared(w, cleared_after(call.ending.number), lent())
}

// Whether the recorded outputs, the last of the text, are x, y and the pivots.
fn same_outputs<T: Width>(reader: &mut Reader, x: &[T], y: &[T], pivots: &[usize]) -> bool {
    is_list(reader, x, |number, bits| has_bits(*number, bits))
        && is_list(reader, y, |number, bits| has_bits(*number, bits))
        && is_list(reader, pivots, |pivot, number| *pivot == number as usize)
        && reader.rest.is_empty()
}

// Whether the recorded outcome s and its report are these, the workspace w is left as the outcome says, and x, y and the pivots are what was
// recorded or, after a refusal, as they were lent. What a function does not have is empty. They are no struct: each caller would name all of its fields.
pub fn same_call<T: Width>(
    s: &[u8],
    outcome: Outcome,
    report: Report,
    x: &[T],
    y: &[T],
    pivots: &[usize],
    w: &[T],
) -> bool {
    let mut reader = Reader { rest: s };
    let call = Recorded::of(outcome, report);
    if !same_end(&mut reader, call, w) {
        return false;
    }
    if call.ending.number == 0 {
        return same_outputs(&mut reader, x, y, pivots);
    }
    let pivots_as_lent = pivots.iter().all(|pivot| *pivot == LENT_PIVOT);
    are_all(x, lent()) && are_all(y, lent()) && pivots_as_lent && reader.rest.is_empty()
}

// Whether the recorded outcome s and its report are these, the workspace w is left as the outcome says, and the returned numbers x are what was
// recorded or, after a refusal, +0.
pub fn same_values<T: Width>(s: &[u8], outcome: Outcome, report: Report, x: &[T], w: &[T]) -> bool {
    let mut reader = Reader { rest: s };
    let call = Recorded::of(outcome, report);
    if !same_end(&mut reader, call, w) {
        return false;
    }
    if call.ending.number == 0 {
        same_outputs(&mut reader, x, &[], &[])
    } else {
        are_all(x, T::ZERO) && reader.rest.is_empty()
    }
}
