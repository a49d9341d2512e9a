// How an entry for C tells what a call answered: the refusal's number, and 0 where the call is done, with five numbers in `report`.
use crate::ending::Recorded;
use arithmetic::{Answer, Outcome, Report};

// Writes xs to the start of `into`. What it has no place for is left out.
pub fn put<T: Copy>(into: &mut [T], xs: &[T]) {
    for (place, x) in into.iter_mut().zip(xs) {
        *place = *x;
    }
}

pub fn tell(report: &mut [usize], outcome: Outcome, run: Report) -> u64 {
    let told = Recorded::of(outcome, run);
    let numbers = [
        told.ending.first as usize,
        told.ending.second as usize,
        told.smallest as usize,
        told.steps as usize,
        usize::from(told.settled),
    ];
    put(report, &numbers);
    told.ending.number
}

pub fn tell_answer(report: &mut [usize], answer: Answer) -> u64 {
    tell(report, answer.outcome, answer.report)
}
