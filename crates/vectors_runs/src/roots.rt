// Recorded square roots: a number's bits and its root's, a pair to a line.
use arithmetic::sqrt;
use vectors_recorded::has_bits;
use vectors_recorded::reader::Reader;
use vectors_recorded::tally::{Tally, Verdict, next};
use vectors_recorded::width::Width;

fn same_root<T: Width>(x: u64, root: u64) -> bool {
    has_bits(sqrt(T::of_bits(x)), root)
}

// Counts the pairs of the text, and those whose root differs.
pub fn run<T: Width>(text: &[u8]) -> Tally {
    let mut tally = Tally::default();
    let mut reader = Reader { rest: text };
    // Two words a turn. Not line by line: that would change what a line of one word or of three does.
    while !reader.rest.is_empty() {
        let x = reader.word();
        let root = reader.word();
        tally = tally.with(Verdict::from(same_root::<T>(x, root)), next(tally.calls));
    }
    tally
}
