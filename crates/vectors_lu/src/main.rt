// Runs the recorded vectors that it reads on standard input, and compares every outcome, every output and what is left in the workspace bit
// for bit, NaN as one value. It writes a line for each function: how many calls there are and how many differ. host/README.md describes the
// vectors; tools/record-vectors makes those in the file stdin, and says which they are. The last four lines of each function are planted,
// and the program must find each. So stdout says of each function that four calls differ, from the first of those lines on.
#![tactic(auto)]

use std::io;
use vectors_recorded::input::read_text;
use vectors_runs::lu_calls::run_text;

fn main(rt: HostRuntime) -> io::Result<()> {
    let text = read_text(rt.alloc(), &mut rt.reader())?;
    run_text::<f64, _>(rt.alloc(), &mut io::writer(&rt), &text)
}
