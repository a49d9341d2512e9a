// Runs the recorded square roots that it reads on standard input: a number's bits and its root's, a pair to a line. It writes how many there are
// and how many differ. tools/record-vectors makes those in the file stdin. The last line is planted: its root is wrong in the last bit, and the
// program must find it. So stdout says that one differs, on the last line.
#![tactic(auto)]

use std::io;
use vectors_recorded::input::read_text;
use vectors_recorded::tally::write_tally;
use vectors_runs::roots::run;

fn main(rt: HostRuntime) -> io::Result<()> {
    let text = read_text(rt.alloc(), &mut rt.reader())?;
    write_tally(&mut io::writer(&rt), b"sqrt", run::<f64>(&text))
}
