// Counts of the vectors of one function.
use std::io;
use std::io::Write;

// What a vector shows. It is skipped where its lists are longer than what the program runs.
#[derive(Clone, Copy)]
pub enum Verdict {
    Same,
    Differs,
    Skipped,
}

impl From<bool> for Verdict {
    fn from(same: bool) -> Verdict {
        if same {
            Verdict::Same
        } else {
            Verdict::Differs
        }
    }
}

// How many vectors there are, how many of them differ, how many are skipped, and the line of the first that differs.
#[derive(Clone, Copy, Default)]
pub struct Tally {
    pub calls: u64,
    pub differ: u64,
    pub skipped: u64,
    pub first: Option<u64>,
}

// One more; counts stay below 2^63.
pub fn next(count: u64) -> u64 {
    count % 0x7fff_ffff_ffff_ffff + 1
}

impl Tally {
    // With one more vector, which stands on this line.
    pub fn with(self, verdict: Verdict, line: u64) -> Tally {
        let calls = next(self.calls);
        match verdict {
            Verdict::Same => Tally { calls, ..self },
            Verdict::Differs => Tally {
                calls,
                differ: next(self.differ),
                first: self.first.or(Some(line)),
                ..self
            },
            Verdict::Skipped => Tally {
                calls,
                skipped: next(self.skipped),
                ..self
            },
        }
    }
}

// Writes the counts after a function's name, and a line end.
pub fn write_tally<W: Write>(out: &mut W, name: &[u8], tally: Tally) -> io::Result<()> {
    let calls = tally.calls;
    let differ = tally.differ;
    let skipped = tally.skipped;
    out.write_all(name)?;
    write!(out, ": {calls} calls, {differ} differ")?;
    if let Some(first) = tally.first {
        write!(out, ", the first on line {first}")?;
    }
    if skipped != 0 {
        write!(out, ", skipped: {skipped}")?;
    }
    out.write_all(b"\n")
}
