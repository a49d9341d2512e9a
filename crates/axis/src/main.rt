// Reads a sheet on standard input and writes a line for each task. What an input has past the 65,536 bytes that are read changes nothing: the first
// 4,709 bytes decide (`first_bytes` in crates/sheet/proofs/FirstBytes.antt).
#![tactic(auto)]

use sheet::axis_sheet;
use std::io;
use std::io::{Read, Write};

fn main(rt: HostRuntime) -> io::Result<()> {
    let mut input = Vec::new(rt.alloc());
    rt.reader().take(65_536).read_to_end(&mut input)?;
    let mut lines = vec![in rt.alloc(); 0u8; 65_536]?;
    let n = axis_sheet(&input, &mut lines);
    io::writer(&rt).write_all(&lines[..n])
}
