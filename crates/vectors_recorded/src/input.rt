// Reading a text whole.
ghost use Rattle.std.specs.Prelude.{◌≡◌, IfOk, IfSome};

use std::alloc::Global;
use std::io;
use std::io::Read;

// Every byte that the reader has left.
pub fn read_text<R: Read>(alloc: Global, input: &mut R) -> io::Result<Vec<u8>>
    ensures { IfSome (R.remaining input.old) (λ bytes. IfOk result (λ text. text.items ≡ bytes)) }
{
    let mut text = Vec::new(alloc);
    input.read_to_end(&mut text)?;
    Ok(text)
}
