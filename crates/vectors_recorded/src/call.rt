// A recorded vector's call.
ghost use Rattle.vectors_recorded.specs.Remaining.{IsEndOf};

use crate::reader::Reader;
use crate::width::Width;

// The counts of a call, and its exponent.
#[derive(Clone, Copy)]
pub struct Shape<T> {
    pub rows: usize,
    pub columns: usize,
    pub height: usize,
    pub width: usize,
    pub output: usize,
    pub second: usize,
    pub room: usize,
    pub exponent: T,
}

// Reads the counts and then the exponent by its bits.
pub fn read_shape<T: Width>(reader: &mut Reader) -> Shape<T>
    ensures { IsEndOf reader.old.rest.now reader.new.rest.now }
{
    Shape {
        rows: reader.word() as usize,
        columns: reader.word() as usize,
        height: reader.word() as usize,
        width: reader.word() as usize,
        output: reader.word() as usize,
        second: reader.word() as usize,
        room: reader.word() as usize,
        exponent: T::of_bits(reader.word()),
    }
}
