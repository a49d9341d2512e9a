// Local room for the pivots of one factoring, of an order up to 64.
ghost use Rattle.std.specs.Prelude.{◌≡◌, length};

pub fn pivot_room() -> [usize; 64]
    ensures { 64 ≡ length result }
{
    [0usize; 64]
}
