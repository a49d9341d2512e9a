// The sign and the size of a whole exponent.
ghost use Rattle.std.specs.Prelude.{◌≡◌, nat_abs};
ghost use Rattle.functions_powers.specs.Kernels.{is_negative};

// Whether e is below 0.
pub fn is_negative(e: i64) -> bool
    ensures { result ≡ is_negative e }
{
    e < 0
}

// The magnitude of e. That of the least `i64` is 2^63.
pub fn size_of(e: i64) -> u64
    ensures { result ≡ nat_abs e }
{
    if is_negative(e) {
        (-1 - e) as u64 + 1
    } else {
        e as u64
    }
}
