// Numbers read from the bytes of a sheet, lowest byte first.
ghost use Rattle.std.specs.Prelude.{◌≡◌, ◌+◌, ◌*◌, ◌^◌, ◌≤◌, ◌<◌, length};
ghost use Rattle.std.specs.Float.{binary64};
ghost use Rattle.sheet_encoding.specs.Bytes.{word_at, number_at, numbers_at};

use arithmetic_floats::double::float_of;

// The whole number that k bytes of s from p on stand for.
pub fn word(s: &[u8], p: usize, k: usize) -> u64
    requires { (k ≤ 8) × (p + k ≤ length s.now) }
    ensures { (result ≡ word_at k s.now p) × (result < 256 ^ k) }
{
    // By recursion, as `word_at` is defined.
    if k == 0 {
        return 0;
    }
    let rest = word(s, p + 1, k - 1);
    u64::from(s[p]) + 256 * rest
}

// The number whose bits are the 8 bytes of s from p on.
pub fn read_number(s: &[u8], p: usize) -> f64
    requires { p + 8 ≤ length s.now }
    ensures { result ≡ number_at binary64 s.now p }
{
    float_of(word(s, p, 8))
}

// Fills m with the numbers of s from p on.
pub fn read_numbers(s: &[u8], p: usize, m: &mut [f64])
    requires { p + 8 * length m.old ≤ length s.now }
    ensures { m.new ≡ numbers_at binary64 s.now p (length m.old) }
{
    // By the index, not over the numbers of m: the position in s takes the index too.
    for i in 0..m.len() {
        m[i] = read_number(s, p + 8 * i);
    }
}
