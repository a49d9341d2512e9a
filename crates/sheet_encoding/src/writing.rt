// Digits, words and numbers written into an output at a cursor. Each function answers where the next byte goes.
ghost use Rattle.std.specs.Prelude.{◌≡◌, [], ◌∷◌, ◌+◌, ◌*◌, ◌≤◌, ◌<◌, length};
ghost use Rattle.std.specs.Float.{binary64};
ghost use Rattle.sheet_encoding.specs.Text.{hex_digits, decimal, number_text, field, details_text, numbers_text, glyph as glyph_of};
ghost use Rattle.sheet_encoding.specs.Kernels.{Wrote};

use arithmetic_floats::double::bits_of;

static DIGITS: [u8; 16] = *b"0123456789abcdef";

// A digit below 16.
fn glyph(d: u64) -> u8
    requires { d < 16 }
    ensures { result ≡ glyph_of d }
{
    DIGITS[d as usize]
}

// One byte.
pub fn put_byte(out: &mut [u8], at: usize, b: u8) -> usize
    requires { at < length out.old }
    ensures { Wrote out.old at (b ∷ []) out.new result }
{
    out[at] = b;
    at + 1
}

// The last hexadecimal digits of n over part, from the last place to the first.
fn write_digits(part: &mut [u8], n: u64)
    ensures { part.new ≡ hex_digits (length part.old) n }
{
    let mut rest = n;
    for k in (0..part.len()).rev() {
        part[k] = DIGITS[(rest % 16) as usize];
        rest /= 16;
    }
}

// The last k hexadecimal digits of n.
pub fn put_hex(out: &mut [u8], at: usize, k: usize, n: u64) -> usize
    requires { at + k ≤ length out.old }
    ensures { Wrote out.old at (hex_digits k n) out.new result }
{
    let z = at + k;
    write_digits(&mut out[at..z], n);
    z
}

// n in decimal.
pub fn put_decimal(out: &mut [u8], at: usize, n: usize) -> usize
    requires { at + length (decimal n) ≤ length out.old }
    ensures { Wrote out.old at (decimal n) out.new result }
{
    // By recursion, as `decimal` is defined.
    if n < 10 {
        return put_byte(out, at, glyph(n as u64));
    }
    let e = put_decimal(out, at, n / 10);
    put_byte(out, e, glyph((n % 10) as u64))
}

// x as 16 hexadecimal digits.
pub fn put_number(out: &mut [u8], at: usize, x: f64) -> usize
    requires { at + 16 ≤ length out.old }
    ensures { Wrote out.old at (number_text binary64 x) out.new result }
{
    put_hex(out, at, 16, bits_of(x))
}

// The bytes of text.
pub fn put_bytes(out: &mut [u8], at: usize, text: &[u8]) -> usize
    requires { at + length text.now ≤ length out.old }
    ensures { Wrote out.old at text.now out.new result }
{
    let z = at + text.len();
    out[at..z].copy_from_slice(text);
    z
}

// A space and a word.
pub fn put_word(out: &mut [u8], at: usize, text: &[u8]) -> usize
    requires { at + 1 + length text.now ≤ length out.old }
    ensures wrote { Wrote out.old at (field text.now) out.new result }
    ensures value { result ≡ at + 1 + length text.now }
{
    let e = put_byte(out, at, b' ');
    put_bytes(out, e, text)
}

// A space and n in decimal.
pub fn put_detail(out: &mut [u8], at: usize, n: usize) -> usize
    requires { at + 21 ≤ length out.old }
    ensures wrote { Wrote out.old at (field (decimal n)) out.new result }
    ensures upper_bound { result ≤ at + 21 }
{
    let e = put_byte(out, at, b' ');
    put_decimal(out, e, n)
}

// A refusal's number and its two details.
pub fn put_details(out: &mut [u8], at: usize, number: usize, first: usize, second: usize) -> usize
    requires { at + 63 ≤ length out.old }
    ensures wrote { Wrote out.old at (details_text number first second) out.new result }
    ensures upper_bound { result ≤ at + 63 }
{
    let e = put_detail(out, at, number);
    let f = put_detail(out, e, first);
    put_detail(out, f, second)
}

// A space and a number.
pub fn put_entry(out: &mut [u8], at: usize, x: f64) -> usize
    requires { at + 17 ≤ length out.old }
    ensures wrote { Wrote out.old at (field (number_text binary64 x)) out.new result }
    ensures value { result ≡ at + 17 }
{
    let e = put_byte(out, at, b' ');
    put_number(out, e, x)
}

// The numbers of m, each after a space.
pub fn put_numbers(out: &mut [u8], at: usize, m: &[f64]) -> usize
    requires { at + 17 * length m.now ≤ length out.old }
    ensures wrote { Wrote out.old at (numbers_text binary64 m.now) out.new result }
    ensures value { result ≡ at + 17 * length m.now }
{
    let mut e = at;
    for x in m {
        e = put_entry(out, e, *x);
    }
    e
}
