// A text that is read from its start on: hexadecimal numbers, one separator after each.
#![tactic(auto, using(crate::proofs::Ends::end_end))]

ghost use Rattle.std.specs.Prelude.{◌≡◌, ◌<◌, ◌≤◌, ◌++◌, length, IfOk, IfSome, vec_len};
ghost use Rattle.vectors_recorded.specs.Remaining.{IsEndOf, Remaining};

use std::alloc::{AllocError, Global};

// What of a text is still to be read.
#[derive(Clone, Copy)]
pub struct Reader<'a> {
    pub rest: &'a [u8],
}

// The value of a hexadecimal digit in lower case.
pub fn digit(b: u8) -> Option<u64>
    ensures { IfSome result (λ d. d < 16) }
{
    match b {
        b'0'..=b'9' => Some(u64::from(b - b'0')),
        b'a'..=b'f' => Some(u64::from(b - b'a') + 10),
        _ => None,
    }
}

impl<'a> Reader<'a> {
    // Reads a number, of which 16 digits count, and its separator.
    pub fn word(&mut self) -> u64
        ensures { Remaining self.old.rest.now self.new.rest.now }
    {
        let mut value: u64 = 0;
        while let Some((b, rest)) = self.rest.split_first() {
            self.rest = rest;
            let Some(d) = digit(*b) else {
                break;
            };
            value = value % 0x1000_0000_0000_0000 * 16 + d;
        }
        value
    }

    // Reads up to the first byte b, that byte too, and all where there is none.
    pub fn skip_past(&mut self, b: u8)
        ensures { Remaining self.old.rest.now self.new.rest.now }
    {
        let (_, rest) = split_after(self.rest, b);
        self.rest = rest;
    }
}

// A text up to its first byte b, that byte too, and what follows it; all of the text where there is none.
pub fn split_after(text: &[u8], b: u8) -> (&[u8], &[u8])
    ensures parts { text.now ≡ result.0.now ++ result.1.now }
    ensures past { 0 < length text.now → length result.1.now < length text.now }
{
    match text.iter().position(|c| *c == b) {
        Some(k) => text.split_at(k + 1),
        None => (text, &[]),
    }
}

// The first line of a text, with its end, and what follows it; nothing where the text is empty.
pub fn split_line(text: &[u8]) -> Option<(&[u8], &[u8])>
    ensures parts { IfSome result (λ p. text.now ≡ p.0.now ++ p.1.now) }
    ensures past { IfSome result (λ p. length p.1.now < length text.now) }
{
    if text.is_empty() {
        None
    } else {
        Some(split_after(text, b'\n'))
    }
}

// Whether a line is a vector of the function of this name.
pub fn is_of(line: &[u8], name: &[u8]) -> bool {
    line.strip_prefix(name)
        .is_some_and(|rest| rest.starts_with(b" "))
}

// Reads a list, its length and then its members by their bits. Of one that is longer than `most` it reads the length alone.
pub fn list<T: Drop, F: Fn(u64) -> T>(
    reader: &mut Reader,
    alloc: Global,
    most: usize,
    member: F,
) -> Result<Option<Vec<T>>, AllocError>
    requires { F.IsAlwaysCallable member }
    ensures fits { IfOk result (λ found. IfSome found (λ members. vec_len members ≤ most)) }
    ensures remaining { IsEndOf reader.old.rest.now reader.new.rest.now }
{
    let count = reader.word() as usize;
    if most < count {
        return Ok(None);
    }
    let mut members = Vec::new(alloc);
    for _ in 0..count {
        members.push(member(reader.word()))?;
    }
    Ok(Some(members))
}

// Whether the list that follows, its length and then its members by their bits, is x. It reads up to where they differ.
pub fn is_list<T, F: Fn(&T, u64) -> bool>(reader: &mut Reader, x: &[T], same: F) -> bool
    requires { F.IsAlwaysCallable same }
    ensures { IsEndOf reader.old.rest.now reader.new.rest.now }
{
    if reader.word() as usize != x.len() {
        return false;
    }
    for item in x {
        if !same(item, reader.word()) {
            return false;
        }
    }
    true
}
