// Words with parts of a finding's frame put in: numbers in decimal, lists of places, plurals. specs/Parts.antt says what each sign stands for.
#![tactic(auto)]

ghost use Rattle.std.specs.Prelude.{◌≡◌, ◌++◌, ℕ, ◌+◌, ◌*◌, ◌≤◌, ◌<◌, length, get_or};
ghost use Rattle.tell_text.specs.Written.{wrote};
ghost use Rattle.tell_text.specs.Decimal.{decimal};
ghost use Rattle.tell_parts.specs.Parts.{two_at, four_at, separator, rest, places, plural, part, filled};

use tell_text::{put, put_decimal, put_text};

// Past the end of the frame bytes are 0.
pub fn byte_at(f: &[u8], i: usize) -> u64
    ensures { (result ≡ get_or f.now i 0) × (result < 256) }
{
    u64::from(f.get(i).copied().unwrap_or(0))
}

// The number of two bytes at i, high byte first.
#[tactic(auto, unfolding(crate::specs::Parts::two_at))]
pub fn two_at(f: &[u8], i: usize) -> u64
    ensures { (result ≡ two_at f.now i) × (result < 65536) }
{
    if f.len() <= i {
        return 0;
    }
    byte_at(f, i) * 256 + byte_at(f, i + 1)
}

#[tactic(auto, unfolding(crate::specs::Parts::four_at))]
fn four_at(f: &[u8], i: usize) -> u64
    requires { i + 3 < 18446744073709551616 }
    ensures { (result ≡ four_at f.now i) × (result < 4294967296) }
{
    two_at(f, i) * 65536 + two_at(f, i + 2)
}

// What stands before a place with so many places to come.
#[tactic(auto, unfolding(crate::specs::Parts::separator))]
fn put_separator(left: usize, out: &mut [u8], at: usize) -> usize
    ensures { (out.new, result) ≡ wrote (out.old, at) (separator left) }
{
    if left == 0 {
        return put_text(out, at, b" and ");
    }
    put_text(out, at, b", ")
}

fn put_place(f: &[u8], i: usize, left: usize, out: &mut [u8], at: usize) -> usize
    requires { i + 3 < 18446744073709551616 }
    ensures { (out.new, result) ≡ wrote (out.old, at) (separator left ++ decimal (four_at f.now i)) }
{
    let k = put_separator(left, out, at);
    put_decimal(out, k, four_at(f, i))
}

// The places after the first.
fn put_rest(f: &[u8], from: usize, count: usize, out: &mut [u8], at: usize) -> usize
    requires { from + 4 * count ≤ length f.now }
    ensures { (out.new, result) ≡ wrote (out.old, at) (rest f.now from count) }
{
    let mut k = at;
    for n in 0..count {
        k = put_place(f, from + 4 * n, count - n - 1, out, k);
    }
    k
}

// The places from byte 7 to the end of the frame.
fn put_places(f: &[u8], out: &mut [u8], at: usize) -> usize
    ensures { (out.new, result) ≡ wrote (out.old, at) (places f.now) }
{
    let k = put_decimal(out, at, four_at(f, 7));
    if f.len() < 11 {
        return k;
    }
    put_rest(f, 11, (f.len() - 11) / 4, out, k)
}

#[tactic(auto, unfolding(crate::specs::Parts::plural, tell_text::specs::Written::wrote))]
fn put_plural(n: u64, out: &mut [u8], at: usize) -> usize
    ensures { (out.new, result) ≡ wrote (out.old, at) (plural n) }
{
    if n == 1 {
        return at;
    }
    put(out, at, b's')
}

// A byte of the words: itself, or the part of the frame that it stands for.
#[tactic(auto, unfolding(crate::specs::Parts::part))]
fn put_part(b: u8, f: &[u8], out: &mut [u8], at: usize) -> usize
    ensures { (out.new, result) ≡ wrote (out.old, at) (part f.now b) }
{
    match b {
        b'#' => put_decimal(out, at, four_at(f, 1)),
        b'%' => put_decimal(out, at, four_at(f, 3)),
        b'*' => put_places(f, out, at),
        b'@' => put_decimal(out, at, two_at(f, 1)),
        b'$' => put_decimal(out, at, two_at(f, 3)),
        b'{' => put_plural(two_at(f, 1), out, at),
        b'}' => put_plural(two_at(f, 3), out, at),
        b'^' => put_decimal(out, at, byte_at(f, 5)),
        b'~' => put_decimal(out, at, byte_at(f, 0)),
        b'&' => put_decimal(out, at, four_at(f, 6)),
        b'!' => put_decimal(out, at, four_at(f, 10)),
        _ => put(out, at, b),
    }
}

// The words, with parts of the frame put in.
pub fn fill(words: &[u8], f: &[u8], out: &mut [u8], at: usize) -> usize
    ensures { (out.new, result) ≡ wrote (out.old, at) (filled f.now words.now) }
{
    let mut k = at;
    for b in words {
        k = put_part(*b, f, out, k);
    }
    k
}
