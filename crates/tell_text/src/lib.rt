// Words, decimal and hexadecimal numbers into lent room. What passes the end of the room is left out; each call answers where the next one goes on.
#![tactic(auto)]

ghost use Rattle.std.specs.Prelude.{◌≡◌, List, [], ◌∷◌};
ghost use Rattle.paper.specs.Words.{two, four, eight};
ghost use Rattle.sheet_digits.specs.Digits.{digits_of};
ghost use Rattle.tell_text.specs.Written.{wrote};
ghost use Rattle.tell_text.specs.Decimal.{decimal};

use sheet_digits::{high_digit, low_digit};

pub fn put(out: &mut [u8], at: usize, b: u8) -> usize
    ensures { (out.new, result) ≡ wrote (out.old, at) (b ∷ []) }
{
    if at < out.len() {
        out[at] = b;
        return at + 1;
    }
    at
}

pub fn put_text(out: &mut [u8], at: usize, text: &[u8]) -> usize
    ensures { (out.new, result) ≡ wrote (out.old, at) text.now }
{
    let mut k = at;
    for b in text {
        k = put(out, k, *b);
    }
    k
}

// The last digit comes after the others.
pub fn put_decimal(out: &mut [u8], at: usize, n: u64) -> usize
    ensures { (out.new, result) ≡ wrote (out.old, at) (decimal n) }
{
    let digit = 48 + (n % 10) as u8;
    if n < 10 {
        return put(out, at, digit);
    }
    let k = put_decimal(out, at, n / 10);
    put(out, k, digit)
}

// A byte, two digits.
fn put_byte(out: &mut [u8], at: usize, b: u8) -> usize
    ensures { (out.new, result) ≡ wrote (out.old, at) (digits_of (b ∷ [])) }
{
    let k = put(out, at, high_digit(b));
    put(out, k, low_digit(b))
}

// Bytes as upper-case hexadecimal.
pub fn put_hex(out: &mut [u8], at: usize, bytes: &[u8]) -> usize
    ensures { (out.new, result) ≡ wrote (out.old, at) (digits_of bytes.now) }
{
    let mut k = at;
    for b in bytes {
        k = put_byte(out, k, *b);
    }
    k
}

pub fn put_two(out: &mut [u8], at: usize, v: u16) -> usize
    ensures { (out.new, result) ≡ wrote (out.old, at) (digits_of (two v)) }
{
    put_hex(out, at, &[(v / 256) as u8, (v % 256) as u8])
}

pub fn put_four(out: &mut [u8], at: usize, v: u32) -> usize
    ensures { (out.new, result) ≡ wrote (out.old, at) (digits_of (four v)) }
{
    let b = [
        (v / 256 / 256 / 256) as u8,
        (v / 256 / 256 % 256) as u8,
        (v / 256 % 256) as u8,
        (v % 256) as u8,
    ];
    put_hex(out, at, &b)
}

pub fn put_eight(out: &mut [u8], at: usize, v: u64) -> usize
    ensures { (out.new, result) ≡ wrote (out.old, at) (digits_of (eight v)) }
{
    let k = put_four(out, at, (v / 4294967296) as u32);
    put_four(out, k, (v % 4294967296) as u32)
}
