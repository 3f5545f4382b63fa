// The layout of frames: the length is tested first, then the fields are read where they lie.
ghost use Rattle.std.specs.Prelude.{◌≡◌, ◌+◌, ◌≤◌, ◌<◌, length, get_or};
ghost use Rattle.sheet_frames.specs.Said.{number_at, shape_in, frame_in};

use crate::Frame;
use paper::{Constraint, Item};
use site_body::{is_body, word_at};

// The size of a constraint by kind.
const SHAPES: [u8; 6] = [6, 4, 4, 19, 3, 1];

// "high byte first"
fn two_at(s: &[u8], at: usize) -> u16
    requires { at + 2 ≤ length s.now }
    ensures { result ≡ number_at s.now 0 2 at }
{
    word_at(s, at)
}

fn four_at(s: &[u8], at: usize) -> u32
    requires { at + 4 ≤ length s.now }
    ensures { result ≡ number_at s.now 0 4 at }
{
    let a = two_at(s, at);
    let b = two_at(s, at + 2);
    a as u32 * 65536 + b as u32
}

fn eight_at(s: &[u8], at: usize) -> u64
    requires { at + 8 ≤ length s.now }
    ensures { result ≡ number_at s.now 0 8 at }
{
    let a = four_at(s, at);
    let b = four_at(s, at + 4);
    a as u64 * 4294967296 + b as u64
}

// "Bool one byte 0 or 1"
fn bool_of(s: &[u8]) -> Option<Constraint>
    requires { (length s.now ≡ 4) × (get_or s.now 0 0 ≡ 2) }
    ensures { result ≡ shape_in s.now }
{
    let b = s[3];
    if 2 <= b {
        return None;
    }
    Some(Constraint::ConstBool {
        ty: two_at(s, 1),
        val: b == 1,
    })
}

// "integer 16 bytes", in two words
fn int_of(s: &[u8]) -> Option<Constraint>
    requires { (length s.now ≡ 19) × (get_or s.now 0 0 ≡ 3) }
    ensures { result ≡ shape_in s.now }
{
    Some(Constraint::ConstInt {
        ty: two_at(s, 1),
        high: eight_at(s, 3),
        low: eight_at(s, 11),
    })
}

// The constraint that s is, "kind, body".
pub fn shape_of(s: &[u8]) -> Option<Constraint>
    ensures { result ≡ shape_in s.now }
{
    if s.len() == 0 {
        return None;
    }
    let k = usize::from(s[0]);
    if 6 <= k {
        return None;
    }
    let z = usize::from(SHAPES[k]);
    if s.len() != z {
        return None;
    }
    if k == 0 {
        return Some(Constraint::Variant {
            ty: two_at(s, 1),
            variant: two_at(s, 3),
            fields: s[5],
        });
    }
    if k == 1 {
        return Some(Constraint::Struct {
            ty: two_at(s, 1),
            fields: s[3],
        });
    }
    if k == 2 {
        return bool_of(s);
    }
    if k == 3 {
        return int_of(s);
    }
    if k == 4 {
        return Some(Constraint::ConstPrim { val: two_at(s, 1) });
    }
    Some(Constraint::Some)
}

// "01 term, flags (1 multi, 2 rec, 3 both)"
fn begin_of(s: &[u8]) -> Frame
    requires { (0 < length s.now) × (get_or s.now 0 0 ≡ 1) }
    ensures { result ≡ frame_in s.now }
{
    if s.len() != 4 {
        return Frame::Wrong;
    }
    let f = s[3];
    if 4 <= f {
        return Frame::Wrong;
    }
    Frame::Begin {
        term: two_at(s, 1),
        flags: f,
    }
}

// "02 kind, body"
fn site_of(s: &[u8]) -> Frame
    requires { (0 < length s.now) × (get_or s.now 0 0 ≡ 2) }
    ensures { result ≡ frame_in s.now }
{
    if is_body(&s[1..]) {
        return Frame::Site;
    }
    Frame::Wrong
}

// "03 place (4), priority (8, two's complement), item count (1)"
fn rule_of(s: &[u8]) -> Frame
    requires { (0 < length s.now) × (get_or s.now 0 0 ≡ 3) }
    ensures { result ≡ frame_in s.now }
{
    if s.len() != 14 {
        return Frame::Wrong;
    }
    Frame::Rule {
        place: four_at(s, 1),
        priority: eight_at(s, 5),
        count: s[13],
    }
}

// "04 site, kind, body"
fn is_of(s: &[u8]) -> Frame
    requires { (0 < length s.now) × (get_or s.now 0 0 ≡ 4) }
    ensures { result ≡ frame_in s.now }
{
    if s.len() < 3 {
        return Frame::Wrong;
    }
    let x = two_at(s, 1);
    let Some(c) = shape_of(&s[3..]) else {
        return Frame::Wrong;
    };
    Frame::Item(Item::Is {
        site: x,
        constraint: c,
    })
}

// "05 two sites"
fn equal_of(s: &[u8]) -> Frame
    requires { (0 < length s.now) × (get_or s.now 0 0 ≡ 5) }
    ensures { result ≡ frame_in s.now }
{
    if s.len() != 5 {
        return Frame::Wrong;
    }
    Frame::Item(Item::Equal {
        one: two_at(s, 1),
        other: two_at(s, 3),
    })
}

// "06 ends the set"
fn end_of(s: &[u8]) -> Frame
    requires { (0 < length s.now) × (get_or s.now 0 0 ≡ 6) }
    ensures { result ≡ frame_in s.now }
{
    if s.len() != 1 {
        return Frame::Wrong;
    }
    Frame::End
}

// The frame that bytes are.
pub fn frame_of(s: &[u8]) -> Frame
    ensures { result ≡ frame_in s.now }
{
    if s.len() == 0 {
        return Frame::Wrong;
    }
    let k = s[0];
    if k == 1 {
        return begin_of(s);
    }
    if k == 2 {
        return site_of(s);
    }
    if k == 3 {
        return rule_of(s);
    }
    if k == 4 {
        return is_of(s);
    }
    if k == 5 {
        return equal_of(s);
    }
    if k == 6 {
        return end_of(s);
    }
    Frame::Wrong
}
