// A script of class calls: a line is a call, and gets one answer. specs/Script.antt has the words.
#![tactic(auto)]

ghost use Rattle.std.specs.Prelude.{◌≡◌, ◌≢◌, ◌≤◌, ◌<◌, ℕ, length, get_or};
ghost use Rattle.paper.specs.Classes as C;
ghost use Rattle.class_script.specs.Script.{number_in, pair_in, call_in, stepped};

use classes::{Trail, Untaken};
use paper::{Refusal, SITES};

// A line that is no call is `Bad`, here and in Reply, and not None: the theorem `Simulating.same_answers` has a call and a reply for each line.
#[derive(Clone, Copy)]
pub enum Call {
    Merge(u16, u16),
    Find(u16),
    FindMut(u16),
    SameSet(u16, u16),
    Remove(u16),
    Len,
    Empty,
    Bad,
}

// What a line is answered. The members of a removed class stand in the lent memory.
#[derive(Clone, Copy)]
pub enum Reply {
    Merged(Result<bool, Refusal>),
    Found(Result<Trail, Refusal>),
    FoundMut(Result<Option<u16>, Refusal>),
    Compared(Result<bool, Refusal>),
    Removed(Result<usize, Untaken>),
    Length(u16),
    Emptiness(bool),
    Bad,
}

// Decimal digits, at most 65,535.
fn number_of(text: &[u8]) -> Option<u16>
    ensures { result ≡ number_in text.now }
{
    if text.is_empty() {
        return None;
    }
    let mut value: u16 = 0;
    for &d in text {
        if !d.is_ascii_digit() {
            return None;
        }
        value = value.checked_mul(10)?.checked_add(u16::from(d - b'0'))?;
    }
    Some(value)
}

// The place of the first space, or the end.
fn space(text: &[u8]) -> usize
    ensures within { result ≤ length text.now }
    ensures here { result < length text.now → get_or text.now result 0 ≡ 32 }
    ensures first { (i : ℕ) → i < result → get_or text.now i 0 ≢ 32 }
{
    text.iter().position(|b| *b == b' ').unwrap_or(text.len())
}

// Two numbers with a space between.
fn pair(text: &[u8]) -> Option<(u16, u16)>
    ensures { result ≡ pair_in text.now }
{
    let k = space(text);
    let x = number_of(&text[..k])?;
    let y = number_of(text.get(k + 1..)?)?;
    Some((x, y))
}

// The call that a line is, LF left out.
pub fn call_of(line: &[u8]) -> Call
    ensures { result ≡ call_in line.now }
{
    if let Some(rest) = line.strip_prefix(b"merge ") {
        let Some((x, y)) = pair(rest) else {
            return Call::Bad;
        };
        return Call::Merge(x, y);
    }
    if let Some(rest) = line.strip_prefix(b"find ") {
        return number_of(rest).map_or(Call::Bad, Call::Find);
    }
    if let Some(rest) = line.strip_prefix(b"findmut ") {
        return number_of(rest).map_or(Call::Bad, Call::FindMut);
    }
    if let Some(rest) = line.strip_prefix(b"same ") {
        let Some((x, y)) = pair(rest) else {
            return Call::Bad;
        };
        return Call::SameSet(x, y);
    }
    if let Some(rest) = line.strip_prefix(b"remove ") {
        return number_of(rest).map_or(Call::Bad, Call::Remove);
    }
    if line == b"len".as_slice() {
        return Call::Len;
    }
    if line == b"empty".as_slice() {
        return Call::Empty;
    }
    Call::Bad
}

// One line in, one answer out, on the one set of classes.
pub fn step(
    parents: &mut [u16; SITES],
    ranks: &mut [u8; SITES],
    count: &mut u16,
    members: &mut [u16],
    line: &[u8],
) -> Reply
    ensures { let before = C.classes parents.old ranks.old count.old in
        let after = C.classes parents.new ranks.new count.new in
        (after, members.new, result) ≡ stepped before members.old (call_in line.now) }
{
    match call_of(line) {
        Call::Merge(x, y) => Reply::Merged(classes::merge_in(parents, ranks, count, x, y)),
        Call::Find(x) => Reply::Found(classes::find_in(parents, x)),
        Call::FindMut(x) => Reply::FoundMut(classes::find_mut_in(parents, x)),
        Call::SameSet(x, y) => Reply::Compared(classes::in_same_set_in(parents, x, y)),
        Call::Remove(x) => Reply::Removed(class_removal::remove_set_of_in(
            parents, count, x, members,
        )),
        Call::Len => Reply::Length(*count),
        Call::Empty => Reply::Emptiness(*count == 0),
        Call::Bad => Reply::Bad,
    }
}
