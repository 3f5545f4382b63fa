// What a line of a script of class calls is answered, in lent room, without the LF that ends it. specs/Replies.antt has the words.
#![tactic(auto)]

ghost use Rattle.std.specs.Prelude.{◌≡◌, min, length};
ghost use Rattle.tell_text.specs.Written.{wrote};
ghost use Rattle.tell_reply.specs.Replies.{bool_text, refusal_text, joined_text, trail_text, looked_text, found_text, sought_text, same_text, member_text, members_text, untaken_text, taken_text, reply_text};

use class_script::Reply;
use classes::{Trail, Untaken};
use paper::Refusal;
use tell_text::{put, put_decimal, put_text};

fn put_bool(out: &mut [u8], n: usize, b: bool) -> usize
    ensures { (out.new, result) ≡ wrote (out.old, n) (bool_text b) }
{
    if b {
        put_text(out, n, b"true")
    } else {
        put_text(out, n, b"false")
    }
}

fn put_refusal(out: &mut [u8], n: usize, e: Refusal) -> usize
    ensures { (out.new, result) ≡ wrote (out.old, n) (refusal_text e) }
{
    match e {
        Refusal::Unknown { site } => {
            let m = put_text(out, n, b"refused 2 ");
            put_decimal(out, m, u64::from(site))
        }
        Refusal::Itself { site } => {
            let m = put_text(out, n, b"refused 3 ");
            put_decimal(out, m, u64::from(site))
        }
        _ => n,
    }
}

// Of the four answers below each has its own words for a value: one function for all would be handed them, and be no plainer.
fn put_joined(out: &mut [u8], n: usize, j: Result<bool, Refusal>) -> usize
    ensures { (out.new, result) ≡ wrote (out.old, n) (joined_text j) }
{
    match j {
        Ok(_) => put_text(out, n, b"ok"),
        Err(e) => put_refusal(out, n, e),
    }
}

fn put_trail(out: &mut [u8], n: usize, t: Trail) -> usize
    ensures { (out.new, result) ≡ wrote (out.old, n) (trail_text t) }
{
    let Some(s) = t.found else {
        return put_text(out, n, b"none");
    };
    let m = put_decimal(out, n, u64::from(s));
    let k = put(out, m, b' ');
    put_decimal(out, k, u64::from(t.links))
}

fn put_looked(out: &mut [u8], n: usize, l: Result<Trail, Refusal>) -> usize
    ensures { (out.new, result) ≡ wrote (out.old, n) (looked_text l) }
{
    match l {
        Ok(t) => put_trail(out, n, t),
        Err(e) => put_refusal(out, n, e),
    }
}

fn put_found(out: &mut [u8], n: usize, f: Option<u16>) -> usize
    ensures { (out.new, result) ≡ wrote (out.old, n) (found_text f) }
{
    match f {
        Some(s) => put_decimal(out, n, u64::from(s)),
        None => put_text(out, n, b"none"),
    }
}

fn put_sought(out: &mut [u8], n: usize, s: Result<Option<u16>, Refusal>) -> usize
    ensures { (out.new, result) ≡ wrote (out.old, n) (sought_text s) }
{
    match s {
        Ok(f) => put_found(out, n, f),
        Err(e) => put_refusal(out, n, e),
    }
}

fn put_same(out: &mut [u8], n: usize, s: Result<bool, Refusal>) -> usize
    ensures { (out.new, result) ≡ wrote (out.old, n) (same_text s) }
{
    match s {
        Ok(b) => put_bool(out, n, b),
        Err(e) => put_refusal(out, n, e),
    }
}

// The member at the place i: a space stands between two.
fn put_member(out: &mut [u8], n: usize, i: usize, x: u16) -> usize
    ensures { (out.new, result) ≡ wrote (out.old, n) (member_text i x) }
{
    if i == 0 {
        return put_decimal(out, n, u64::from(x));
    }
    let m = put(out, n, b' ');
    put_decimal(out, m, u64::from(x))
}

// The first k members.
fn put_members(out: &mut [u8], n: usize, members: &[u16], k: usize) -> usize
    ensures { let ms = members.now in
        (out.new, result) ≡ wrote (out.old, n) (members_text ms (min k (length ms))) }
{
    let mut m = n;
    for i in 0..k.min(members.len()) {
        m = put_member(out, m, i, members[i]);
    }
    m
}

fn put_untaken(out: &mut [u8], n: usize, u: Untaken) -> usize
    ensures { (out.new, result) ≡ wrote (out.old, n) (untaken_text u) }
{
    match u {
        Untaken::Refused(e) => put_refusal(out, n, e),
        Untaken::Short => n,
    }
}

fn put_taken(out: &mut [u8], n: usize, members: &[u16], t: Result<usize, Untaken>) -> usize
    ensures { (out.new, result) ≡ wrote (out.old, n) (taken_text members.now t) }
{
    match t {
        Ok(0) => put_text(out, n, b"none"),
        Ok(k) => put_members(out, n, members, k),
        Err(u) => put_untaken(out, n, u),
    }
}

// What a line is answered; `line` is its number. The members of a removed class stand in the lent memory.
pub fn put_reply(out: &mut [u8], n: usize, members: &[u16], r: Reply, line: u64) -> usize
    ensures { (out.new, result) ≡ wrote (out.old, n) (reply_text members.now line r) }
{
    match r {
        Reply::Merged(j) => put_joined(out, n, j),
        Reply::Found(l) => put_looked(out, n, l),
        Reply::FoundMut(s) => put_sought(out, n, s),
        Reply::Compared(s) => put_same(out, n, s),
        Reply::Removed(t) => put_taken(out, n, members, t),
        Reply::Length(k) => put_decimal(out, n, u64::from(k)),
        Reply::Emptiness(b) => put_bool(out, n, b),
        Reply::Bad => {
            let m = put_text(out, n, b"bad ");
            put_decimal(out, m, line)
        }
    }
}
