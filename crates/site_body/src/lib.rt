// One body of a site, the kind byte first, as it stands in a sheet and in a slot: is it one, and what does it say? Bytes that are none are read as a site
// that no table has (`no_site`), so every question has an answer. (The Rust's `Binding` and its `sources`.)
#![tactic(auto)]

ghost use Rattle.std.specs.Prelude.{◌≡◌, true, ◌+◌, ◌*◌, ◌≤◌, ◌<◌, length, get_or, drop};
ghost use Rattle.std.proofs.Math.ListN.{get_elem?};
ghost use Rattle.paper.specs.Layout.{whole, site_read};
ghost use Rattle.paper.specs.Sites.{sources, term_of, parent};
ghost use Rattle.site_body.specs.Body.{off_of, many_of, words, kind, is_body, site_of, found_as, link_of, missing, admits_body, verdict_as};

use paper::{Refusal, SOURCES, TERMS};

const KINDS: usize = 14;

// Where the sources of a body begin, by kind; 0, 1 or, where the byte before them counts them, 2; and how many bytes follow them.
const OFFS: [u8; 14] = [4, 19, 3, 2, 3, 8, 1, 6, 1, 4, 1, 1, 1, 1];

const WAYS: [u8; 14] = [0, 0, 0, 0, 1, 2, 1, 2, 1, 2, 1, 1, 1, 1];

const TAILS: [u8; 14] = [0, 0, 0, 0, 0, 0, 0, 0, 3, 0, 1, 0, 0, 1];

// A site that can be a child: its source, with its variant and its field.
#[derive(Clone, Copy)]
pub enum Link {
    Variant {
        source: u16,
        variant: u16,
        field: u8,
    },
    Struct {
        source: u16,
        field: u8,
    },
    Some {
        source: u16,
    },
}

// The byte at a place, 0 past the end.
fn byte_at(b: &[u8], at: usize) -> u8
    ensures { result ≡ get_or b.now at 0 }
{
    b.get(at).copied().unwrap_or(0)
}

// "high byte first"
pub fn word_at(b: &[u8], at: usize) -> u16
    ensures { result ≡ get_or b.now at 0 * 256 + get_or b.now (at + 1) 0 }
{
    if b.len() <= at {
        return 0;
    }
    (usize::from(b[at]) * 256 + usize::from(byte_at(b, at + 1))) as u16
}

// Where the sources begin, by the kind alone.
pub fn off_of(b: &[u8]) -> usize
    ensures { (result ≡ off_of b.now) × (result < 20) }
{
    let k = usize::from(byte_at(b, 0));
    if KINDS <= k {
        return 0;
    }
    usize::from(OFFS[k])
}

// How many sources there are, by the kind and the byte that counts them.
pub fn many_of(b: &[u8]) -> usize
    ensures { (result ≡ many_of b.now) × (result < 256) }
{
    let k = usize::from(byte_at(b, 0));
    if KINDS <= k {
        return 0;
    }
    let way = WAYS[k];
    if way == 0 {
        return 0;
    }
    if way == 1 {
        return 1;
    }
    let off = off_of(b);
    usize::from(byte_at(b, off - 1))
}

// Are these bytes the body of a site?
pub fn is_body(b: &[u8]) -> bool
    ensures { result ≡ is_body b.now }
{
    let k = usize::from(byte_at(b, 0));
    if KINDS <= k {
        return false;
    }
    if b.len() != off_of(b) + 2 * many_of(b) + usize::from(TAILS[k]) {
        return false;
    }
    if k == 0 {
        return byte_at(b, 3) < 2;
    }
    true
}

pub fn kind(b: &[u8]) -> u8
    ensures { result ≡ kind (site_of b.now) }
{
    if !is_body(b) {
        return 6;
    }
    byte_at(b, 0)
}

pub fn source_count(b: &[u8]) -> usize
    ensures { result ≡ length (sources (site_of b.now)) }
{
    if !is_body(b) {
        return 1;
    }
    many_of(b)
}

// Source j, counted from 0.
pub fn source(b: &[u8], j: usize) -> Option<u16>
    ensures { result ≡ found_as (get_elem? (sources (site_of b.now)) j) }
{
    if !is_body(b) {
        if j == 0 {
            return Some(65535);
        }
        return None;
    }
    if many_of(b) <= j {
        return None;
    }
    Some(word_at(b, off_of(b) + 2 * j))
}

fn term_in(b: &[u8]) -> Option<u16>
    requires { is_body b.now ≡ true }
    ensures { result ≡ found_as (term_of (site_of b.now)) }
{
    let k = byte_at(b, 0);
    if k == 4 {
        return Some(word_at(b, 1));
    }
    if k == 5 {
        return Some(word_at(b, 1));
    }
    None
}

// The term of an Extractor or a Constructor.
pub fn term(b: &[u8]) -> Option<u16>
    ensures { result ≡ found_as (term_of (site_of b.now)) }
{
    if !is_body(b) {
        return None;
    }
    term_in(b)
}

// The source of a MatchVariant, an ExtractStruct or a MatchSome, with its variant and its field.
pub fn link_of(b: &[u8]) -> Option<Link>
    ensures { result ≡ link_of (site_of b.now) }
{
    if !is_body(b) {
        return None;
    }
    let k = byte_at(b, 0);
    if k == 8 {
        return Some(Link::Variant {
            source: word_at(b, 1),
            variant: word_at(b, 3),
            field: byte_at(b, 5),
        });
    }
    if k == 10 {
        return Some(Link::Struct {
            source: word_at(b, 1),
            field: byte_at(b, 3),
        });
    }
    if k == 12 {
        return Some(Link::Some {
            source: word_at(b, 1),
        });
    }
    None
}

pub fn parent(b: &[u8]) -> Option<u16>
    ensures { result ≡ found_as (parent (site_of b.now)) }
{
    match link_of(b)? {
        Link::Variant { source, .. } => Some(source),
        Link::Struct { source, .. } => Some(source),
        Link::Some { source } => Some(source),
    }
}

// The first of `many` sources, two bytes each from `from` on, that is not below the count.
fn first_missing(b: &[u8], from: usize, many: usize, count: u16) -> Option<u16>
    requires { from + 2 * many ≤ length b.now }
    ensures { result ≡ found_as (missing count (words many (drop from b.now))) }
{
    for k in 0..many {
        let s = word_at(b, from + 2 * k);
        if count <= s {
            return Some(s);
        }
    }
    None
}

// May this body be added to a set of so many sites? Looks at all but the sites themselves. `at` is the item or the line that asks.
pub fn judge(b: &[u8], count: u16, at: u32) -> Result<(), Refusal>
    ensures { result ≡ verdict_as (admits_body count at (whole (site_read b.now))) }
{
    if !is_body(b) {
        return Err(Refusal::Layout { line: at });
    }
    let many = many_of(b);
    let lost = first_missing(b, off_of(b), many, count);
    if let Some(s) = lost {
        return Err(Refusal::Unknown { site: s });
    }
    if SOURCES < many {
        return Err(Refusal::TooManySources {
            asked: many as u32,
            at,
        });
    }
    let named = term_in(b);
    let Some(t) = named else {
        return Ok(());
    };
    if TERMS <= t as usize {
        return Err(Refusal::TermTooHigh { asked: t as u32 });
    }
    Ok(())
}
