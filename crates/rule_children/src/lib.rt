// A set's table on its way through one rule: the sites in lent memory, and after them the children that the rule adds, each as one word of a tail.
// The lent memory is only read, so that a refused rule leaves it as it was.
#![tactic(auto)]

ghost use Rattle.std.specs.Prelude.{◌≡◌, ◌++◌, map, ◌+◌, ◌-◌, ◌≤◌, ◌<◌, min, length};
ghost use Rattle.std.proofs.lemmas.List.Edits.{sets};
ghost use Rattle.paper.specs.Words.{any, or_else};
ghost use Rattle.paper.specs.Numbers.{max_sites, max_fields};
ghost use Rattle.paper.specs.Sites.{parent, child, children, child_count, same_site, match_variant, extract_struct, match_some};
ghost use Rattle.sites.specs.Slots.{site_in};
ghost use Rattle.rule_children.specs.Tail.{word_of, children_as, refused_as, site_of_word, Spelt, site_there, table, grown, after_grown, holds, Field, begins, Wants, SeeksWord, Onward, Notes, Sees, news, Ready, Growing, Placed};

use paper::{Constraint, FIELDS, Refusal, SITES};
use site_body::Link;

// No site: a number that no site has.
const NONE: u16 = 65535;

// How many sites there are with the children, or why they are refused; and the children's numbers by field, 0 past them.
#[derive(Clone, Copy)]
pub struct Children {
    pub outcome: Result<u16, Refusal>,
    pub numbers: [u16; FIELDS],
}

// What the children of a site under a constraint have in common: the four bytes with which their slots begin, the word of the first, how many there are.
#[derive(Clone, Copy)]
pub struct Wanted {
    pub key: u32,
    pub first: u64,
    pub count: usize,
}

// The numbers of the children by field, NONE where it is missing, and how many are missing.
#[derive(Clone, Copy)]
pub struct Seen {
    pub numbers: [u16; FIELDS],
    pub missing: usize,
}

// How many children a site has under c.
pub fn arity(c: Constraint) -> usize
    ensures { (result ≡ child_count c) × (result < 256) }
{
    match c {
        Constraint::Variant { fields, .. } | Constraint::Struct { fields, .. } => usize::from(
            fields,
        ),
        Constraint::ConstBool { .. } | Constraint::ConstInt { .. } | Constraint::ConstPrim { .. } =>
            0,
        Constraint::Some => 1,
    }
}

// The words of the three kinds: one function each, since each kind has other parts.
fn variant_word(s: u16, v: u16, f: u8) -> u64
    ensures { Spelt (match_variant s v f) result }
{
    8 + 256 * (u64::from(f) + 256 * (u64::from(v) + 65536 * u64::from(s)))
}

fn struct_word(s: u16, f: u8) -> u64
    ensures { Spelt (extract_struct s f) result }
{
    10 + 256 * (u64::from(f) + 256 * u64::from(s))
}

fn some_word(s: u16) -> u64
    ensures { Spelt (match_some s) result }
{
    12 + 256 * u64::from(s)
}

// Child f of the site s under c as a word: the kind lowest, then the field, the variant and the source, as the kind has them.
pub fn child_word(s: u16, c: Constraint, f: u8) -> u64
    ensures { Spelt (child s c f) result }
{
    match c {
        Constraint::Variant { variant, .. } => variant_word(s, variant, f),
        Constraint::Struct { .. } => struct_word(s, f),
        Constraint::ConstBool { .. }
        | Constraint::ConstInt { .. }
        | Constraint::ConstPrim { .. }
        | Constraint::Some => some_word(s),
    }
}

// The word of the site in slot i.
pub fn word_in(m: &[u8], i: u16) -> u64
    ensures { Spelt (site_in m.now i) result }
{
    match site_body::link_of(sites::body(m, i)) {
        Some(
            Link::Variant {
                source,
                variant,
                field,
            },
        ) => variant_word(source, variant, field),
        Some(Link::Struct { source, field }) => struct_word(source, field),
        Some(Link::Some { source }) => some_word(source),
        None => 0,
    }
}

// The word of the site that a word of the tail is read as. Kinds stay numbers: `Spelt` and `site_of_word` hold them.
fn tail_word(w: u64) -> u64
    ensures { Spelt (site_of_word w) result }
{
    match w % 256 {
        8 | 10 | 12 => w,
        _ => 0,
    }
}

// The source of the site that a word is read as; 0 where it has none.
pub fn source_of(w: u64) -> u64
    ensures { result ≡ or_else (parent (site_of_word w)) 0 }
{
    match w % 256 {
        8 => w / 256 / 256 / 65536,
        10 => w / 256 / 256,
        12 => w / 256,
        _ => 0,
    }
}

// The word of site x, where n are in the memory and the others in the tail.
pub fn word_of(m: &[u8], n: u16, tail: &[u64], x: u16) -> u64
    ensures { Spelt (site_there m.now n tail.now x) result }
{
    if x < n {
        return word_in(m, x);
    }
    tail_word(tail.get(usize::from(x - n)).copied().unwrap_or(0))
}

// Of the `count` words that start at `first` and differ in the field, which w is; `count` where it is none.
// No Option, which is no plainer: a word that is no child's and a field past the last are one case to `note`.
fn field_of(w: u64, first: u64, count: usize) -> usize
    ensures { Field w first count result }
{
    if w < first || (w - first) % 256 != 0 {
        return count;
    }
    count.min(((w - first) / 256) as usize)
}

// Is the site with the word w a child of s under c?
pub fn is_child(w: u64, s: u16, c: Constraint) -> bool
    ensures { result ≡ any (same_site (site_of_word w)) (children s c) }
{
    let count = arity(c);
    let first = child_word(s, c, 0);
    field_of(w, first, count) < count
}

// Field f gets the number i if it is one of `count` and has none. How many numbers that gave.
fn note(of: &mut [u16; FIELDS], f: usize, count: usize, i: u16) -> usize
    requires { count ≤ max_fields }
    ensures { Notes of.old of.new f count i result }
{
    if count <= f || of[f] != NONE {
        return 0;
    }
    of[f] = i;
    1
}

// The slot of a child begins with its length, its kind and its source, whatever its field.
fn beginning(s: u16, c: Constraint) -> u32
    ensures { result ≡ begins (child s c 0) }
{
    let [high, low] = s.to_be_bytes();
    match c {
        Constraint::Variant { .. } => site_slots::quad(6, 8, high, low),
        Constraint::Struct { .. } => site_slots::quad(4, 10, high, low),
        Constraint::ConstBool { .. }
        | Constraint::ConstInt { .. }
        | Constraint::ConstPrim { .. }
        | Constraint::Some => site_slots::quad(3, 12, high, low),
    }
}

fn want(s: u16, c: Constraint) -> Wanted
    ensures { Wants s c result }
{
    Wanted {
        key: beginning(s, c),
        first: child_word(s, c, 0),
        count: arity(c),
    }
}

// The first word from `from` on and below `to` that is a child's; `to` where none is.
fn seek_word(tail: &[u64], from: u16, to: u16, first: u64, count: usize) -> u16
    ensures { SeeksWord tail.now from to first count result }
{
    for j in from..to {
        let Some(w) = tail.get(usize::from(j)) else {
            return to;
        };
        if field_of(*w, first, count) < count {
            return j;
        }
    }
    to
}

// The first site from i on that may be a child: in the memory its slot begins as theirs do, in the tail its word is one of theirs. n + k where none is.
fn next_site(m: &[u8], n: u16, tail: &[u64], k: u16, i: u16, w: Wanted) -> u16
    requires { (n + k < 65536) × (i ≤ n + k) }
    ensures { Onward m.now n tail.now k i w result }
{
    if n <= i {
        return n + seek_word(tail, i - n, k, w.first, w.count);
    }
    let x = site_slots::seek(m, 0, i, n, w.key);
    if x < n {
        return x;
    }
    n + seek_word(tail, 0, k, w.first, w.count)
}

// The children of s under c that are there: one walk over the table, which ends where all are found.
fn scan(m: &[u8], n: u16, tail: &[u64], k: u16, s: u16, c: Constraint) -> Seen
    requires { (child_count c ≤ max_fields) × (n + k < 65536) }
    ensures { Sees (table m.now n tail.now k) s c result }
{
    let w = want(s, c);
    let count = w.count;
    let mut numbers = [NONE; FIELDS];
    let mut missing = count;
    let mut i: u16 = 0;
    // no `for`: the walk goes from one site that may be a child to the next, and ends early
    while 0 < missing {
        let x = next_site(m, n, tail, k, i, w);
        if n + k <= x {
            return Seen { numbers, missing };
        }
        let f = field_of(word_of(m, n, tail, x), w.first, count);
        missing -= note(&mut numbers, f, count, x);
        i = x + 1;
    }
    Seen { numbers, missing }
}

// Writes the missing children into the tail, in the order of their fields. The numbers of all, 0 past them.
fn place(
    m: &[u8],
    n: u16,
    tail: &mut [u64],
    k: u16,
    s: u16,
    c: Constraint,
    of: [u16; FIELDS],
) -> [u16; FIELDS]
    requires { Ready (table m.now n tail.old k) n k s c of tail.old }
    ensures { let t = table m.now n tail.old k in
        let new = news t s c (child_count c) in
        (Placed t s c (child_count c) result)
        × (tail.new ≡ sets tail.old k (map word_of new))
        × (table m.now n tail.new (k + length new) ≡ t ++ new) }
{
    let count = arity(c);
    let mut numbers = [0u16; FIELDS];
    let mut j = usize::from(k);
    for f in 0..count {
        let old = of[f];
        if old == NONE {
            tail[j] = child_word(s, c, f as u8);
            numbers[f] = n + j as u16;
            j += 1;
        } else {
            numbers[f] = old;
        }
    }
    numbers
}

// No `From`, which is no plainer: the name says what the call does.
fn refuse(r: Refusal) -> Children
    ensures { result ≡ refused_as r }
{
    Children {
        outcome: Err(r),
        numbers: [0; FIELDS],
    }
}

// The same where the numbers are in order: searched, then written if there is room.
fn grow(m: &[u8], n: u16, tail: &mut [u64], k: u16, at: u32, s: u16, c: Constraint) -> Children
    requires { Growing n k s c tail.old }
    ensures { let o = grown m.now n tail.old k at s c in
        (result ≡ children_as s c o)
        × (tail.new ≡ after_grown n tail.old k o)
        × (holds m.now n tail.new o) }
{
    let total = usize::from(n) + usize::from(k);
    let seen = scan(m, n, tail, k, s, c);
    let room = SITES.saturating_sub(total);
    let missing = seen.missing;
    if room < missing {
        return refuse(Refusal::TooManySites {
            asked: (total + room + 1) as u32,
            at,
        });
    }
    let of = seen.numbers;
    let numbers = place(m, n, tail, k, s, c, of);
    Children {
        outcome: Ok((total + missing) as u16),
        numbers,
    }
}

// Adds the children of s under c to the table: those that are missing go to the tail, all or none.
pub fn add_children(
    m: &[u8],
    n: u16,
    tail: &mut [u64],
    k: u16,
    at: u32,
    s: u16,
    c: Constraint,
) -> Children
    ensures { let o = grown m.now n tail.old k at s c in
        (result ≡ children_as s c o)
        × (tail.new ≡ after_grown n tail.old k o)
        × (holds m.now n tail.new o) }
{
    let total = usize::from(n) + usize::from(k);
    // eight words more may be written, and never more than a set has sites
    if tail.len() < SITES.min(usize::from(k) + FIELDS) {
        return refuse(Refusal::TooManySites {
            asked: total as u32,
            at,
        });
    }
    if 65536 <= total {
        return refuse(Refusal::TooManySites {
            asked: total as u32,
            at,
        });
    }
    let count = arity(c);
    if FIELDS < count {
        return refuse(Refusal::TooManyFields {
            asked: count as u32,
            at,
        });
    }
    if count == 0 {
        return Children {
            outcome: Ok(total as u16),
            numbers: [0; FIELDS],
        };
    }
    if total <= usize::from(s) {
        return refuse(Refusal::Unknown { site: s });
    }
    grow(m, n, tail, k, at, s, c)
}
