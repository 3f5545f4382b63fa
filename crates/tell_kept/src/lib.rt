// The lines that show what the loader made of a sheet: sets, kept rules with their sites unfolded, refused rules, pairs, cyclic terms.
#![tactic(auto)]

ghost use Rattle.std.specs.Prelude.{◌≡◌, [], ◌∷◌, take};
ghost use Rattle.paper.specs.Numbers.{told};
ghost use Rattle.paper.specs.Sites.{constraint_body};
ghost use Rattle.sites.specs.Slots.{sites_in};
ghost use Rattle.sheet_digits.specs.Digits.{digits_of};
ghost use Rattle.rule_words.specs.Stored.{kept_in, run, constrained_at, equal_at};
ghost use Rattle.tell_text.specs.Written.{wrote};
ghost use Rattle.tell_kept.specs.Listed.{site_text, c_line, c_lines, member_text, members, class_line, classes, head_text, total_line, kept_lines, told_text, refused_line, overlap_word, pair_line, set_line, terms_text, cyclic_line};

use paper::{Constraint, Overlap, Refusal, UNFOLDING};
use rule_words::{
    constrained, constraint_at, equal_at, equals, lowest_at, place, rank, ranked, site_at, start,
};
use tell_text::{put, put_decimal, put_eight, put_four, put_hex, put_text, put_two};

// The first k bytes of the room.
fn put_first(out: &mut [u8], at: usize, room: &[u8], k: usize) -> usize
    ensures { (out.new, result) ≡ wrote (out.old, at) (digits_of (take k room.now)) }
{
    put_hex(out, at, &room[..k.min(room.len())])
}

// The unfolding of a site. One that passes 4,096 bytes, or of no site of the set, is OVER.
fn put_site(out: &mut [u8], at: usize, m: &[u8], n: u16, s: u64) -> usize
    ensures { (out.new, result) ≡ wrote (out.old, at) (site_text (sites_in m.now n) s) }
{
    if 65535 < s {
        return put_text(out, at, b"OVER");
    }
    let mut room = [0u8; UNFOLDING];
    let Ok(k) = sites::unfold(m, n, s as u16, &mut room) else {
        return put_text(out, at, b"OVER");
    };
    put_first(out, at, &room, k)
}

fn put_int(out: &mut [u8], at: usize, ty: u16, high: u64, low: u64) -> usize
    ensures { (out.new, result) ≡ wrote (out.old, at) (digits_of (constraint_body (Constraint.ConstInt ty high low))) }
{
    let k = put_hex(out, at, &[3, (ty / 256) as u8, (ty % 256) as u8]);
    let j = put_eight(out, k, high);
    put_eight(out, j, low)
}

// A constraint's kind and body, as in a frame 04.
#[tactic(auto, unfolding(paper::specs::Sites::constraint_body, paper::specs::Words::two, paper::specs::Words::flag))]
fn put_constraint(out: &mut [u8], at: usize, c: Constraint) -> usize
    ensures { (out.new, result) ≡ wrote (out.old, at) (digits_of (constraint_body c)) }
{
    match c {
        Constraint::Variant {
            ty,
            variant,
            fields,
        } => {
            let b = [
                0,
                (ty / 256) as u8,
                (ty % 256) as u8,
                (variant / 256) as u8,
                (variant % 256) as u8,
                fields,
            ];
            put_hex(out, at, &b)
        }
        Constraint::Struct { ty, fields } => {
            put_hex(out, at, &[1, (ty / 256) as u8, (ty % 256) as u8, fields])
        }
        Constraint::ConstBool { ty, val } => {
            let b = [2, (ty / 256) as u8, (ty % 256) as u8, u8::from(val)];
            put_hex(out, at, &b)
        }
        Constraint::ConstInt { ty, high, low } => put_int(out, at, ty, high, low),
        Constraint::ConstPrim { val } => {
            put_hex(out, at, &[4, (val / 256) as u8, (val % 256) as u8])
        }
        Constraint::Some => put_hex(out, at, &[5]),
    }
}

// The constrained site k of the rule at b.
fn put_constrained(
    out: &mut [u8],
    at: usize,
    m: &[u8],
    n: u16,
    words: &[u64],
    b: usize,
    k: usize,
) -> usize
    ensures { let t = sites_in m.now n in let e = constrained_at words.now b k in
        (out.new, result) ≡ wrote (out.old, at) (c_line t e.0 e.1) }
{
    let a = put_text(out, at, b" c ");
    let d = put_site(out, a, m, n, site_at(words, b, k));
    let e = put_text(out, d, b" ");
    let f = put_constraint(out, e, constraint_at(words, b, k));
    put_text(out, f, b"\n")
}

fn put_all_constrained(
    out: &mut [u8],
    at: usize,
    m: &[u8],
    n: u16,
    words: &[u64],
    b: usize,
    k: usize,
) -> usize
    ensures { let t = sites_in m.now n in
        (out.new, result) ≡ wrote (out.old, at) (c_lines t (run (constrained_at words.now b) 0 k)) }
{
    let mut e = at;
    for i in 0..k {
        e = put_constrained(out, e, m, n, words, b, i);
    }
    e
}

// The equal site k of the rule at b, if `low` is the lowest of its class.
fn put_member(
    out: &mut [u8],
    at: usize,
    m: &[u8],
    n: u16,
    words: &[u64],
    b: usize,
    k: usize,
    low: u64,
) -> usize
    ensures { let t = sites_in m.now n in let e = equal_at words.now b k in
        (out.new, result) ≡ wrote (out.old, at) (member_text t low e.0 e.1) }
{
    if lowest_at(words, b, k) != low {
        return at;
    }
    let a = put_text(out, at, b" ");
    put_site(out, a, m, n, equal_at(words, b, k))
}

fn put_members(
    out: &mut [u8],
    at: usize,
    m: &[u8],
    n: u16,
    words: &[u64],
    b: usize,
    k: usize,
    low: u64,
) -> usize
    ensures { let t = sites_in m.now n in
        (out.new, result) ≡ wrote (out.old, at) (members t low (run (equal_at words.now b) 0 k)) }
{
    let mut e = at;
    for i in 0..k {
        e = put_member(out, e, m, n, words, b, i, low);
    }
    e
}

// The class whose lowest member is equal site i of the k of the rule at b; nothing for another member.
fn put_class(
    out: &mut [u8],
    at: usize,
    m: &[u8],
    n: u16,
    words: &[u64],
    b: usize,
    k: usize,
    i: usize,
) -> usize
    ensures { let t = sites_in m.now n in let f = equal_at words.now b in
        (out.new, result) ≡ wrote (out.old, at) (class_line t (run f 0 k) (f i).0 (f i).1) }
{
    let low = lowest_at(words, b, i);
    if equal_at(words, b, i) != low {
        return at;
    }
    let a = put_text(out, at, b" e");
    let d = put_members(out, a, m, n, words, b, k, low);
    put_text(out, d, b"\n")
}

fn put_classes(
    out: &mut [u8],
    at: usize,
    m: &[u8],
    n: u16,
    words: &[u64],
    b: usize,
    k: usize,
) -> usize
    ensures { let t = sites_in m.now n in let all = run (equal_at words.now b) 0 k in
        (out.new, result) ≡ wrote (out.old, at) (classes t all all) }
{
    let mut e = at;
    for i in 0..k {
        e = put_class(out, e, m, n, words, b, k, i);
    }
    e
}

fn put_head(out: &mut [u8], at: usize, place: u32, priority: u64) -> usize
    ensures { (out.new, result) ≡ wrote (out.old, at) (head_text place priority) }
{
    let a = put_text(out, at, b"rule ");
    let b = put_four(out, a, place);
    let c = put_text(out, b, b" ");
    put_eight(out, c, priority)
}

fn put_total(out: &mut [u8], at: usize, total: u64) -> usize
    ensures { (out.new, result) ≡ wrote (out.old, at) (total_line total) }
{
    let a = put_text(out, at, b" total ");
    let b = put_decimal(out, a, total);
    put_text(out, b, b"\n")
}

// Rule i of the set's kept rules, over its n sites.
pub fn put_kept(out: &mut [u8], at: usize, m: &[u8], n: u16, words: &[u64], i: u32) -> usize
    ensures { let t = sites_in m.now n in
        (out.new, result) ≡ wrote (out.old, at) (kept_lines t (kept_in words.now i)) }
{
    let b = start(i);
    let a = put_head(out, at, place(words, b), ranked(rank(words, b)));
    let c = put_text(out, a, b" kept\n");
    let d = put_all_constrained(out, c, m, n, words, b, constrained(words, b));
    let e = put_classes(out, d, m, n, words, b, equals(words, b));
    put_total(out, e, overlap::total_constraints(words, i) as u64)
}

#[tactic(auto, unfolding(crate::specs::Listed::overlap_word, paper::specs::Text::text))]
fn overlap_word(out: &mut [u8], at: usize, o: Overlap) -> usize
    ensures { (out.new, result) ≡ wrote (out.old, at) (overlap_word o) }
{
    match o {
        Overlap::No => put_text(out, at, b" no\n"),
        Overlap::Yes => put_text(out, at, b" yes\n"),
        Overlap::Subset => put_text(out, at, b" subset\n"),
    }
}

// The kept rules i and j.
pub fn put_pair(out: &mut [u8], at: usize, words: &[u64], i: u32, j: u32) -> usize
    ensures { let ws = words.now in
        (out.new, result) ≡ wrote (out.old, at) (pair_line (kept_in ws i) (kept_in ws j)) }
{
    let a = put_text(out, at, b"pair ");
    let b = put_four(out, a, place(words, start(i)));
    let c = put_text(out, b, b" ");
    let d = put_four(out, c, place(words, start(j)));
    overlap_word(out, d, overlap::may_overlap(words, i, j))
}

pub fn put_set(out: &mut [u8], at: usize, term: u16, flags: u8) -> usize
    ensures { (out.new, result) ≡ wrote (out.old, at) (set_line term flags) }
{
    let a = put_text(out, at, b"set ");
    let b = put_two(out, a, term);
    let c = put_text(out, b, b" ");
    let d = put_hex(out, c, &[flags]);
    put_text(out, d, b"\n")
}

fn put_term(out: &mut [u8], at: usize, term: u16) -> usize
    ensures { (out.new, result) ≡ wrote (out.old, at) (terms_text (term ∷ [])) }
{
    let a = put_text(out, at, b" ");
    put_two(out, a, term)
}

fn put_terms(out: &mut [u8], at: usize, terms: &[u16]) -> usize
    ensures { (out.new, result) ≡ wrote (out.old, at) (terms_text terms.now) }
{
    let mut e = at;
    for term in terms {
        e = put_term(out, e, *term);
    }
    e
}

pub fn put_cyclic(out: &mut [u8], at: usize, terms: &[u16]) -> usize
    ensures { (out.new, result) ≡ wrote (out.old, at) (cyclic_line terms.now) }
{
    let a = put_text(out, at, b"cyclic");
    let b = put_terms(out, a, terms);
    put_text(out, b, b"\n")
}

fn put_one(out: &mut [u8], at: usize, n: u64) -> usize
    ensures { (out.new, result) ≡ wrote (out.old, at) (told_text (n ∷ [])) }
{
    let a = put_text(out, at, b" ");
    put_decimal(out, a, n)
}

fn put_both(out: &mut [u8], at: usize, n: u64, o: u64) -> usize
    ensures { (out.new, result) ≡ wrote (out.old, at) (told_text (n ∷ o ∷ [])) }
{
    let a = put_one(out, at, n);
    put_one(out, a, o)
}

// What is told with a refusal.
#[tactic(auto, unfolding(paper::specs::Numbers::told, crate::specs::Listed::told_text))]
fn put_told(out: &mut [u8], at: usize, r: Refusal) -> usize
    ensures { (out.new, result) ≡ wrote (out.old, at) (told_text (told r)) }
{
    match r {
        Refusal::Layout { line: n }
        | Refusal::Repeated { line: n }
        | Refusal::PlaceUsed { place: n } => put_one(out, at, u64::from(n)),
        Refusal::Unknown { site }
        | Refusal::Itself { site }
        | Refusal::Hanging { site }
        | Refusal::Endless { site } => put_one(out, at, u64::from(site)),
        Refusal::Unreachable { site, other } => put_both(
            out,
            at,
            u64::from(site),
            u64::from(other),
        ),
        Refusal::TooManySites { asked, at: i }
        | Refusal::TooManySources { asked, at: i }
        | Refusal::TooManyFields { asked, at: i } => put_both(
            out,
            at,
            u64::from(asked),
            u64::from(i),
        ),
        Refusal::TooManyRules { asked }
        | Refusal::TooManyItems { asked }
        | Refusal::TooManyConstrained { asked }
        | Refusal::TooManyEqual { asked }
        | Refusal::TooManySets { asked }
        | Refusal::TermTooHigh { asked }
        | Refusal::UnfoldingTooLong { asked } => put_one(out, at, u64::from(asked)),
    }
}

// A rule that was refused: its number and what is told with it.
pub fn put_refused(out: &mut [u8], at: usize, place: u32, priority: u64, r: Refusal) -> usize
    ensures { (out.new, result) ≡ wrote (out.old, at) (refused_line place priority r) }
{
    let a = put_head(out, at, place, priority);
    let b = put_text(out, a, b" refused ");
    let c = put_decimal(out, b, u64::from(sheet_findings::number_of(r)));
    let d = put_told(out, c, r);
    put_text(out, d, b"\n")
}
