// What a line of a sheet, and its end, are answered by `check`, `explain` and `kept`: bytes behind those that the room has. What a finding is in words, and
// what is kept, is said by `tell_english` and `tell_kept`; here is which of it is said, and when. proofs/InWords.antt has what `explain` comes to.
#![tactic(auto)]

ghost use Rattle.std.specs.Prelude.{◌≡◌, Bool, ◌+◌, ◌-◌, ◌<◌, max, length};
ghost use Rattle.paper.specs.Words.{four};
ghost use Rattle.tell_text.specs.Written.{wrote};
ghost use Rattle.tell_english.specs.Said.{said};
ghost use Rattle.rule_words.specs.Stored.{kept_in, kept_first, run};
ghost use Rattle.sheet_lines.specs.Cut.{part_of};
ghost use Rattle.run_answers.specs.Told.{asked_for, asker, byte_of, bytes_in, finding_in, in_words, why_of, told_bytes, why_said, said_by, pairs_with, pair_lines, set_of, event_text, answer, is_clean, is_stop, last_text, last_answer};

use paper::{Refusal, TERMS};
use sheet_findings::number_of;
use sheet_frames::digits::value_of;
use sheet_lines::{line_end, part};
use sheet_reader::{Event, OpenSet, Stands};
use tell_text::{put, put_text};
use term_table::WORDS;

#[derive(Clone, Copy)]
pub enum How {
    Check,
    Explain,
    Kept,
}

// ---- findings in words

// A finding as bytes: a mask names at most 63 others.
const FINDING: usize = 512;

// Two digits as a byte.
fn byte(a: u8, b: u8) -> u8
    ensures { result ≡ byte_of a b }
{
    value_of(a) % 16 * 16 + value_of(b) % 16
}

// The bytes of a line of digits: how many.
fn bytes_of(line: &[u8], bytes: &mut [u8]) -> usize
    ensures { (bytes.new, result) ≡ wrote (bytes.old, 0) (bytes_in line.now) }
{
    let mut k = 0;
    for n in 0..line.len() / 2 {
        k = put(bytes, k, byte(line[2 * n], line[2 * n + 1]));
    }
    k
}

// The bytes of a finding in words.
fn put_said(bytes: &[u8], clean: bool, out: &mut [u8], at: usize) -> usize
    ensures { (out.new, result) ≡ wrote (out.old, at) (said clean bytes.now) }
{
    let most = at.max(out.len());
    tell_english::explain(bytes, clean, out, at).unwrap_or(most)
}

// One finding in words.
fn put_explained(line: &[u8], clean: bool, out: &mut [u8], at: usize) -> usize
    ensures { (out.new, result) ≡ wrote (out.old, at) (said clean (finding_in line.now)) }
{
    let mut bytes = [0u8; FINDING];
    let k = bytes_of(line, &mut bytes);
    put_said(part(&bytes, 0, k), clean, out, at)
}

// The lines of digits in the room, each in words.
fn put_all_explained(room: &[u8], clean: bool, out: &mut [u8], at: usize) -> usize
    ensures { (out.new, result) ≡ wrote (out.old, at) (in_words clean room.now) }
{
    let mut n = at;
    let mut from = 0;
    while let Some(e) = line_end(room, from) {
        n = put_explained(part(room, from, e), clean, out, n);
        from = e + 1;
    }
    n
}

// ---- a limit that is passed, in words

// The numbers of the limits are the highest.
const FIRST_LIMIT: u8 = 20;

// The number that was asked for.
fn asked_of(r: Refusal) -> u32
    ensures { result ≡ asked_for r }
{
    match r {
        Refusal::TooManySites { asked, at: _ }
        | Refusal::TooManySources { asked, at: _ }
        | Refusal::TooManyFields { asked, at: _ }
        | Refusal::TooManyRules { asked }
        | Refusal::TooManyItems { asked }
        | Refusal::TooManyConstrained { asked }
        | Refusal::TooManyEqual { asked }
        | Refusal::TooManySets { asked }
        | Refusal::TermTooHigh { asked }
        | Refusal::UnfoldingTooLong { asked } => asked,
        _ => 0,
    }
}

// The item or the line that asked, where it is told.
fn asker_of(r: Refusal) -> u32
    ensures { result ≡ asker r }
{
    match r {
        Refusal::TooManySites { asked: _, at }
        | Refusal::TooManySources { asked: _, at }
        | Refusal::TooManyFields { asked: _, at } => at,
        _ => 0,
    }
}

// Four bytes, high byte first.
fn put_word(bytes: &mut [u8], at: usize, v: u32) -> usize
    ensures { (bytes.new, result) ≡ wrote (bytes.old, at) (four v) }
{
    let b = [
        (v / 256 / 256 / 256) as u8,
        (v / 256 / 256 % 256) as u8,
        (v / 256 % 256) as u8,
        (v % 256) as u8,
    ];
    put_text(bytes, at, &b)
}

// What is told with a limit, behind its finding.
#[tactic(auto, using(tell_text::specs::Written::follows), unfolding(crate::specs::Told::told_bytes, tell_text::specs::Written::wrote))]
fn put_told(bytes: &mut [u8], at: usize, why: Refusal) -> usize
    ensures { (bytes.new, result) ≡ wrote (bytes.old, at) (told_bytes why) }
{
    if number_of(why) < FIRST_LIMIT {
        return at;
    }
    let a = put_word(bytes, at, asked_of(why));
    put_word(bytes, a, asker_of(why))
}

// A finding with what is told, in words.
fn put_why(found: &[u8], why: Refusal, out: &mut [u8], at: usize) -> usize
    ensures { (out.new, result) ≡ wrote (out.old, at) (why_said why found.now) }
{
    let mut bytes = [0u8; FINDING];
    let k = bytes_of(found, &mut bytes);
    let e = put_told(&mut bytes, k, why);
    put_said(part(&bytes, 0, e), false, out, at)
}

// Why a rule was refused, or the sheet stopped.
fn why_of(e: Event) -> Result<(), Refusal>
    ensures { result ≡ why_of e }
{
    match e {
        Event::Refused {
            place: _,
            priority: _,
            why,
        }
        | Event::Stopped(why) => Err(why),
        _ => Ok(()),
    }
}

// What a line found, in words.
fn put_line_explained(e: Event, found: &[u8], out: &mut [u8], at: usize) -> usize
    ensures { (out.new, result) ≡ wrote (out.old, at) (said_by (why_of e) found.now) }
{
    match why_of(e) {
        Err(why) => put_why(found, why, out, at),
        Ok(()) => put_all_explained(found, false, out, at),
    }
}

// ---- what is kept, in words

// The open set; nothing in it where there is none.
fn open_set(s: Stands) -> OpenSet
    ensures { result ≡ set_of s }
{
    match s {
        Stands::Outside => OpenSet {
            term: 0,
            flags: 0,
            sites: 0,
            rules: 0,
        },
        Stands::Sites(set) => set,
        Stands::Rules(set) => set,
        Stands::Items {
            set,
            rule: _,
            left: _,
        } => set,
    }
}

// The pairs of rule i with the later ones.
fn put_pairs_of(words: &[u64], i: u32, rules: u32, out: &mut [u8], at: usize) -> usize
    requires { i < rules }
    ensures { let kept = kept_in words.now in
        (out.new, result) ≡ wrote (out.old, at) (pairs_with (kept i) (run kept (i + 1) (rules - (i + 1)))) }
{
    let mut n = at;
    for j in i + 1..rules {
        n = tell_kept::put_pair(out, n, words, i, j);
    }
    n
}

fn put_pairs(words: &[u64], rules: u32, out: &mut [u8], at: usize) -> usize
    ensures { (out.new, result) ≡ wrote (out.old, at) (pair_lines (kept_first words.now rules)) }
{
    let mut n = at;
    for i in 0..rules {
        n = put_pairs_of(words, i, rules, out, n);
    }
    n
}

// What a line was, for `kept`: where the reader stood before it and after it, and the findings that it gave.
#[tactic(auto, using(tell_text::specs::Written::follows), unfolding(crate::specs::Told::event_text, tell_text::specs::Written::wrote))]
fn put_event(
    e: Event,
    stood: Stands,
    stands: Stands,
    m: &[u8],
    words: &[u64],
    found: &[u8],
    out: &mut [u8],
    at: usize,
) -> usize
    ensures { let text = event_text e (set_of stood) (set_of stands) m.now words.now found.now in
        (out.new, result) ≡ wrote (out.old, at) text }
{
    let before = open_set(stood);
    let after = open_set(stands);
    match e {
        Event::Begun => tell_kept::put_set(out, at, after.term, after.flags),
        Event::Site | Event::Item | Event::NoRoom => at,
        Event::Kept {
            place: _,
            priority: _,
        } => tell_kept::put_kept(out, at, m, after.sites, words, before.rules),
        Event::Refused {
            place,
            priority,
            why,
        } => tell_kept::put_refused(out, at, place, priority, why),
        Event::Ended => {
            let n = put_pairs(words, before.rules, out, at);
            put_text(out, n, found)
        }
        Event::Stopped(_) => put_text(out, at, found),
    }
}

// What a line is answered.
#[tactic(auto, unfolding(crate::specs::Told::answer))]
pub fn put_step(
    how: How,
    e: Event,
    stood: Stands,
    stands: Stands,
    m: &[u8],
    words: &[u64],
    found: &[u8],
    out: &mut [u8],
    at: usize,
) -> usize
    ensures { let text = answer how e stood stands m.now words.now found.now in
        (out.new, result) ≡ wrote (out.old, at) text }
{
    match how {
        How::Check => put_text(out, at, found),
        How::Explain => put_line_explained(e, found, out, at),
        How::Kept => put_event(e, stood, stands, m, words, found, out, at),
    }
}

// ---- what the end of a sheet answers

// A 15 frame, as a line.
const LAST: usize = 11;

// Whether a sheet had no finding: none before its end, and there the 15 alone.
fn is_clean(before: bool, found: &[u8]) -> bool
    ensures { result ≡ is_clean before found.now }
{
    !before && found.len() <= LAST
}

// For `kept` a sheet that was read to its end closes with all its cyclic terms, and one that stopped with its last finding.
#[tactic(auto, unfolding(crate::specs::Told::last_text))]
fn put_last(table: &[[u64; WORDS]; TERMS], found: &[u8], out: &mut [u8], at: usize) -> usize
    ensures { (out.new, result) ≡ wrote (out.old, at) (last_text table.now found.now) }
{
    if is_stop(found) {
        return put_text(out, at, found);
    }
    let l = term_table::cyclic_terms(*table);
    tell_kept::put_cyclic(out, at, terms_of(&l.terms, l.count))
}

// Whether the findings are the line that says that the sheet stopped.
fn is_stop(found: &[u8]) -> bool
    ensures { result ≡ is_stop found.now }
{
    found.starts_with(b"1F")
}

// The first n of the terms; none where they are fewer.
#[tactic(auto, unfolding(sheet_lines::specs::Cut::part_of))]
fn terms_of(terms: &[u16], n: u16) -> &[u16]
    ensures { result.now ≡ part_of terms.now 0 n }
{
    terms.get(..usize::from(n)).unwrap_or(&[])
}

// What the end of a sheet is answered, where `before` says whether it had a finding.
#[tactic(auto, unfolding(crate::specs::Told::last_answer))]
pub fn put_end(
    how: How,
    before: bool,
    table: &[[u64; WORDS]; TERMS],
    found: &[u8],
    out: &mut [u8],
    at: usize,
) -> usize
    ensures { (out.new, result) ≡ wrote (out.old, at) (last_answer how before table.now found.now) }
{
    match how {
        How::Check => put_text(out, at, found),
        How::Explain => put_all_explained(found, is_clean(before, found), out, at),
        How::Kept => put_last(table, found, out, at),
    }
}
