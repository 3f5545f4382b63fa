// A proposal's text (change request [11]), read back. A line is taken for its numbers, written anew, and compared: what differs is not as laid out.
#![tactic(auto)]

ghost use Rattle.std.specs.Prelude.{◌≡◌, false, [], ◌∷◌, ◌++◌, map, ◌+◌, ◌<◌, ◌≤◌, length, get_or, set};
ghost use Rattle.std.proofs.lemmas.List.Edits.{sets};
ghost use Rattle.paper.specs.Words.{same_list};
ghost use Rattle.paper.specs.Text.{unended};
ghost use Rattle.paper.specs.Layout.{lines};
ghost use Rattle.tell_plan.specs.PlanText.{rule_line, two_places};
ghost use Rattle.plan_text.specs.Lines.{set_line, digit_at, term_at, place_at, priority_at, line_of};
ghost use Rattle.plan_text.specs.Proposal.{spoken, first_bad, Row};
ghost use Rattle.plan_text.specs.Walk.{misplaced_by, marks_with, bad_by, laid, row_of, inside_after, rows_of, Begins};

use sheet_lines::{line_end, part};
use tell_text::{put_eight, put_four, put_text, put_two};

// What a line says. `Bad` is one of its four answers, and no Option round the others: the theorem on what a line says (`says_exactly`) names all four.
#[derive(Clone, Copy)]
pub enum Spoken {
    Set { term: u16 },
    Rule { place: u32, priority: u64 },
    None,
    Bad,
}

// Room for the longest line, that of a rule: 31 characters.
const ROOM: usize = 32;

// Where a line's numbers begin: behind "set "; behind "rule " or "none "; behind that, a place and a space.
const TERM_FROM: usize = 4;

const FIRST_FROM: usize = 5;

const SECOND_FROM: usize = 14;

// As many as 4 digits can say.
const TERMS: usize = 65536;

// ---- the numbers of a line

// The value of a digit; of any other byte 0.
fn value(b: u8) -> u16
    ensures { (result ≡ digit_at (b ∷ []) 0) × (result < 16) }
{
    match b {
        b'0'..=b'9' => u16::from(b - 48),
        b'A'..=b'F' => u16::from(b - 55),
        _ => 0,
    }
}

fn digit(text: &[u8], i: usize) -> u16
    ensures { (result ≡ digit_at text.now i) × (result < 16) }
{
    value(text.get(i).copied().unwrap_or(0))
}

fn term(text: &[u8], i: usize) -> u16
    requires { i < 64 }
    ensures { result ≡ term_at text.now i }
{
    let a = digit(text, i);
    let b = digit(text, i + 1);
    let c = digit(text, i + 2);
    let d = digit(text, i + 3);
    a * 4096 + b * 256 + c * 16 + d
}

fn place(text: &[u8], i: usize) -> u32
    requires { i < 60 }
    ensures { result ≡ place_at text.now i }
{
    let high = term(text, i);
    let low = term(text, i + 4);
    u32::from(high) * 65536 + u32::from(low)
}

fn priority(text: &[u8], i: usize) -> u64
    requires { i < 52 }
    ensures { result ≡ priority_at text.now i }
{
    let high = place(text, i);
    let low = place(text, i + 8);
    u64::from(high) * 4294967296 + u64::from(low)
}

// ---- the line anew

fn is_set(text: &[u8], term: u16) -> bool
    ensures { result ≡ same_list text.now (set_line term) }
{
    let mut room = [0u8; ROOM];
    let a = put_text(&mut room, 0, b"set ");
    let b = put_two(&mut room, a, term);
    let e = put_text(&mut room, b, b"\n");
    text == &room[..e]
}

fn is_rule(text: &[u8], place: u32, priority: u64) -> bool
    ensures { result ≡ same_list text.now (rule_line place priority) }
{
    let mut room = [0u8; ROOM];
    let a = put_text(&mut room, 0, b"rule ");
    let b = put_four(&mut room, a, place);
    let c = put_text(&mut room, b, b" ");
    let d = put_eight(&mut room, c, priority);
    let e = put_text(&mut room, d, b"\n");
    text == &room[..e]
}

// Two places, and why no proposal mends their rules: " mask" or " same", with the LF.
fn is_none(text: &[u8], one: u32, other: u32, why: &[u8]) -> bool
    requires { length why.now ≤ 8 }
    ensures { result ≡ same_list text.now (unended "none " ++ (two_places one other ++ why.now)) }
{
    let mut room = [0u8; ROOM];
    let a = put_text(&mut room, 0, b"none ");
    let b = put_four(&mut room, a, one);
    let c = put_text(&mut room, b, b" ");
    let d = put_four(&mut room, c, other);
    let e = put_text(&mut room, d, why);
    text == &room[..e]
}

// What a line says, its LF with it.
pub fn line_of(text: &[u8]) -> Spoken
    ensures { result ≡ line_of text.now }
{
    let one = place(text, FIRST_FROM);
    let number = priority(text, SECOND_FROM);
    if is_rule(text, one, number) {
        return Spoken::Rule {
            place: one,
            priority: number,
        };
    }
    let set = term(text, TERM_FROM);
    if is_set(text, set) {
        return Spoken::Set { term: set };
    }
    let other = place(text, SECOND_FROM);
    if is_none(text, one, other, b" mask\n") {
        return Spoken::None;
    }
    if is_none(text, one, other, b" same\n") {
        return Spoken::None;
    }
    Spoken::Bad
}

// ---- a proposal's text

// A line, and where the next one begins: always both.
#[derive(Clone, Copy)]
struct Line {
    to: usize,
    said: Spoken,
}

// The line that begins at `from`. One that is not ended is bad.
fn line_from(text: &[u8], from: usize) -> Line
    requires { from < length text.now }
    ensures { Begins text.now from result.to result.said }
{
    match line_end(text, from) {
        Some(end) => Line {
            to: end + 1,
            said: line_of(part(text, from, end + 1)),
        },
        None => Line {
            to: text.len(),
            said: Spoken::Bad,
        },
    }
}

fn is_marked(marks: &[bool], term: u16) -> bool
    ensures { result ≡ get_or marks.now term false }
{
    marks.get(usize::from(term)).copied().unwrap_or(false)
}

// Stores v at k; past the end there is nothing to store it in.
fn store<T: Copy>(xs: &mut [T], k: usize, v: T)
    ensures { xs.new ≡ set xs.old k v }
{
    if k < xs.len() {
        xs[k] = v;
    }
}

fn mark(marks: &mut [bool], said: Spoken)
    ensures { marks.new ≡ marks_with marks.old said }
{
    if let Spoken::Set { term } = said {
        store(marks, usize::from(term), true);
    }
}

// "not as laid out (also: no LF; a rule or none line before any set; a set named twice)"
fn is_misplaced(marks: &[bool], any: bool, said: Spoken) -> bool
    ensures { result ≡ misplaced_by marks.now any said }
{
    match said {
        Spoken::Set { term } => is_marked(marks, term),
        Spoken::Rule { .. } | Spoken::None => !any,
        Spoken::Bad => true,
    }
}

// The first line that is not as laid out, counted from 1. Behind the first line that is well a set was named. The walk goes on where a line ended.
fn scan(text: &[u8], marks: &mut [bool]) -> Option<u64>
    ensures { result ≡ laid (bad_by marks.old false 1 (spoken (lines text.now))) }
{
    let mut from: usize = 0;
    let mut line: u64 = 1;
    let mut any = false;
    while from < text.len() {
        let Line { to, said } = line_from(text, from);
        if is_misplaced(marks, any, said) {
            return Some(line);
        }
        mark(marks, said);
        any = true;
        from = to;
        line += 1;
    }
    None
}

// "bad LINE: alone, before all else"
pub fn first_bad(text: &[u8]) -> Option<u64>
    ensures { result ≡ laid (first_bad text.now) }
{
    scan(text, &mut [false; TERMS])
}

// ---- the rule lines of one set

// A line of the wanted set: if it is a rule's, its place, priority and number go to n of what is lent. Answers where the next goes.
fn keep_row(
    places: &mut [u64],
    priorities: &mut [u64],
    numbers: &mut [u64],
    n: usize,
    line: u64,
    inside: bool,
    said: Spoken,
) -> usize
    requires { n < 18446744073709551615 }
    ensures { let rows = row_of inside line said in
        (result ≡ n + length rows) ×
        ((places.new ≡ sets places.old n (map (λ (x : Row). x.place) rows)) ×
        ((priorities.new ≡ sets priorities.old n (map (λ (x : Row). x.priority) rows)) ×
        (numbers.new ≡ sets numbers.old n (map (λ (x : Row). x.line) rows)))) }
{
    match said {
        Spoken::Rule { place, priority } if inside => {
            store(places, n, u64::from(place));
            store(priorities, n, priority);
            store(numbers, n, line);
            n + 1
        }
        _ => n,
    }
}

// Whether the lines that follow are the wanted set's.
fn is_inside(wanted: u16, inside: bool, said: Spoken) -> bool
    ensures { result ≡ inside_after wanted inside said }
{
    match said {
        Spoken::Set { term } => term == wanted,
        Spoken::Rule { .. } | Spoken::None | Spoken::Bad => inside,
    }
}

// The rule lines of one set, walked as in `scan`: how many there are, and of as many as there is room for the places, the priorities and the lines' numbers.
pub fn read_rows(
    text: &[u8],
    wanted: u16,
    places: &mut [u64],
    priorities: &mut [u64],
    numbers: &mut [u64],
) -> usize
    ensures { let rows = rows_of text.now wanted in
        (result ≡ length rows) ×
        ((places.new ≡ sets places.old 0 (map (λ (x : Row). x.place) rows)) ×
        ((priorities.new ≡ sets priorities.old 0 (map (λ (x : Row). x.priority) rows)) ×
        (numbers.new ≡ sets numbers.old 0 (map (λ (x : Row). x.line) rows)))) }
{
    let mut from: usize = 0;
    let mut line: u64 = 1;
    let mut inside = false;
    let mut n: usize = 0;
    while from < text.len() {
        let Line { to, said } = line_from(text, from);
        n = keep_row(places, priorities, numbers, n, line, inside, said);
        inside = is_inside(wanted, inside, said);
        from = to;
        line += 1;
    }
    n
}
