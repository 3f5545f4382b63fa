// Findings as lines of upper-case hexadecimal, in lent memory.
#![tactic(auto)]

ghost use Rattle.std.specs.Prelude.{◌≡◌};
ghost use Rattle.paper.specs.Numbers.{number};
ghost use Rattle.paper.specs.Layout.{hex};
ghost use Rattle.paper.specs.Sheets.{refusal_found, term_found, stop_found};
ghost use Rattle.sheet_findings.specs.Written.{room_said, room_after, five_found, ended_found};

use paper::Refusal;
use sheet_digits::write_bytes;

const LINE_FEED: u8 = 10;

// The first byte of a finding says its kind. Bytes and no enum: the lines' layout fixes them (`refusal_found`, `term_found`, `end_found`, `stop_found`).
const REFUSED: u8 = 17;

const TERM: u8 = 20;

const ENDED: u8 = 21;

const STOPPED: u8 = 31;

// The bytes of a finding as a line, from `at` on: where it ends. None where the room is too short, which stays as it was then; so of all that follow.
pub fn write_line(b: &[u8], out: &mut [u8], at: usize) -> Option<usize>
    ensures { let line = hex b.now in
        (result ≡ room_said out.old at line) × (out.new ≡ room_after out.old at line) }
{
    let digits = 2 * b.len();
    if out.len().saturating_sub(at) <= digits {
        return None;
    }
    write_bytes(out, at, b);
    let end = at + digits;
    out[end] = LINE_FEED;
    Some(end + 1)
}

// The number of a refusal, as a line gives it.
#[tactic(auto, unfolding(paper::specs::Numbers::number))]
pub fn number_of(r: Refusal) -> u8
    ensures { result ≡ number r }
{
    match r {
        Refusal::Layout { .. } => 1,
        Refusal::Unknown { .. } => 2,
        Refusal::Itself { .. } => 3,
        Refusal::Unreachable { .. } => 4,
        Refusal::Hanging { .. } => 5,
        Refusal::Endless { .. } => 6,
        Refusal::TooManySites { .. } => 20,
        Refusal::TooManySources { .. } => 21,
        Refusal::TooManyFields { .. } => 22,
        Refusal::TooManyRules { .. } => 23,
        Refusal::TooManyItems { .. } => 24,
        Refusal::TooManyConstrained { .. } => 25,
        Refusal::TooManyEqual { .. } => 26,
        Refusal::TooManySets { .. } => 27,
        Refusal::TermTooHigh { .. } => 28,
        Refusal::UnfoldingTooLong { .. } => 29,
        Refusal::PlaceUsed { .. } => 8,
        Refusal::Repeated { .. } => 9,
    }
}

// A kind of finding, four bytes and a number.
fn write_five(kind: u8, n: u32, number: u8, out: &mut [u8], at: usize) -> Option<usize>
    ensures { let line = hex (five_found kind n number) in
        (result ≡ room_said out.old at line) × (out.new ≡ room_after out.old at line) }
{
    let [a, b, c, d] = n.to_be_bytes();
    write_line(&[kind, a, b, c, d, number], out, at)
}

// "11 place, number (1)"
pub fn write_refusal(place: u32, r: Refusal, out: &mut [u8], at: usize) -> Option<usize>
    ensures { let line = hex (refusal_found place r) in
        (result ≡ room_said out.old at line) × (out.new ≡ room_after out.old at line) }
{
    write_five(REFUSED, place, number_of(r), out, at)
}

// "14 term"
pub fn write_term(t: u16, out: &mut [u8], at: usize) -> Option<usize>
    ensures { let line = hex (term_found t) in
        (result ≡ room_said out.old at line) × (out.new ≡ room_after out.old at line) }
{
    let [high, low] = t.to_be_bytes();
    write_line(&[TERM, high, low], out, at)
}

// "15 sets (2), kept rules (2)"
pub fn write_end(sets: u16, kept: u16, out: &mut [u8], at: usize) -> Option<usize>
    ensures { let line = hex (ended_found sets kept) in
        (result ≡ room_said out.old at line) × (out.new ≡ room_after out.old at line) }
{
    let [a, b] = sets.to_be_bytes();
    let [c, d] = kept.to_be_bytes();
    write_line(&[ENDED, a, b, c, d], out, at)
}

// "a last frame 1F line (4, from 1), number"
pub fn write_stop(line: u32, r: Refusal, out: &mut [u8], at: usize) -> Option<usize>
    ensures { let line = hex (stop_found line r) in
        (result ≡ room_said out.old at line) × (out.new ≡ room_after out.old at line) }
{
    write_five(STOPPED, line, number_of(r), out, at)
}
