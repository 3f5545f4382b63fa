// What later findings need of the sets that were ended: how many they are, their terms, which have rec, how many rules they kept; and, in a lent
// term table, the edges between terms.
#![tactic(auto)]

ghost use Rattle.std.specs.Prelude.{◌≡◌, Bool, ◌&&◌, ℕ, ◌+◌, ◌*◌, ◌≤◌, ◌<◌, length, take};
ghost use Rattle.term_table.specs.Table.{with_edges};
ghost use Rattle.sites.specs.Slots.{site_of, sites_in};
ghost use Rattle.sheet_findings.specs.Written.{written_at};
ghost use Rattle.sheet_ended.specs.Sets.{no_sets, verdict_as, may_begin, edge_from, edges_from, recs_with, with_set, to_or, terms_text, end_room, found_text, said_at, written_after};

use paper::{RULES, Refusal, SETS, TERMS};
use sheet_findings::{write_end, write_term};
use term_table::{WORDS, add, flag, has_term};

// The sets that were ended. It is the `Ended` of 01's definitions in few words.
#[derive(Clone, Copy)]
pub struct EndedSets {
    pub sets: u16,
    pub kept: u16,
    // A mark for each term that was used, and for each that has rec.
    pub used: [u64; WORDS],
    pub recs: [u64; WORDS],
}

// Room that is enough at the end of any sheet: a line of 7 bytes for each term, and the last.
pub const END_ROOM: usize = 7 * TERMS + 11;

// No set was ended.
pub fn no_sets() -> EndedSets
    ensures { result ≡ no_sets }
{
    EndedSets {
        sets: 0,
        kept: 0,
        used: [0; WORDS],
        recs: [0; WORDS],
    }
}

// "01 term, flags": 9 for a term used before, then 27, 28.
pub fn may_begin(e: EndedSets, term: u16, line: u32) -> Result<(), Refusal>
    ensures { result ≡ verdict_as (may_begin e term line) }
{
    if has_term(&e.used, term) {
        return Err(Refusal::Repeated { line });
    }
    if SETS <= usize::from(e.sets) {
        return Err(Refusal::TooManySets {
            asked: u32::from(e.sets) + 1,
        });
    }
    if TERMS <= usize::from(term) {
        return Err(Refusal::TermTooHigh {
            asked: u32::from(term),
        });
    }
    Ok(())
}

// The edge that a site of the term's set gives.
fn add_edge(t: &mut [[u64; WORDS]; TERMS], term: u16, b: &[u8])
    ensures { t.new ≡ with_edges t.old (edge_from term (site_of b.now)) }
{
    if let Some(to) = site_body::term(b) {
        // A term that is too high has no row, and gives no edge.
        let _ = add(t, term, to);
    }
}

// "An edge runs from a set's term to each term in its Extractor or Constructor sites": those of the first n sites of m.
pub fn add_edges(t: &mut [[u64; WORDS]; TERMS], term: u16, m: &[u8], n: u16)
    ensures { t.new ≡ with_edges t.old (edges_from term (sites_in m.now n)) }
{
    for i in 0..n {
        add_edge(t, term, sites::body(m, i));
    }
}

// The marks of the terms that have rec, with this one if its flags say so.
fn rec_marks(mut r: [u64; WORDS], term: u16, flags: u8) -> [u64; WORDS]
    ensures { result ≡ recs_with r term flags }
{
    if flags / 2 != 1 {
        return r;
    }
    // A term that is too high has no mark.
    let _ = flag(&mut r, term);
    r
}

// One set more, of this term with these flags and so many kept rules. What passes the numbers of a sheet is not counted.
pub fn with_set(e: EndedSets, term: u16, flags: u8, rules: u32) -> EndedSets
    ensures { result ≡ with_set e term flags rules }
{
    if SETS <= usize::from(e.sets) || RULES < rules as usize || SETS * RULES < usize::from(e.kept) {
        return e;
    }
    let mut used = e.used;
    let _ = flag(&mut used, term); // a term that is too high gets no mark
    EndedSets {
        sets: e.sets + 1,
        kept: e.kept + rules as u16,
        used,
        recs: rec_marks(e.recs, term, flags),
    }
}

// The end of what was written; where the room was short, the start.
pub fn to_or(w: Option<usize>, at: usize) -> usize
    ensures { result ≡ to_or w at }
{
    w.unwrap_or(at)
}

// "14 term", one after the other.
fn write_terms(terms: &[u16], room: &mut [u8], at: usize) -> usize
    requires { at + 7 * length terms.now ≤ length room.old }
    ensures { (result ≡ at + 7 * length terms.now) × (room.new ≡ written_at room.old at (terms_text terms.now)) }
{
    let mut end = at;
    for term in terms {
        end = write_term(*term, room, end).unwrap_or(end);
    }
    end
}

// "at the end the 14s ascending, then 15", from `at` on; less room than END_ROOM is left as it was.
pub fn write_found(
    t: &[[u64; WORDS]; TERMS],
    e: EndedSets,
    room: &mut [u8],
    at: usize,
) -> Option<usize>
    ensures value { result ≡ said_at room.old at (found_text t.now e) }
    ensures room_after { room.new ≡ written_after room.old at (found_text t.now e) }
{
    if room.len().saturating_sub(at) < END_ROOM {
        return None;
    }
    let list = term_table::findings(t, &e.recs);
    let end = write_terms(&list.terms[..usize::from(list.count)], room, at);
    write_end(e.sets, e.kept, room, end)
}
