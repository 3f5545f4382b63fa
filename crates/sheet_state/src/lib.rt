// Where the reading of a sheet stands, as words and bytes of lent memory: between two pieces of a sheet nothing else is kept of it.
// The words cross C, which lends them and may put anything there: where the reader stands is a number in one of them, and functions read and put, no `From`.
#![tactic(auto)]

ghost use Rattle.std.specs.Prelude.{◌≡◌, Bool, true, ◌++◌, ℕ, ◌%◌, ◌≤◌, length, get_or, take, drop, if◌then◌else◌};
ghost use Rattle.std.proofs.lemmas.List.Edits.{sets};
ghost use Rattle.sheet_lines.specs.Fed.{max_held};
ghost use Rattle.sheet_state.specs.State.{state_words, keeps, set_in, rule_in, stands_in, row_in, ended_in, reader_in, stopped_in, bytes_in, state_in, set_words, rule_words, both_words, stands_words, ended_words, reader_words, state_put, held_put};

use rule_words::word;
use sheet_ended::EndedSets;
use sheet_lines::{HELD, Held};
use sheet_read::State;
use sheet_reader::{Awaited, OpenSet, Reader, Stands};
use term_table::WORDS;

// Words that the state takes: the line; where the reader stands, the open set, the awaited rule and the items left; the sets that were ended; how many
// bytes of a line are held; whether the sheet stopped.
pub const STATE: usize = 22;

// The word that is 0 until the sheet stopped.
pub const STOPPED: usize = 21;

// A word cut to its width: three functions, since a cast may lose nothing, and a generic one would take a trait for three lines.
fn two_bytes(x: u64) -> u16
    ensures { result ≡ x % 65536 }
{
    (x % 65536) as u16
}

fn one_byte(x: u64) -> u8
    ensures { result ≡ x % 256 }
{
    (x % 256) as u8
}

fn four_bytes(x: u64) -> u32
    ensures { result ≡ x % 4294967296 }
{
    (x % 4294967296) as u32
}

#[tactic(auto, unfolding(crate::specs::State::set_in))]
fn set_in(state: &[u64]) -> OpenSet
    ensures { result ≡ set_in state.now }
{
    OpenSet {
        term: two_bytes(word(state, 2)),
        flags: one_byte(word(state, 3)),
        sites: two_bytes(word(state, 4)),
        rules: four_bytes(word(state, 5)),
    }
}

#[tactic(auto, unfolding(crate::specs::State::rule_in))]
fn rule_in(state: &[u64]) -> Awaited
    ensures { result ≡ rule_in state.now }
{
    Awaited {
        place: four_bytes(word(state, 6)),
        priority: word(state, 7),
        count: one_byte(word(state, 8)),
    }
}

#[tactic(auto, unfolding(crate::specs::State::stands_in))]
fn stands_in(state: &[u64]) -> Stands
    ensures { result ≡ stands_in state.now }
{
    match word(state, 1) {
        1 => Stands::Sites(set_in(state)),
        2 => Stands::Rules(set_in(state)),
        3 => Stands::Items {
            set: set_in(state),
            rule: rule_in(state),
            left: one_byte(word(state, 9)),
        },
        _ => Stands::Outside,
    }
}

#[tactic(auto, unfolding(crate::specs::State::row_in))]
fn row_in(state: &[u64], at: usize) -> [u64; WORDS]
    requires { at ≤ 16 }
    ensures { result ≡ row_in state.now at }
{
    [
        word(state, at),
        word(state, at + 1),
        word(state, at + 2),
        word(state, at + 3),
    ]
}

#[tactic(auto, unfolding(crate::specs::State::ended_in))]
fn ended_in(state: &[u64]) -> EndedSets
    ensures { result ≡ ended_in state.now }
{
    EndedSets {
        sets: two_bytes(word(state, 10)),
        kept: two_bytes(word(state, 11)),
        used: row_in(state, 12),
        recs: row_in(state, 16),
    }
}

// The reader that the words say; each number is cut to its width, which changes nothing where a reader was put there.
#[tactic(auto, unfolding(crate::specs::State::reader_in))]
fn reader_in(state: &[u64]) -> Reader
    ensures { result ≡ reader_in state.now }
{
    Reader {
        line: four_bytes(word(state, 0)),
        stands: stands_in(state),
        ended: ended_in(state),
    }
}

// The first bytes of what is lent for the held line; zeros where they are too few.
#[tactic(auto, unfolding(crate::specs::State::bytes_in))]
fn bytes_in(held: &[u8]) -> [u8; HELD]
    ensures { result ≡ bytes_in held.now }
{
    let mut bytes = [0; HELD];
    if HELD <= held.len() {
        bytes.copy_from_slice(&held[..HELD]);
    }
    bytes
}

#[tactic(auto, unfolding(crate::specs::State::stopped_in))]
fn stopped_in(state: &[u64]) -> bool
    ensures { result ≡ stopped_in state.now }
{
    word(state, STOPPED) != 0
}

// The state that the words and bytes say, whatever they are.
#[tactic(auto, unfolding(crate::specs::State::state_in))]
pub fn state_in(state: &[u64], held: &[u8]) -> State
    ensures { result ≡ state_in state.now held.now }
{
    State {
        reader: reader_in(state),
        held: Held {
            length: word(state, 20) as usize,
            bytes: bytes_in(held),
        },
        stopped: stopped_in(state),
    }
}

// The words 1 to 5: where the reader stands, and the open set.
#[tactic(auto, unfolding(crate::specs::State::set_words))]
fn put_set(state: &mut [u64], k: u64, g: OpenSet)
    requires { state_words ≤ length state.old }
    ensures { state.new ≡ sets state.old 1 (set_words k g) }
{
    state[1] = k;
    state[2] = u64::from(g.term);
    state[3] = u64::from(g.flags);
    state[4] = u64::from(g.sites);
    state[5] = u64::from(g.rules);
}

// The words 6 to 9: the awaited rule, and the items left.
#[tactic(auto, unfolding(crate::specs::State::rule_words))]
fn put_rule(state: &mut [u64], a: Awaited, left: u8)
    requires { state_words ≤ length state.old }
    ensures { state.new ≡ sets state.old 6 (rule_words a left) }
{
    state[6] = u64::from(a.place);
    state[7] = a.priority;
    state[8] = u64::from(a.count);
    state[9] = u64::from(left);
}

const NO_SET: OpenSet = OpenSet {
    term: 0,
    flags: 0,
    sites: 0,
    rules: 0,
};

const NO_RULE: Awaited = Awaited {
    place: 0,
    priority: 0,
    count: 0,
};

#[tactic(auto, unfolding(crate::specs::State::both_words, crate::specs::State::set_words, crate::specs::State::rule_words))]
fn put_both(state: &mut [u64], k: u64, g: OpenSet, a: Awaited, left: u8)
    requires { state_words ≤ length state.old }
    ensures { state.new ≡ sets state.old 1 (both_words k g a left) }
{
    put_set(state, k, g);
    put_rule(state, a, left);
}

#[tactic(auto, unfolding(crate::specs::State::stands_words))]
fn put_stands(state: &mut [u64], s: Stands)
    requires { state_words ≤ length state.old }
    ensures { state.new ≡ sets state.old 1 (stands_words s) }
{
    match s {
        Stands::Outside => put_both(state, 0, NO_SET, NO_RULE, 0),
        Stands::Sites(g) => put_both(state, 1, g, NO_RULE, 0),
        Stands::Rules(g) => put_both(state, 2, g, NO_RULE, 0),
        Stands::Items { set, rule, left } => put_both(state, 3, set, rule, left),
    }
}

// The words 10 to 19: the sets that were ended.
#[tactic(auto, unfolding(crate::specs::State::ended_words))]
fn put_ended(state: &mut [u64], e: EndedSets)
    requires { state_words ≤ length state.old }
    ensures { state.new ≡ sets state.old 10 (ended_words e) }
{
    state[10] = u64::from(e.sets);
    state[11] = u64::from(e.kept);
    // Word by word, for the C interface: rows that are copied as slices lie on the stack, of which the header allows `lintel_sheet_begin` 512 bytes.
    let used = e.used;
    let recs = e.recs;
    state[12] = used[0];
    state[13] = used[1];
    state[14] = used[2];
    state[15] = used[3];
    state[16] = recs[0];
    state[17] = recs[1];
    state[18] = recs[2];
    state[19] = recs[3];
}

// The reader into its words.
fn put_reader(state: &mut [u64], r: Reader)
    requires { state_words ≤ length state.old }
    ensures { state.new ≡ sets state.old 0 (reader_words r) }
{
    state[0] = u64::from(r.line);
    put_stands(state, r.stands);
    put_ended(state, r.ended);
}

// The words 0 to 21.
fn put_words(state: &mut [u64], s: State)
    requires { state_words ≤ length state.old }
    ensures { state.new ≡ state_put state.old s }
{
    put_reader(state, s.reader);
    state[20] = s.held.length as u64;
    state[STOPPED] = u64::from(s.stopped);
}

// Copies the held line to the start of its bytes.
fn put_bytes(held: &mut [u8], bytes: &[u8; HELD])
    requires { max_held ≤ length held.old }
    ensures { held.new ≡ bytes.now ++ drop max_held held.old }
{
    held[..HELD].copy_from_slice(bytes);
}

fn put_in(state: &mut [u64], held: &mut [u8], s: State)
    requires { (state_words ≤ length state.old) × (max_held ≤ length held.old) }
    ensures state_after { state.new ≡ state_put state.old s }
    ensures held_after { held.new ≡ held_put held.old s }
    ensures held_after_2 { state_in state.new held.new ≡ s }
{
    put_words(state, s);
    let bytes = s.held.bytes; // by a name of its own, for the same stack
    put_bytes(held, &bytes);
}

// Whether what is lent is long enough for a state.
#[tactic(auto, unfolding(crate::specs::State::keeps))]
pub fn keeps(state: &[u64], held: &[u8]) -> bool
    ensures { result ≡ keeps state.now held.now }
{
    STATE <= state.len() && HELD <= held.len()
}

// The state into its words and bytes, which then say it. Where they are too few, nothing is changed.
#[tactic(auto, using(crate::proofs::Reading::keeps_long))]
pub fn put_state(state: &mut [u64], held: &mut [u8], s: State)
    ensures state_after { state.new ≡ (if keeps state.old held.old then state_put state.old s else state.old) }
    ensures held_after { held.new ≡ (if keeps state.old held.old then held_put held.old s else held.old) }
    ensures held_after_2 { keeps state.old held.old ≡ true → state_in state.new held.new ≡ s }
{
    if keeps(state, held) {
        put_in(state, held, s);
    }
}
