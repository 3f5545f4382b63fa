// A sheet that comes in pieces of any size, read in constant memory: begin, feed, end. And a sheet that is there whole.
#![tactic(auto)]

ghost use Rattle.std.specs.Prelude.{◌≡◌, Bool, true, false, List, [], ◌⊎◌, ℕ, ◌+◌, ◌-◌, ◌≤◌, ◌<◌, length, take, drop};
ghost use Rattle.sheet_reader.specs.State.{lent, step_room};
ghost use Rattle.sheet_ended.specs.Sets.{end_room};
ghost use Rattle.term_table.specs.Table.{no_edges};
ghost use Rattle.sheet_lines.specs.Fed.{Reading};
ghost use Rattle.sheet_read.specs.Whole.{first_state, Feeds, Ends, Pauses, Checks, is_stopped};
ghost use Rattle.sheet_read.specs.Leaves.{leaves, feed_line_in, feed_in, said, end_in, check_in};

use item_words::ITEMS_ROOM;
use paper::{RULES, Refusal, SITES, TERMS};
use rule_words::STRIDE;
use sheet_ended::{END_ROOM, no_sets, write_found};
use sheet_findings::write_stop;
use sheet_lines::{Held, cut_line, line_of, nothing, part};
use sheet_reader::{Event, Reader, STEP_ROOM, Stands, outside};
use sheet_step::step;
use sites::SLOT;
use term_table::{WORDS, empty};

// What is lent: bytes for the sites of a set, words for its kept rules.
pub const SITES_ROOM: usize = SITES * SLOT;

pub const KEPT_ROOM: usize = RULES * STRIDE;

// Where the reading stands: the reader, what is held of a line that goes on in the next piece, and whether the sheet stopped.
#[derive(Clone, Copy)]
pub struct State {
    pub reader: Reader,
    pub held: Held,
    // Beside the reader, no `Option` around it: sheet_state puts both into words that C keeps, and `Going` speaks of each.
    pub stopped: bool,
}

// The state after a part of a piece: where the part ends, and the end of what was written.
#[derive(Clone, Copy)]
pub struct Fed {
    pub state: State,
    pub read: usize,
    pub to: usize,
}

// Before the first piece. The term table is cleared.
#[tactic(auto, unfolding(crate::specs::Whole::first_state))]
pub fn begin(table: &mut [[u64; WORDS]; TERMS]) -> State
    ensures { (result ≡ first_state) × (table.new ≡ no_edges) }
{
    *table = empty();
    State {
        reader: Reader {
            line: 1,
            stands: Stands::Outside,
            ended: no_sets(),
        },
        held: nothing(),
        stopped: false,
    }
}

fn stops(e: Event) -> bool
    ensures { result ≡ is_stopped e }
{
    matches!(e, Event::Stopped(_))
}

// The piece from `from` on, up to the end of the line, or to its own.
#[tactic(auto, unfolding(crate::specs::Leaves::feed_line_in))]
fn feed_line(
    s: State,
    piece: &[u8],
    from: usize,
    m: &mut [u8],
    words: &mut [u64],
    items: &mut [u64],
    table: &mut [[u64; WORDS]; TERMS],
    room: &mut [u8],
    at: usize,
) -> Fed
    requires { (from < length piece.now) × (at + step_room ≤ length room.old) × (s.stopped ≡ false) }
    ensures room_after { let before = lent m.old words.old items.old table.old in
        let after = lent m.new words.new items.new table.new in
        leaves result after room.new ≡ feed_line_in s before room.old at piece.now from }
    ensures from_lt_read { (from < result.read) × (result.read ≤ length piece.now) }
    ensures fact { let before = lent m.old words.old items.old table.old in
        let after = lent m.new words.new items.new table.new in
        let read = take (result.read - from) (drop from piece.now) in
        Feeds s before after room.old room.new at read result.state result.to }
{
    let c = cut_line(s.held, piece, from);
    let line = c.held;
    if c.unended {
        return Fed {
            state: State {
                reader: s.reader,
                held: line,
                stopped: false,
            },
            read: piece.len(),
            to: at,
        };
    }
    let here = part(piece, from, c.to);
    let text = line_of(part(&line.bytes, 0, line.length), here);
    let a = step(s.reader, text, m, words, items, table, room, at);
    Fed {
        state: State {
            reader: a.reader,
            held: nothing(),
            stopped: stops(a.event),
        },
        read: c.to + 1,
        to: a.to,
    }
}

// Whether the sheet stopped, or the room left is too short for a line.
fn pauses(stopped: bool, room: usize, at: usize) -> bool
    ensures { (result ≡ false → (stopped ≡ false) × (at + step_room ≤ room))
        × (result ≡ true → (stopped ≡ true) ⊎ (room < at + step_room)) }
{
    stopped || room.saturating_sub(at) < STEP_ROOM
}

// A piece of the sheet, from its start up to where the room may be too short for a further line; what it finds is written from `at` on.
pub fn feed(
    s: State,
    piece: &[u8],
    m: &mut [u8],
    words: &mut [u64],
    items: &mut [u64],
    table: &mut [[u64; WORDS]; TERMS],
    room: &mut [u8],
    at: usize,
) -> Fed
    ensures room_after { let before = lent m.old words.old items.old table.old in
        let after = lent m.new words.new items.new table.new in
        leaves result after room.new ≡ feed_in s before room.old at piece.now }
    ensures read_in_bounds { result.read ≤ length piece.now }
    ensures fact { let before = lent m.old words.old items.old table.old in
        let after = lent m.new words.new items.new table.new in
        let read = take result.read piece.now in
        (at ≤ length room.old → Feeds s before after room.old room.new at read result.state result.to) }
    ensures pauses { Pauses result.state room.old result.to piece.now result.read }
{
    let mut fed = Fed {
        state: s,
        read: 0,
        to: at,
    };
    // A `while`: a turn goes on where the line ended, which `feed_line` tells with the state.
    while fed.read < piece.len() && !pauses(fed.state.stopped, room.len(), fed.to) {
        fed = feed_line(
            fed.state, piece, fed.read, m, words, items, table, room, fed.to,
        );
    }
    fed
}

// The sheet ends here: "at the end the 14s ascending, then 15"; a line that is not ended, or a set that is open, is 1.
#[tactic(auto, unfolding(crate::specs::Leaves::end_in))]
pub fn end(s: State, table: &[[u64; WORDS]; TERMS], room: &mut [u8], at: usize) -> Option<usize>
    ensures room_after { said result room.new ≡ end_in s table.now room.old at }
    ensures by_index { (m ws i : List ℕ) → Ends s (lent m ws i table.now) room.old room.new at result }
{
    if room.len().saturating_sub(at) < END_ROOM {
        return None;
    }
    if s.stopped {
        return Some(at);
    }
    let reader = s.reader;
    if s.held.length == 0 && outside(reader.stands) {
        return write_found(table, reader.ended, room, at);
    }
    let line = reader.line;
    write_stop(line, Refusal::Layout { line }, room, at)
}

// Whether something is left to read.
fn is_left(read: usize, all: usize, stopped: bool) -> bool
    ensures { (result ≡ false → (all ≤ read) ⊎ (stopped ≡ true)) × (result ≡ true → (read < all) × (stopped ≡ false)) }
{
    read < all && !stopped
}

// Why a check has no answer: the room was too short (what is in it then is the first part of the findings), or the memory is less
// than SITES_ROOM, KEPT_ROOM, ITEMS_ROOM, and nothing was read.
#[derive(Clone, Copy)]
pub enum Unchecked {
    NoRoom,
    NoMemory,
}

// A whole sheet: its findings into the room, from its start. A room of STEP_ROOM more than the findings is enough.
#[tactic(auto, unfolding(crate::specs::Leaves::check_in))]
pub fn check(
    sheet: &[u8],
    m: &mut [u8],
    words: &mut [u64],
    items: &mut [u64],
    table: &mut [[u64; WORDS]; TERMS],
    room: &mut [u8],
) -> Result<usize, Unchecked>
    ensures room_after { let before = lent m.old words.old items.old table.old in
        let after = lent m.new words.new items.new table.new in
        leaves result after room.new ≡ check_in sheet.now before room.old }
    ensures checks { Checks sheet.now m.old words.old items.old room.old room.new result }
{
    if m.len() < SITES_ROOM || words.len() < KEPT_ROOM || items.len() < ITEMS_ROOM {
        return Err(Unchecked::NoMemory);
    }
    let s = begin(table);
    let f = feed(s, sheet, m, words, items, table, room, 0);
    if is_left(f.read, sheet.len(), f.state.stopped) {
        return Err(Unchecked::NoRoom);
    }
    end(f.state, table, room, f.to).ok_or(Unchecked::NoRoom)
}
