// The sheet calls, before they are exported. Between two pieces of a sheet all that is kept of it lies in lent memory: the state (words and the bytes of
// a held line), the open set, the items of its open rule, the term table.
#![tactic(auto)]

ghost use Rattle.std.specs.Prelude.{◌≡◌, if◌then◌else◌};
ghost use Rattle.term_table.specs.Table.{no_edges};
ghost use Rattle.sheet_ended.specs.Sets.{end_room};
ghost use Rattle.sheet_reader.specs.State.{lent, step_room};
ghost use Rattle.sheet_read.specs.Whole.{first_state};
ghost use Rattle.box_answers.specs.Border.{both, after};
ghost use Rattle.sheet_state.specs.State.{keeps, state_put, held_put};
ghost use Rattle.box_sheet.specs.Sheet.{lends, writes, begun_number, FeedSays, EndSays, CheckSays, ended_said, checked_said};
ghost use Rattle.box_sheet.specs.Leaves.{piece_left, piece_in, ending_left, ending_in, sheet_left, sheet_in};

use box_answers::{ANSWER, SHORT, Said, crowded, done, say};
use item_words::ITEMS_ROOM;
use paper::TERMS;
use sheet_ended::END_ROOM;
use sheet_read::{KEPT_ROOM, SITES_ROOM, Unchecked};
use sheet_reader::STEP_ROOM;
use sheet_state::{keeps, put_state, state_in};
use term_table::WORDS;

// Whether the memory is enough for any set.
#[tactic(auto, unfolding(crate::specs::Sheet::lends, box_answers::specs::Border::both, box_answers::specs::Border::has_room))]
fn lends(slots: &[u8], words: &[u64], items: &[u64]) -> bool
    ensures { result ≡ lends slots.now words.now items.now }
{
    SITES_ROOM <= slots.len() && KEPT_ROOM <= words.len() && ITEMS_ROOM <= items.len()
}

// Whether so many bytes of findings and an answer find room.
#[tactic(auto, unfolding(crate::specs::Sheet::writes, box_answers::specs::Border::both, box_answers::specs::Border::has_room))]
fn writes(room: &[u8], least: usize, answer: &[u64]) -> bool
    ensures { result ≡ writes room.now least answer.now }
{
    least <= room.len() && ANSWER <= answer.len()
}

#[tactic(auto, unfolding(crate::specs::Sheet::ended_said))]
fn ended_said(r: Option<usize>) -> Said
    ensures { result ≡ ended_said r }
{
    r.map_or_else(crowded, |n| done(n as u64, 0))
}

#[tactic(auto, unfolding(crate::specs::Sheet::checked_said))]
fn checked_said(c: Result<usize, Unchecked>) -> Said
    ensures { result ≡ checked_said c }
{
    match c {
        Ok(n) => done(n as u64, 0),
        Err(Unchecked::NoRoom | Unchecked::NoMemory) => crowded(),
    }
}

// Once the sheet stopped, every byte counts as read: nothing in it is looked at.
fn counted(stopped: bool, read: usize, all: usize) -> usize
    ensures { result ≡ (if stopped then all else read) }
{
    if stopped { all } else { read }
}

// Before the first piece.
pub fn begin_sheet(state: &mut [u64], held: &mut [u8], table: &mut [[u64; WORDS]; TERMS]) -> u32
    ensures value { result ≡ begun_number (keeps state.old held.old) }
    ensures state_after { let fits = keeps state.old held.old in
        state.new ≡ after fits state.old (state_put state.old first_state) }
    ensures held_after { let fits = keeps state.old held.old in
        held.new ≡ after fits held.old (held_put held.old first_state) }
    ensures table_after { let fits = keeps state.old held.old in table.new ≡ after fits table.old no_edges }
{
    if !keeps(state, held) {
        return SHORT;
    }
    let s = sheet_read::begin(table);
    put_state(state, held, s);
    0
}

// A piece of the sheet: how many of its bytes were read, and how many bytes of findings stand first in the room.
pub fn feed_piece(
    state: &mut [u64],
    held: &mut [u8],
    slots: &mut [u8],
    words: &mut [u64],
    items: &mut [u64],
    table: &mut [[u64; WORDS]; TERMS],
    piece: &[u8],
    room: &mut [u8],
    answer: &mut [u64],
) -> u32
    ensures result_after { let old = lent slots.old words.old items.old table.old in
        let new = lent slots.new words.new items.new table.new in
        piece_left state.new held.new new room.new (answer.new, result)
        ≡ piece_in state.old held.old old piece.now room.old answer.old }
    ensures fact { let memory = lends slots.old words.old items.old in
        let fits = both (keeps state.old held.old) (both memory (writes room.old step_room answer.old)) in
        let old = lent slots.old words.old items.old table.old in
        let new = lent slots.new words.new items.new table.new in
        FeedSays fits state.old held.old old piece.now room.old answer.old
        state.new held.new new room.new answer.new result }
{
    if !keeps(state, held) {
        return SHORT;
    }
    if !lends(slots, words, items) {
        return SHORT;
    }
    if !writes(room, STEP_ROOM, answer) {
        return SHORT;
    }
    let s = state_in(state, held);
    let f = sheet_read::feed(s, piece, slots, words, items, table, room, 0);
    let next = f.state;
    put_state(state, held, next);
    let read = counted(next.stopped, f.read, piece.len());
    say(answer, done(read as u64, f.to as u64))
}

// The sheet ends here: how many bytes of findings stand first in the room.
pub fn end_sheet(
    state: &[u64],
    held: &[u8],
    table: &[[u64; WORDS]; TERMS],
    room: &mut [u8],
    answer: &mut [u64],
) -> u32
    ensures result_after { ending_left room.new (answer.new, result)
        ≡ ending_in state.now held.now table.now room.old answer.old }
    ensures fact { let fits = both (keeps state.now held.now) (writes room.old end_room answer.old) in
        EndSays fits state.now held.now table.now room.old answer.old
        room.new answer.new result }
{
    if !keeps(state, held) {
        return SHORT;
    }
    if !writes(room, END_ROOM, answer) {
        return SHORT;
    }
    let s = state_in(state, held);
    let w = sheet_read::end(s, table, room, 0);
    say(answer, ended_said(w))
}

// A whole sheet: how many bytes of findings stand first in the room.
pub fn check_sheet(
    sheet: &[u8],
    slots: &mut [u8],
    words: &mut [u64],
    items: &mut [u64],
    table: &mut [[u64; WORDS]; TERMS],
    room: &mut [u8],
    answer: &mut [u64],
) -> u32
    ensures result_after { let old = lent slots.old words.old items.old table.old in
        let new = lent slots.new words.new items.new table.new in
        sheet_left new room.new (answer.new, result)
        ≡ sheet_in sheet.now old room.old answer.old }
    ensures fact { let memory = lends slots.old words.old items.old in
        let fits = both memory (writes room.old step_room answer.old) in
        let old = lent slots.old words.old items.old table.old in
        let new = lent slots.new words.new items.new table.new in
        CheckSays fits sheet.now old room.old answer.old new room.new answer.new result }
{
    if !lends(slots, words, items) {
        return SHORT;
    }
    if !writes(room, STEP_ROOM, answer) {
        return SHORT;
    }
    let c = sheet_read::check(sheet, slots, words, items, table, room);
    say(answer, checked_said(c))
}
