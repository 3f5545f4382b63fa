// The sheet calls. Between two pieces of a sheet all that is kept of it lies in lent memory: the state (words and the bytes of a held line), the open set,
// the items of its open rule, the term table.
ghost use Rattle.std.specs.Prelude.{◌≡◌};
ghost use Rattle.term_table.specs.Table.{no_edges};
ghost use Rattle.sheet_ended.specs.Sets.{end_room};
ghost use Rattle.sheet_reader.specs.State.{lent, step_room};
ghost use Rattle.sheet_read.specs.Whole.{first_state};
ghost use Rattle.box_answers.specs.Border.{both, after};
ghost use Rattle.sheet_state.specs.State.{keeps, state_put, held_put};
ghost use Rattle.box_sheet.specs.Sheet.{lends, writes, begun_number, FeedSays, EndSays, CheckSays};
ghost use Rattle.box_sheet.specs.Leaves.{piece_left, piece_in, ending_left, ending_in, sheet_left, sheet_in};

use paper::TERMS;
use term_table::WORDS;

// Before the first piece.
#[unsafe(no_mangle)]
pub extern "C" fn lintel_sheet_begin(
    state: &mut [u64],
    held: &mut [u8],
    table: &mut [[u64; WORDS]; TERMS],
) -> u32
    ensures value { result ≡ begun_number (keeps state.old held.old) }
    ensures state_after { let fits = keeps state.old held.old in
        state.new ≡ after fits state.old (state_put state.old first_state) }
    ensures held_after { let fits = keeps state.old held.old in
        held.new ≡ after fits held.old (held_put held.old first_state) }
    ensures table_after { let fits = keeps state.old held.old in table.new ≡ after fits table.old no_edges }
{
    box_sheet::begin_sheet(state, held, table)
}

// A piece of the sheet: how many of its bytes were read, and how many bytes of findings stand first in the room.
#[unsafe(no_mangle)]
pub extern "C" fn lintel_sheet_feed(
    state: &mut [u64],
    held: &mut [u8],
    slots: &mut [u8],
    words: &mut [u64],
    items: &mut [u64],
    table: &mut [[u64; WORDS]; TERMS],
    piece: &[u8],
    room: &mut [u8],
    answer: &mut [u64],
) -> u32
    ensures result_after { let old = lent slots.old words.old items.old table.old in
        let new = lent slots.new words.new items.new table.new in
        piece_left state.new held.new new room.new (answer.new, result)
        ≡ piece_in state.old held.old old piece.now room.old answer.old }
    ensures fact { let memory = lends slots.old words.old items.old in
        let fits = both (keeps state.old held.old) (both memory (writes room.old step_room answer.old)) in
        let old = lent slots.old words.old items.old table.old in
        let new = lent slots.new words.new items.new table.new in
        FeedSays fits state.old held.old old piece.now room.old answer.old
        state.new held.new new room.new answer.new result }
{
    box_sheet::feed_piece(state, held, slots, words, items, table, piece, room, answer)
}

// The sheet ends here: how many bytes of findings stand first in the room.
#[unsafe(no_mangle)]
pub extern "C" fn lintel_sheet_end(
    state: &[u64],
    held: &[u8],
    table: &[[u64; WORDS]; TERMS],
    room: &mut [u8],
    answer: &mut [u64],
) -> u32
    ensures result_after { ending_left room.new (answer.new, result)
        ≡ ending_in state.now held.now table.now room.old answer.old }
    ensures fact { let fits = both (keeps state.now held.now) (writes room.old end_room answer.old) in
        EndSays fits state.now held.now table.now room.old answer.old
        room.new answer.new result }
{
    box_sheet::end_sheet(state, held, table, room, answer)
}

// A whole sheet: how many bytes of findings stand first in the room.
#[unsafe(no_mangle)]
pub extern "C" fn lintel_sheet_check(
    sheet: &[u8],
    slots: &mut [u8],
    words: &mut [u64],
    items: &mut [u64],
    table: &mut [[u64; WORDS]; TERMS],
    room: &mut [u8],
    answer: &mut [u64],
) -> u32
    ensures result_after { let old = lent slots.old words.old items.old table.old in
        let new = lent slots.new words.new items.new table.new in
        sheet_left new room.new (answer.new, result)
        ≡ sheet_in sheet.now old room.old answer.old }
    ensures fact { let memory = lends slots.old words.old items.old in
        let fits = both memory (writes room.old step_room answer.old) in
        let old = lent slots.old words.old items.old table.old in
        let new = lent slots.new words.new items.new table.new in
        CheckSays fits sheet.now old room.old answer.old new room.new answer.new result }
{
    box_sheet::check_sheet(sheet, slots, words, items, table, room, answer)
}
