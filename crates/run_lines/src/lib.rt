// Lines of sheets in the program's buffers: a line is a step of the reader, and its answer goes behind what the buffer has; a border ends one sheet and begins
// the next. Where the buffer may be too short for an answer it is written out first. proofs/InOrder.antt has what the contracts come to.
#![tactic(auto)]

ghost use Rattle.std.specs.Prelude.{◌≡◌, Bool, true, ◌&&◌, ◌||◌, ◌+◌, length, ltb, IfOk, OnErr};
ghost use Rattle.term_table.specs.Table.{no_edges};
ghost use Rattle.sheet_reader.specs.State.{lent};
ghost use Rattle.run_lines.specs.Taken.{is_border, goes_on, need, spared, Overfull, Took, Closed, fresh_flow, Bordered, is_told, Taken, Unchanged};

use paper::TERMS;
use run_answers::{How, put_end, put_step};
use sheet_lines::{Held, nothing, part};
use sheet_read::State;
use sheet_reader::{Event, Reader};
use std::io;
use tell_text::put_text;
use term_table::WORDS;

// What one answer needs at most: a kept rule has at most 64 sites, each with an unfolding of at most 4,096 bytes, two digits a byte. In words the findings of
// a line take less: at most 128 lists, some 350 bytes each without their places, and 2,016 places of 12 bytes.
const NEED: usize = 655360;

// Bytes of output not yet written, whether the sheet goes on, whether it had a finding: two flags, no enum, since each may be true without the other.
#[derive(Drop)]
pub struct Marks {
    pub filled: usize,
    pub goes: bool,
    pub found: bool,
}

// Where reading and writing stand.
#[derive(Drop)]
pub struct Flow {
    pub reader: Reader,
    pub marks: Marks,
}

// ---- room for an answer

// Whether more than NEED is left.
fn has_room(len: usize, n: usize) -> bool
    ensures { result ≡ ltb (n + need) len }
{
    NEED < len.saturating_sub(n)
}

fn flush<W: io::Write>(output: &mut W, out: &[u8], n: usize) -> io::Result<()> {
    output.write_all(part(out, 0, n))
}

// Writes the buffer out where less than NEED is left: how much of it is filled then.
#[tactic(auto, unfolding(crate::specs::Taken::spared))]
fn spare<W: io::Write>(output: &mut W, out: &[u8], n: usize) -> io::Result<usize>
    ensures filled { IfOk result (λ at. at ≡ spared (length out.now) n) }
    ensures overfull { OnErr result (Overfull out.now n) }
{
    if has_room(out.len(), n) {
        return Ok(n);
    }
    flush(output, out, n)?;
    Ok(0)
}

// ---- a line of the open sheet

// Whether the sheet goes on after a line.
fn goes_on(e: &Event) -> bool
    ensures { result ≡ goes_on e.now }
{
    !matches!(*e, Event::Stopped(_) | Event::NoRoom)
}

// A line of the open sheet.
fn take_line<W: io::Write>(
    output: &mut W,
    how: How,
    reader: Reader,
    marks: Marks,
    text: &[u8],
    m: &mut [u8],
    words: &mut [u64],
    items: &mut [u64],
    table: &mut [[u64; WORDS]; TERMS],
    room: &mut [u8],
    out: &mut [u8],
) -> io::Result<Flow>
    ensures took { let before = lent m.old words.old items.old table.old in
        let after = lent m.new words.new items.new table.new in
        let took = Took how reader marks text.now before after room.old room.new out.old out.new in
        IfOk result (λ flow. took flow) }
    ensures failed { let before = lent m.old words.old items.old table.old in
        let after = lent m.new words.new items.new table.new in
        OnErr result (Unchanged before after room.old room.new out.old out.new) }
    ensures overfull { OnErr result (Overfull out.old marks.filled) }
{
    let at = spare(output, out, marks.filled)?;
    let stood = reader.stands;
    let s = sheet_step::step(reader, text, m, words, items, table, room, 0);
    let goes = goes_on(&s.event);
    let stands = s.reader.stands;
    let said = part(room, 0, s.to);
    let filled = put_step(how, s.event, stood, stands, m, words, said, out, at);
    let found = marks.found || 0 < s.to;
    Ok(Flow {
        reader: s.reader,
        marks: Marks {
            filled,
            goes,
            found,
        },
    })
}

// ---- the end of a sheet, and the next

// The sheet ends, with what is held of a line. One that stopped has been answered. After a write that failed nothing has changed.
pub fn end_sheet<W: io::Write>(
    output: &mut W,
    how: How,
    reader: Reader,
    marks: Marks,
    held: Held,
    table: &[[u64; WORDS]; TERMS],
    room: &mut [u8],
    out: &mut [u8],
) -> io::Result<usize>
    ensures closed { let closed = Closed how reader marks held table.now in
        IfOk result (λ n. closed room.old room.new out.old out.new n) }
    ensures failed { OnErr result ((room.new ≡ room.old) × (out.new ≡ out.old)) }
    ensures overfull { OnErr result (Overfull out.old marks.filled) }
{
    let at = spare(output, out, marks.filled)?;
    if !marks.goes {
        return Ok(at);
    }
    let s = State {
        reader,
        held,
        stopped: false,
    };
    let to = sheet_read::end(s, table, room, 0).unwrap_or(0);
    let found = part(room, 0, to);
    Ok(put_end(how, marks.found, table, found, out, at))
}

// Before a sheet. The term table is cleared.
#[tactic(auto, unfolding(crate::specs::Taken::fresh_flow))]
pub fn fresh(table: &mut [[u64; WORDS]; TERMS], filled: usize) -> Flow
    ensures { (result ≡ fresh_flow filled) × (table.new ≡ no_edges) }
{
    Flow {
        reader: sheet_read::begin(table).reader,
        marks: Marks {
            filled,
            goes: true,
            found: false,
        },
    }
}

// A border: the sheet before it ends.
fn next_sheet<W: io::Write>(
    output: &mut W,
    how: How,
    reader: Reader,
    marks: Marks,
    table: &mut [[u64; WORDS]; TERMS],
    room: &mut [u8],
    out: &mut [u8],
) -> io::Result<Flow>
    ensures bordered { let tables = Bordered how reader marks table.old table.new in
        IfOk result (λ flow. tables room.old room.new out.old out.new flow) }
    ensures failed { OnErr result ((table.new ≡ table.old) × (room.new ≡ room.old) × (out.new ≡ out.old)) }
    ensures overfull { OnErr result (Overfull out.old marks.filled) }
{
    let n = end_sheet(output, how, reader, marks, nothing(), table, room, out)?;
    let filled = put_text(out, n, b"----\n");
    Ok(fresh(table, filled))
}

// The line that stands between two sheets.
fn is_border(text: &[u8]) -> bool
    ensures { result ≡ is_border text.now }
{
    // Not `==` with the four bytes: tried, and the proof did not close.
    if text.len() != 4 {
        return false;
    }
    text.starts_with(b"----")
}

// A whole line. After a sheet has stopped its lines are passed over. After a write that failed nothing has changed.
pub fn take_text<W: io::Write>(
    output: &mut W,
    how: How,
    many: bool,
    f: Flow,
    text: &[u8],
    m: &mut [u8],
    words: &mut [u64],
    items: &mut [u64],
    table: &mut [[u64; WORDS]; TERMS],
    room: &mut [u8],
    out: &mut [u8],
) -> io::Result<Flow>
    ensures taken { let before = lent m.old words.old items.old table.old in
        let after = lent m.new words.new items.new table.new in
        let taken = Taken how many f.reader f.marks text.now before after in
        IfOk result (λ flow. taken room.old room.new out.old out.new flow) }
    ensures failed { let before = lent m.old words.old items.old table.old in
        let after = lent m.new words.new items.new table.new in
        OnErr result (Unchanged before after room.old room.new out.old out.new) }
    ensures overfull { OnErr result (Overfull out.old f.marks.filled) }
    ensures told { OnErr result (is_told many text.now f.marks ≡ true) }
{
    let reader = f.reader;
    let marks = f.marks;
    if many && is_border(text) {
        return next_sheet(output, how, reader, marks, table, room, out);
    }
    if marks.goes {
        return take_line(
            output, how, reader, marks, text, m, words, items, table, room, out,
        );
    }
    Ok(Flow { reader, marks })
}
