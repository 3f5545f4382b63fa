// Sheets from an open file: chunks, and the lines in them, each taken as `run_lines` says, and the answers in large writes.
// proofs/Sheet.antt has what the contracts come to: of one sheet `check` writes the findings.
#![tactic(auto)]

ghost use Rattle.std.specs.Prelude.{◌≡◌, ◌⊎◌, Bool, IfOk, OnOk, OnErr};
ghost use Rattle.paper.specs.Layout.{lines};
ghost use Rattle.sheet_lines.specs.Held.{no_line};
ghost use Rattle.term_table.specs.Table.{no_edges};
ghost use Rattle.sheet_reader.specs.State.{lent};
ghost use Rattle.run_lines.specs.Taken.{fresh_flow};
ghost use Rattle.run_sheets.specs.Chunks.{stand, TookLines, StoppedIn, Read, Stopped, Ran};

use paper::TERMS;
use run_answers::How;
use run_lines::{Flow, end_sheet, fresh, take_text};
use sheet_lines::{Held, cut_line, line_of, nothing, part};
use std::io;
use term_table::WORDS;

// Room for answers.
pub const OUT: usize = 1048576;

// Where a chunk leaves off: what is held of its last line too.
#[derive(Drop)]
struct Left {
    flow: Flow,
    held: Held,
}

// The lines of a chunk, one after the other; the first goes on from what is held.
fn feed<W: io::Write>(
    output: &mut W,
    how: How,
    many: bool,
    f: Flow,
    h: Held,
    bytes: &[u8],
    m: &mut [u8],
    words: &mut [u64],
    items: &mut [u64],
    table: &mut [[u64; WORDS]; TERMS],
    room: &mut [u8],
    out: &mut [u8],
) -> io::Result<Left>
    ensures took { let before = lent m.old words.old items.old table.old in
        let after = lent m.new words.new items.new table.new in
        let first = stand f before room.old out.old in
        let took = TookLines how many (lines bytes.now) h first in
        IfOk result (λ left. took (stand left.flow after room.new out.new) left.held) }
    ensures stopped { let before = lent m.old words.old items.old table.old in
        let after = lent m.new words.new items.new table.new in
        let first = stand f before room.old out.old in
        OnErr result (StoppedIn how many (lines bytes.now) h first after room.new out.new) }
{
    let mut flow = f;
    let mut held = h;
    let mut from = 0;
    // A `while`: a turn goes on where the line ended, which `cut_line` tells.
    while from < bytes.len() {
        let c = cut_line(held, bytes, from);
        let line = c.held;
        if c.unended {
            return Ok(Left { flow, held: line });
        }
        let here = part(bytes, from, c.to);
        let text = line_of(part(&line.bytes, 0, line.length), here);
        flow = take_text(
            output, how, many, flow, text, m, words, items, table, room, out,
        )?;
        held = nothing();
        from = c.to + 1;
    }
    Ok(Left { flow, held })
}

// A proved loop has to end, and nothing says that a file does: the turns count up to a number that no run reaches.
fn read_all<R: io::Read, W: io::Write>(
    input: &mut R,
    output: &mut W,
    how: How,
    many: bool,
    f: Flow,
    m: &mut [u8],
    words: &mut [u64],
    items: &mut [u64],
    table: &mut [[u64; WORDS]; TERMS],
    room: &mut [u8],
    out: &mut [u8],
    bytes: &mut [u8],
) -> io::Result<Left>
    ensures read { let before = lent m.old words.old items.old table.old in
        let after = lent m.new words.new items.new table.new in
        let first = stand f before room.old out.old in
        let read = Read how many no_line first in
        IfOk result (λ left. read (stand left.flow after room.new out.new) left.held) }
    ensures stopped { let before = lent m.old words.old items.old table.old in
        let after = lent m.new words.new items.new table.new in
        let first = stand f before room.old out.old in
        OnErr result (Stopped how many no_line first after room.new out.new) }
{
    let mut g = Left {
        flow: f,
        held: nothing(),
    };
    for _ in 0..u64::MAX {
        let n = input.read(bytes)?;
        if n == 0 {
            return Ok(g);
        }
        let chunk = part(bytes, 0, n);
        g = feed(
            output, how, many, g.flow, g.held, chunk, m, words, items, table, room, out,
        )?;
    }
    Ok(g)
}

// Answers the sheets that an open file has, one sheet, or many with a line ---- between two, in lent memory: from the first byte to the last answer. After a read
// or a write that failed the memory is as the lines before it left it, or, where the last answers could not be written out, as all of them did.
pub fn run_in<R: io::Read, W: io::Write>(
    input: &mut R,
    output: &mut W,
    how: How,
    many: bool,
    m: &mut [u8],
    words: &mut [u64],
    items: &mut [u64],
    table: &mut [[u64; WORDS]; TERMS],
    room: &mut [u8],
    out: &mut [u8],
    bytes: &mut [u8],
) -> io::Result<()>
    ensures ran { let before = lent m.old words.old items.old no_edges in
        let after = lent m.new words.new items.new table.new in
        OnOk result (Ran how many before after room.old out.old room.new out.new) }
    ensures stopped { let before = lent m.old words.old items.old no_edges in
        let after = lent m.new words.new items.new table.new in
        let first = stand (fresh_flow 0) before room.old out.old in
        let ran = Ran how many before after room.old out.old room.new out.new in
        OnErr result (Stopped how many no_line first after room.new out.new ⊎ ran) }
{
    let f = fresh(table, 0);
    let g = read_all(
        input, output, how, many, f, m, words, items, table, room, out, bytes,
    )?;
    let Flow { reader, marks } = g.flow;
    let n = end_sheet(output, how, reader, marks, g.held, table, room, out)?;
    output.write_all(part(out, 0, n))
}
