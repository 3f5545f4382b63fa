// 01, "Sheets": a sheet is read a line at a time. Each line is a step of the reader, over lent memory.
#![tactic(auto)]

ghost use Rattle.std.specs.Prelude.{◌≡◌, List, ℕ, ◌+◌, ◌≤◌, ◌<◌, length};
ghost use Rattle.paper.specs.Layout.{end_set};
ghost use Rattle.paper.specs.Sheets as paper;
ghost use Rattle.sheet_reader.specs.State.{lent, Tells, Ready, step_room};
ghost use Rattle.sheet_reader.specs.Answers.{Acts, Stepping};
ghost use Rattle.sheet_reader.specs.Leaves.{after};
ghost use Rattle.sheet_step.specs.Parts.{report_end, report_after};
ghost use Rattle.sheet_step.specs.Leaves.{end_in, numbered_in, step_in};

use paper::{Refusal, TERMS};
use report::report;
use sheet_ended::{add_edges, with_set};
use sheet_frames::{Frame, read_line};
use sheet_reader::{Awaited, Event, LAST_LINE, Reader, STEP_ROOM, Stands, Stepped, rule_set, stop};
use sheet_rule::{item_frame, rule_frame};
use sheet_sites::{begin_frame, site_line};
use term_table::WORDS;

// The report of the first n rules, from `at` on: its end.
fn report_at(words: &[u64], n: u32, flags: u8, room: &mut [u8], at: usize) -> usize
    requires { at ≤ length room.old }
    ensures { (result ≡ report_end words.now n flags room.old at) ×
        (room.new ≡ report_after words.now n flags room.old at) }
{
    let done = report(words, n, flags, &mut room[at..]);
    at + done.unwrap_or(0) as usize
}

// 06: the report; the set's edges go to the term table.
fn end_frame(
    r: Reader,
    m: &[u8],
    words: &[u64],
    table: &mut [[u64; WORDS]; TERMS],
    room: &mut [u8],
    at: usize,
) -> Stepped
    requires { Ready r room.old at }
    ensures by_index { (i : List ℕ) →
        let k = lent m.now words.now i table.old in
        let k' = lent m.now words.now i table.new in
        after result k' room.new ≡ end_in r k room.old at }
    ensures by_index_2 { (i : List ℕ) (p : paper.Ended) →
        let k = lent m.now words.now i table.old in
        let k' = lent m.now words.now i table.new in
        Tells r k p → Acts r k k' room.old room.new at p end_set result }
{
    let line = r.line;
    let Some(set) = rule_set(r.stands) else {
        return stop(r, Refusal::Layout { line }, room, at);
    };
    let to = report_at(words, set.rules, set.flags, room, at);
    add_edges(table, set.term, m, set.sites);
    let ended = with_set(r.ended, set.term, set.flags, set.rules);
    Stepped {
        reader: Reader {
            line: line + 1,
            stands: Stands::Outside,
            ended,
        },
        event: Event::Ended,
        to,
    }
}

// A line that there is room for.
fn take_line(
    r: Reader,
    text: &[u8],
    m: &mut [u8],
    words: &mut [u64],
    items: &mut [u64],
    table: &mut [[u64; WORDS]; TERMS],
    room: &mut [u8],
    at: usize,
) -> Stepped
    requires { at + step_room ≤ length room.old }
    ensures room_after { let k = lent m.old words.old items.old table.old in
        let k' = lent m.new words.new items.new table.new in
        after result k' room.new ≡ numbered_in r k room.old at text.now }
    ensures fact { let k = lent m.old words.old items.old table.old in
        let k' = lent m.new words.new items.new table.new in
        Stepping r k k' room.old room.new at text.now result }
{
    let line = r.line;
    if LAST_LINE < line {
        return stop(r, Refusal::Layout { line }, room, at);
    }
    let got = read_line(text);
    match got.frame {
        Frame::Begin { term, flags } => begin_frame(r, term, flags, room, at),
        Frame::Site => site_line(r, &got.bytes[..got.length], m, room, at),
        Frame::Rule {
            place,
            priority,
            count,
        } => {
            let rule = Awaited {
                place,
                priority,
                count,
            };
            rule_frame(r, rule, m, words, items, room, at)
        }
        Frame::Item(item) => item_frame(r, item, m, words, items, room, at),
        Frame::End => end_frame(r, m, words, table, room, at),
        Frame::Wrong => stop(r, Refusal::Layout { line }, room, at),
    }
}

// One line, without its LF. It writes at most STEP_ROOM bytes, from `at` on.
pub fn step(
    r: Reader,
    text: &[u8],
    m: &mut [u8],
    words: &mut [u64],
    items: &mut [u64],
    table: &mut [[u64; WORDS]; TERMS],
    room: &mut [u8],
    at: usize,
) -> Stepped
    ensures room_after { let k = lent m.old words.old items.old table.old in
        let k' = lent m.new words.new items.new table.new in
        after result k' room.new ≡ step_in r k room.old at text.now }
    ensures fact { let k = lent m.old words.old items.old table.old in
        let k' = lent m.new words.new items.new table.new in
        Stepping r k k' room.old room.new at text.now result }
{
    if room.len().saturating_sub(at) < STEP_ROOM {
        return Stepped {
            reader: r,
            event: Event::NoRoom,
            to: at,
        };
    }
    take_line(r, text, m, words, items, table, room, at)
}
