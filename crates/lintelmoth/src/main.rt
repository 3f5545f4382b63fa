// The program: reads sheets, or a script of class calls, and writes what the library answers. Here are arguments, files and buffers alone.
#![tactic(auto)]

mod words;

ghost use Rattle.std.specs.Prelude.{◌≤◌, length, IfSome};

use item_words::ITEMS_ROOM;
use paper::SITES;
use run_answers::How;
use run_script::{LINE, ROOM};
use run_sheets::OUT;
use sheet_read::{KEPT_ROOM, SITES_ROOM};
use sheet_reader::STEP_ROOM;
use std::env::{Env, FillError};
use std::fs::File;
use std::io::{self, Read, Write};
use words::Verb;

// What is read at once.
const CHUNK: usize = 65536;

// Words of a call are at most so long.
const WORD: usize = 4096;

fn usage<W: io::Write>(output: &mut W) -> io::Result<()> {
    output.write_all(b"lintelmoth: checks a sheet of rules before it goes into a box\n\n")?;
    output.write_all(
        b"  lintelmoth [check] [FILE]      the findings, a line each, as the box writes them\n",
    )?;
    output.write_all(
        b"  lintelmoth explain [FILE]      the findings in plain words, with what to do\n",
    )?;
    output.write_all(
        b"  lintelmoth kept [FILE]         what is kept of each rule, and which rules overlap\n",
    )?;
    output.write_all(b"  lintelmoth joins [FILE]        the answers to a script of class calls\n")?;
    output.write_all(
        b"  lintelmoth many VERB [FILE]    check, explain or kept on many sheets, a line ---- between two\n",
    )?;
    output.write_all(b"  lintelmoth help                this text\n\n")?;
    output.write_all(b"Without FILE, or with -, it reads standard input.\n")
}

// How many words the call has, the program's name among them.
fn arg_count(rt: &impl Env) -> usize {
    for i in 0..usize::MAX {
        if let Err(FillError::NotPresent) = rt.arg(i, &mut []) {
            return i;
        }
    }
    usize::MAX
}

// Word i of the call, None where the call has no such word. One that is too long is read as no text.
fn arg<'a>(rt: &impl Env, i: usize, word: &'a mut [u8]) -> Option<&'a [u8]>
    ensures { IfSome result (λ w. length w.now ≤ length word.old) }
{
    match rt.arg(i, word) {
        Ok(length) => Some(&word[..length]),
        Err(FillError::NotPresent) => None,
        Err(FillError::TooLong) => Some(&[]),
    }
}

// Whether an open file can be read: a folder is opened like a file, and refuses even a read of nothing.
fn is_readable(file: &mut File) -> io::Result<()> {
    file.read(&mut [])?;
    Ok(())
}

// The file of this name, open for reading. (A path is text here.)
fn open_named(rt: &HostRuntime, name: &[u8]) -> io::Result<File> {
    let Ok(path) = str::from_utf8(name) else {
        return Err(io::Error::from(io::ErrorKind::InvalidInput));
    };
    let mut file = File::open(rt, path)?;
    is_readable(&mut file)?;
    Ok(file)
}

// The words of a system's error, without the number that `Display` puts behind them.
fn plain(told: &str) -> &str {
    told.split_once(" (os error ")
        .map_or(told, |(words, _)| words)
}

// One plain line on standard error: which file, and why.
fn cannot_read(rt: &HostRuntime, name: &[u8], error: io::Error) -> io::Result<()> {
    let told = format!(in rt.alloc(); "{error}")?;
    let reason = plain(told.as_str());
    let mut output = rt.stderr();
    output.write_all(b"lintelmoth: cannot read ")?;
    output.write_all(name)?;
    writeln!(output, ": {reason}")
}

// The verb that word i is; check where there is none.
fn verb_at(rt: &impl Env, i: usize) -> Verb {
    arg(rt, i, &mut [0u8; WORD]).map_or(Verb::Sheets(How::Check), words::verb_of)
}

// Runs a verb on sheets from the file that word i names; without one, from standard input.
fn on_sheets(rt: &HostRuntime, how: How, many: bool, i: usize) -> io::Result<()> {
    let mut word = [0u8; WORD];
    match arg(rt, i, &mut word) {
        None | Some(b"-") => answer_sheets(&mut rt.stdin(), &mut rt.stdout(), how, many),
        Some(name) => match open_named(rt, name) {
            Ok(mut file) => answer_sheets(&mut file, &mut rt.stdout(), how, many),
            Err(error) => cannot_read(rt, name, error),
        },
    }
}

// Room for answers. Made apart: where an array of this length stands, a proof writes it out.
fn answers() -> [u8; OUT] {
    [0; OUT]
}

// The sheets of an open file, in memory that is made here.
fn answer_sheets<R: io::Read, W: io::Write>(
    input: &mut R,
    output: &mut W,
    how: How,
    many: bool,
) -> io::Result<()> {
    let mut m = [0u8; SITES_ROOM];
    let mut words = [0u64; KEPT_ROOM];
    let mut items = [0u64; ITEMS_ROOM];
    let mut table = term_table::empty();
    let mut room = [0u8; STEP_ROOM];
    let mut out = answers();
    let mut bytes = [0u8; CHUNK];
    run_sheets::run_in(
        input, output, how, many, &mut m, &mut words, &mut items, &mut table, &mut room, &mut out,
        &mut bytes,
    )
}

// A script of class calls of an open file, likewise.
fn answer_script<R: io::Read, W: io::Write>(input: &mut R, output: &mut W) -> io::Result<()> {
    let mut parents = [0u16; SITES];
    let mut ranks = [0u8; SITES];
    let mut count: u16 = 0;
    let mut members = [0u16; SITES];
    let mut line = [0u8; LINE];
    let mut out = [0u8; ROOM];
    let mut bytes = [0u8; CHUNK];
    run_script::run_in(
        input,
        output,
        &mut parents,
        &mut ranks,
        &mut count,
        &mut members,
        &mut line,
        &mut out,
        &mut bytes,
    )
}

fn on_script(rt: &HostRuntime, i: usize) -> io::Result<()> {
    let mut word = [0u8; WORD];
    match arg(rt, i, &mut word) {
        None | Some(b"-") => answer_script(&mut rt.stdin(), &mut rt.stdout()),
        Some(name) => match open_named(rt, name) {
            Ok(mut file) => answer_script(&mut file, &mut rt.stdout()),
            Err(error) => cannot_read(rt, name, error),
        },
    }
}

// `many VERB FILE`
fn on_many(rt: &HostRuntime) -> io::Result<()> {
    if arg_count(rt) < 3 {
        return usage(&mut rt.stderr());
    }
    match verb_at(rt, 2) {
        Verb::Sheets(how) => on_sheets(rt, how, true, 3),
        _ => usage(&mut rt.stderr()),
    }
}

// How many words a call has at most, by its verb.
fn most(v: Verb) -> usize {
    match v {
        Verb::Many => 4,
        Verb::Sheets(_) | Verb::Joins => 3,
        Verb::Help | Verb::Other => 2,
    }
}

fn main(rt: HostRuntime) -> io::Result<()> {
    let v = verb_at(&rt, 1);
    if most(v) < arg_count(&rt) {
        return usage(&mut rt.stderr());
    }
    match v {
        Verb::Sheets(how) => on_sheets(&rt, how, false, 2),
        Verb::Joins => on_script(&rt, 2),
        Verb::Many => on_many(&rt),
        Verb::Help => usage(&mut rt.stdout()),
        Verb::Other => on_sheets(&rt, How::Check, false, 1),
    }
}
