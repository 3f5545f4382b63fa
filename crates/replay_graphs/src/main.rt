// Replays stored graphs: reads edges between terms and writes the cyclic terms of each graph.
//
// In: a line `A B` is an edge from term A to term B, in decimal; a line `end` closes a graph, and the next one begins without edges.
// Out: for each graph a line `cyclic T T ..`, its cyclic terms ascending, four digits each. An edge with a term over 255 is `refused 28`, and the graph
// stays as it was.
// Any other line is `bad LINE`, counted from 1, and so is a text that ends inside a line or a graph; nothing after it is read.
#![tactic(auto)]

use paper::TERMS;
use sheet_digits::{high_digit, low_digit};
use std::io::{self, Read};
use term_table::{Listed, WORDS};

// What has been read of a line that may still be right.
#[derive(Clone, Copy)]
enum Line {
    Start,
    From(u16),
    Gap(u16),
    To(u16, u16),
    E,
    En,
    End,
}

// Where the reader stands: in a line, None where it is bad already, at a line's number, inside a graph or not.
#[derive(Clone, Copy)]
struct At {
    line: Option<Line>,
    number: u64,
    open: bool,
}

fn grown(n: u16, b: u8) -> Option<u16> {
    if !b.is_ascii_digit() {
        return None;
    }
    n.checked_mul(10)?.checked_add(u16::from(b - b'0'))
}

// One more byte of a line.
fn step(line: Line, b: u8) -> Option<Line> {
    match (line, b) {
        (Line::Start, b'e') => Some(Line::E),
        (Line::E, b'n') => Some(Line::En),
        (Line::En, b'd') => Some(Line::End),
        (Line::From(a), b' ') => Some(Line::Gap(a)),
        (Line::Start, _) => Some(Line::From(grown(0, b)?)),
        (Line::From(a), _) => Some(Line::From(grown(a, b)?)),
        (Line::Gap(a), _) => Some(Line::To(a, grown(0, b)?)),
        (Line::To(a, n), _) => Some(Line::To(a, grown(n, b)?)),
        _ => None,
    }
}

fn write_bad<W: io::Write>(output: &mut W, number: u64) -> io::Result<()> {
    writeln!(output, "bad {number}")
}

fn write_cyclic<W: io::Write>(output: &mut W, found: Listed) -> io::Result<()> {
    output.write_all(b"cyclic")?;
    for term in found.terms.iter().take(usize::from(found.count)) {
        let [high, low] = term.to_be_bytes();
        // one write for a term: each piece of a `write!` goes out by itself
        output.write_all(&[
            b' ',
            high_digit(high),
            low_digit(high),
            high_digit(low),
            low_digit(low),
        ])?;
    }
    output.write_all(b"\n")
}

fn add<W: io::Write>(
    output: &mut W,
    t: &mut [[u64; WORDS]; TERMS],
    a: u16,
    b: u16,
) -> io::Result<()> {
    match term_table::add(t, a, b) {
        Ok(()) => Ok(()),
        Err(_) => output.write_all(b"refused 28\n"),
    }
}

// At the start of a line.
fn start(number: u64, open: bool) -> At {
    At {
        line: Some(Line::Start),
        number,
        open,
    }
}

// A line has ended. None where it was bad: nothing after it is read.
fn ended<W: io::Write>(
    output: &mut W,
    t: &mut [[u64; WORDS]; TERMS],
    at: At,
) -> io::Result<Option<At>> {
    let next = at.number.wrapping_add(1);
    match at.line {
        Some(Line::To(a, b)) => {
            add(output, t, a, b)?;
            Ok(Some(start(next, true)))
        }
        Some(Line::End) => {
            write_cyclic(output, term_table::cyclic_terms(*t))?;
            *t = term_table::empty();
            Ok(Some(start(next, false)))
        }
        _ => {
            write_bad(output, at.number)?;
            Ok(None)
        }
    }
}

// One more byte of the text.
fn take<W: io::Write>(
    output: &mut W,
    t: &mut [[u64; WORDS]; TERMS],
    at: At,
    b: u8,
) -> io::Result<Option<At>> {
    if b == b'\n' {
        return ended(output, t, at);
    }
    let line = at.line.and_then(|line| step(line, b));
    Ok(Some(At { line, ..at }))
}

fn take_all<W: io::Write>(
    output: &mut W,
    t: &mut [[u64; WORDS]; TERMS],
    from: At,
    bytes: &[u8],
) -> io::Result<Option<At>> {
    let mut at = from;
    for b in bytes {
        let Some(next) = take(output, t, at, *b)? else {
            return Ok(None);
        };
        at = next;
    }
    Ok(Some(at))
}

// The text has ended.
fn finish<W: io::Write>(output: &mut W, at: At) -> io::Result<()> {
    match at.line {
        Some(Line::Start) if !at.open => Ok(()),
        _ => write_bad(output, at.number),
    }
}

// A proved loop has to end, and nothing says that a file does: the turns count up to a number that no run reaches.
fn main(rt: HostRuntime) -> io::Result<()> {
    let mut input = rt.stdin();
    let mut output = rt.stdout();
    let mut t = term_table::empty();
    let mut at = start(1, false);
    let mut buffer = [0u8; 4096];
    for _ in 0..u64::MAX {
        let n = input.read(&mut buffer)?;
        if n == 0 {
            return finish(&mut output, at);
        }
        let Some(next) = take_all(&mut output, &mut t, at, &buffer[..n])? else {
            return Ok(());
        };
        at = next;
    }
    Ok(())
}
