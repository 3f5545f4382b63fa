// Replays bodies from standard input, one a line in upper-case hexadecimal, against one set: what `add` answers, and a new site's unfolding.
#![tactic(auto)]

ghost use Rattle.std.specs.Prelude.{◌<◌};

use paper::{Refusal, SITES, UNFOLDING};
use sites::{Numbered, SLOT};
use std::io::{self, Read};

// So much of the input is read.
const TEXT: u64 = 4096;

// A full set.
const MEMORY: usize = SITES * SLOT;

// How many sites there are, and how many digits the line has so far.
#[derive(Clone, Copy, Default)]
struct State {
    count: u16,
    digits: usize,
}

// A digit's value, 0 where it is none.
fn digit(d: u8) -> u8
    ensures { result < 16 }
{
    match d {
        b'0'..=b'9' => d - b'0',
        b'A'..=b'F' => d - b'A' + 10,
        _ => 0,
    }
}

fn refused<W: io::Write>(output: &mut W, r: Refusal) -> io::Result<()> {
    match r {
        Refusal::Layout { line } => write!(output, "refused 1 line {line}"),
        Refusal::Unknown { site } => write!(output, "refused 2 site {site}"),
        Refusal::TooManySources { asked, at } => {
            write!(output, "refused 21 sources {asked} line {at}")
        }
        Refusal::TermTooHigh { asked } => write!(output, "refused 28 term {asked}"),
        Refusal::TooManySites { asked, at } => write!(output, "refused 20 sites {asked} line {at}"),
        _ => Ok(()),
    }
}

fn show<W: io::Write>(output: &mut W, bytes: &[u8]) -> io::Result<()> {
    for b in bytes {
        output.write_all(&[sheet_digits::high_digit(*b), sheet_digits::low_digit(*b)])?;
    }
    Ok(())
}

fn unfolded<W: io::Write>(
    output: &mut W,
    m: &[u8],
    count: u16,
    site: u16,
    room: &mut [u8],
) -> io::Result<()> {
    let Ok(n) = sites::unfold(m, count, site, room) else {
        return Ok(());
    };
    output.write_all(b" unfolds ")?;
    if room.len() < n {
        return Ok(());
    }
    show(output, &room[..n])
}

// The count of sites after the line.
fn line<W: io::Write>(
    output: &mut W,
    m: &mut [u8],
    room: &mut [u8],
    count: u16,
    b: &[u8],
) -> io::Result<u16> {
    match sites::add(m, count, b, 1) {
        Ok(Numbered::Known(i)) => {
            write!(output, "known {i}")?;
            Ok(count)
        }
        Ok(Numbered::Fresh(i)) => {
            write!(output, "new {i}")?;
            let Some(more) = i.checked_add(1) else {
                return Ok(count);
            };
            unfolded(output, m, more, i, room)?;
            Ok(more)
        }
        Err(r) => {
            refused(output, r)?;
            Ok(count)
        }
    }
}

// One byte of the text: a digit of the line, or its end.
fn feed<W: io::Write>(
    output: &mut W,
    m: &mut [u8],
    room: &mut [u8],
    text: &mut [u8],
    s: State,
    c: u8,
) -> io::Result<State> {
    let k = s.digits / 2;
    if text.len() <= k {
        return Ok(s);
    }
    if c == b'\n' {
        let count = line(output, m, room, s.count, &text[..k])?;
        output.write_all(b"\n")?;
        return Ok(State { count, digits: 0 });
    }
    let d = digit(c);
    if s.digits % 2 == 0 {
        text[k] = d * 16;
    } else {
        text[k] = text[k].wrapping_add(d);
    }
    Ok(State {
        digits: s.digits + 1,
        ..s
    })
}

fn main(rt: HostRuntime) -> io::Result<()> {
    let mut input = Vec::new(rt.alloc());
    rt.stdin().take(TEXT).read_to_end(&mut input)?;
    let mut output = rt.stdout();
    let mut m = [0u8; MEMORY];
    let mut room = [0u8; UNFOLDING];
    let mut text = [0u8; 64];
    let mut s = State::default();
    for c in &input {
        s = feed(&mut output, &mut m, &mut room, &mut text, s, *c)?;
    }
    Ok(())
}
