// Replays stored cases through the code. The cases are kept rules, as text: numbers in upper-case hexadecimal, each ended by a blank or a line's end,
// and letters that use the last of them. Other bytes are passed over.
//   site head second third c    a constrained site of the next rule, with its constraint's three words
//   site lowest e               an equal site of it, with the lowest member of its class
//   place priority k            the rule is written as the next rule of the set
//   i j o                       the comparison of two rules
//   i t                         a rule's total
//   flags p                     the report; the next set begins
#![tactic(auto)]

use paper::{CONSTRAINED, EQUALS, Overlap, RULES};
use report::{REPORT_ROOM, Unreported};
use rule_words::STRIDE;
use std::io::{self, Read};

// So much of the input is read.
const TEXT: u64 = 65536;

// The words of a set's kept rules, and of the constraints of a rule, three to a constraint.
const KEPT_ROOM: usize = RULES * STRIDE;

const SHAPES_ROOM: usize = 3 * CONSTRAINED;

#[derive(Clone, Copy, Default)]
struct State {
    value: u64,
    a: u64,
    b: u64,
    c: u64,
    d: u64,
    sites: usize,
    equal: usize,
    rules: u32,
}

// A digit's value.
fn digit(x: u8) -> Option<u64> {
    match x {
        b'0'..=b'9' => Some(u64::from(x - b'0')),
        b'A'..=b'F' => Some(u64::from(x - b'A') + 10),
        _ => None,
    }
}

fn with_digit(s: State, v: u64) -> State {
    State {
        value: ((s.value % 1152921504606846976) * 16).wrapping_add(v),
        ..s
    }
}

// The number is ended: it is now the last of four.
fn pushed(s: State) -> State {
    State {
        value: 0,
        a: s.b,
        b: s.c,
        c: s.d,
        d: s.value,
        ..s
    }
}

fn with_counts(s: State, sites: usize, equal: usize, rules: u32) -> State {
    State {
        value: 0,
        sites,
        equal,
        rules,
        ..s
    }
}

fn put16(xs: &mut [u16], k: usize, v: u64) {
    if let Some(x) = xs.get_mut(k) {
        *x = (v % 65536) as u16;
    }
}

fn put64(xs: &mut [u64], k: usize, v: u64) {
    if let Some(x) = xs.get_mut(k) {
        *x = v;
    }
}

fn low32(v: u64) -> u32 {
    (v % 4294967296) as u32
}

fn constrained(s: State, sites: &mut [u16], shapes: &mut [u64]) -> State {
    let n = s.sites;
    if n > CONSTRAINED {
        return s;
    }
    put16(sites, n, s.a);
    put64(shapes, 3 * n, s.b);
    put64(shapes, 3 * n + 1, s.c);
    put64(shapes, 3 * n + 2, s.d);
    with_counts(s, n + 1, s.equal, s.rules)
}

fn equals(s: State, equal: &mut [u16], low: &mut [u16]) -> State {
    let n = s.equal;
    if n > EQUALS {
        return s;
    }
    put16(equal, n, s.c);
    put16(low, n, s.d);
    with_counts(s, s.sites, n + 1, s.rules)
}

fn keep(
    s: State,
    words: &mut [u64],
    sites: &[u16],
    shapes: &[u64],
    equal: &[u16],
    low: &[u16],
) -> State {
    let n = s.sites;
    let m = s.equal;
    let i = s.rules;
    if n > sites.len() || m > equal.len() || i >= 64 {
        return s;
    }
    if rule_words::write(
        words,
        i,
        low32(s.c),
        s.d,
        &sites[..n],
        shapes,
        &equal[..m],
        low,
    ) {
        return with_counts(s, 0, 0, i + 1);
    }
    with_counts(s, 0, 0, i)
}

fn compared<W: io::Write>(output: &mut W, s: State, words: &[u64]) -> io::Result<()> {
    match overlap::may_overlap(words, low32(s.c), low32(s.d)) {
        Overlap::No => output.write_all(b"No\n"),
        Overlap::Yes => output.write_all(b"Yes\n"),
        Overlap::Subset => output.write_all(b"Subset\n"),
    }
}

fn totalled<W: io::Write>(output: &mut W, s: State, words: &[u64]) -> io::Result<()> {
    let t = overlap::total_constraints(words, low32(s.d));
    writeln!(output, "{t}")
}

fn reported<W: io::Write>(
    output: &mut W,
    s: State,
    words: &[u64],
    room: &mut [u8],
) -> io::Result<()> {
    match report::report(words, s.rules, (s.d % 256) as u8, room) {
        Ok(n) => {
            let n = n as usize;
            if room.len() < n {
                return Ok(());
            }
            output.write_all(&room[..n])
        }
        Err(Unreported::TooManyRules(_)) => output.write_all(b"too many rules\n"),
        Err(Unreported::NoRoom) => output.write_all(b"no room\n"),
    }
}

fn step<W: io::Write>(
    output: &mut W,
    s: State,
    x: u8,
    words: &mut [u64],
    sites: &mut [u16],
    shapes: &mut [u64],
    equal: &mut [u16],
    low: &mut [u16],
    room: &mut [u8],
) -> io::Result<State> {
    if let Some(v) = digit(x) {
        return Ok(with_digit(s, v));
    }
    match x {
        b' ' => Ok(pushed(s)),
        b'c' => Ok(constrained(s, sites, shapes)),
        b'e' => Ok(equals(s, equal, low)),
        b'k' => Ok(keep(s, words, sites, shapes, equal, low)),
        b'o' => {
            compared(output, s, words)?;
            Ok(s)
        }
        b't' => {
            totalled(output, s, words)?;
            Ok(s)
        }
        b'p' => {
            reported(output, s, words, room)?;
            Ok(with_counts(s, 0, 0, 0))
        }
        _ => Ok(s),
    }
}

fn run<W: io::Write>(
    output: &mut W,
    text: &[u8],
    words: &mut [u64],
    sites: &mut [u16],
    shapes: &mut [u64],
    equal: &mut [u16],
    low: &mut [u16],
    room: &mut [u8],
) -> io::Result<()> {
    let mut s = State::default();
    for x in text {
        s = step(output, s, *x, words, sites, shapes, equal, low, room)?;
    }
    Ok(())
}

fn main(rt: HostRuntime) -> io::Result<()> {
    let mut text = Vec::new(rt.alloc());
    rt.stdin().take(TEXT).read_to_end(&mut text)?;
    let mut words = [0u64; KEPT_ROOM];
    let mut sites = [0u16; CONSTRAINED];
    let mut shapes = [0u64; SHAPES_ROOM];
    let mut equal = [0u16; EQUALS];
    let mut low = [0u16; EQUALS];
    let mut room = [0u8; REPORT_ROOM];
    run(
        &mut rt.stdout(),
        &text,
        &mut words,
        &mut sites,
        &mut shapes,
        &mut equal,
        &mut low,
        &mut room,
    )
}
