// Replays stored cases of proposed priorities through the code. The cases are kept rules, as text: numbers in upper-case hexadecimal, each ended by a
// blank or a line's end, and letters that use the last of them. Other bytes are passed over.
//   site head second third c    a constrained site of the next rule, with its constraint's three words
//   site lowest e               an equal site of it, with the lowest member of its class
//   place priority k            the rule is written as the next rule of the set
//   flags p                     the plan of the set
//   priority a                  the next priority of a proposal
//   flags v                     what the check says of the proposal; the next proposal begins
//   n                           the next set begins
#![tactic(auto)]

use paper::{CONSTRAINED, EQUALS, RULES};
use rule_words::STRIDE;
use std::io::{self, Read};
use tell_plan::{put_check, put_plan};

// So much of the input is read.
const TEXT: u64 = 65536;

// The words of a set's kept rules, and of the constraints of a rule, three to a constraint.
const KEPT_ROOM: usize = RULES * STRIDE;

const SHAPES_ROOM: usize = 3 * CONSTRAINED;

// More priorities than a set has rules, so that a proposal can be too long.
const PROPOSED: usize = 2 * RULES;

// Room for any plan: a line for each rule, or for each pair.
const PLAN_ROOM: usize = 28 * RULES * RULES;

#[derive(Clone, Copy, Default)]
struct State {
    value: u64,
    a: u64,
    b: u64,
    c: u64,
    d: u64,
    sites: usize,
    equal: usize,
    rules: u32,
    proposed: usize,
}

// A digit's value.
fn digit(x: u8) -> Option<u64> {
    match x {
        b'0'..=b'9' => Some(u64::from(x - 48)),
        b'A'..=b'F' => Some(u64::from(x - 55)),
        _ => None,
    }
}

fn with_digit(s: State, v: u64) -> State {
    State {
        value: ((s.value % 1152921504606846976) * 16).wrapping_add(v),
        ..s
    }
}

// The number is ended: it is now the last of four.
fn pushed(s: State) -> State {
    State {
        value: 0,
        a: s.b,
        b: s.c,
        c: s.d,
        d: s.value,
        ..s
    }
}

fn with_counts(s: State, sites: usize, equal: usize, rules: u32) -> State {
    State {
        value: 0,
        sites,
        equal,
        rules,
        ..s
    }
}

// Stores v at k; past the end there is nothing to store it in.
fn put<T: Copy>(xs: &mut [T], k: usize, v: T) {
    if k < xs.len() {
        xs[k] = v;
    }
}

fn low16(v: u64) -> u16 {
    (v % 65536) as u16
}

fn low32(v: u64) -> u32 {
    (v % 4294967296) as u32
}

fn constrained(s: State, sites: &mut [u16], shapes: &mut [u64]) -> State {
    let n = s.sites;
    if n > CONSTRAINED {
        return s;
    }
    put(sites, n, low16(s.a));
    put(shapes, 3 * n, s.b);
    put(shapes, 3 * n + 1, s.c);
    put(shapes, 3 * n + 2, s.d);
    with_counts(s, n + 1, s.equal, s.rules)
}

fn equals(s: State, equal: &mut [u16], low: &mut [u16]) -> State {
    let n = s.equal;
    if n > EQUALS {
        return s;
    }
    put(equal, n, low16(s.c));
    put(low, n, low16(s.d));
    with_counts(s, s.sites, n + 1, s.rules)
}

fn keep(
    s: State,
    words: &mut [u64],
    sites: &[u16],
    shapes: &[u64],
    equal: &[u16],
    low: &[u16],
) -> State {
    let n = s.sites;
    let m = s.equal;
    let i = s.rules;
    if n > sites.len() || m > equal.len() || i >= 64 {
        return s;
    }
    if rule_words::write(
        words,
        i,
        low32(s.c),
        s.d,
        &sites[..n],
        shapes,
        &equal[..m],
        low,
    ) {
        return with_counts(s, 0, 0, i + 1);
    }
    with_counts(s, 0, 0, i)
}

fn with_proposed(s: State, proposed: usize) -> State {
    State {
        value: 0,
        proposed,
        ..s
    }
}

fn propose(s: State, priorities: &mut [u64]) -> State {
    let n = s.proposed;
    if n >= priorities.len() {
        return s;
    }
    put(priorities, n, s.d);
    with_proposed(s, n + 1)
}

fn show<W: io::Write>(output: &mut W, room: &[u8], k: usize) -> io::Result<()> {
    if room.len() < k {
        return Ok(());
    }
    output.write_all(&room[..k])
}

fn planned<W: io::Write>(
    output: &mut W,
    s: State,
    words: &[u64],
    room: &mut [u8],
) -> io::Result<()> {
    let k = put_plan(room, 0, 0, words, s.rules, (s.d % 256) as u8);
    show(output, room, k)
}

fn checked<W: io::Write>(
    output: &mut W,
    s: State,
    words: &[u64],
    priorities: &[u64],
    room: &mut [u8],
) -> io::Result<()> {
    if priorities.len() < s.proposed {
        return Ok(());
    }
    let proposal = &priorities[..s.proposed];
    let k = put_check(room, 0, 0, words, s.rules, (s.d % 256) as u8, proposal);
    show(output, room, k)
}

fn step<W: io::Write>(
    output: &mut W,
    s: State,
    x: u8,
    words: &mut [u64],
    sites: &mut [u16],
    shapes: &mut [u64],
    equal: &mut [u16],
    low: &mut [u16],
    priorities: &mut [u64],
    room: &mut [u8],
) -> io::Result<State> {
    if let Some(v) = digit(x) {
        return Ok(with_digit(s, v));
    }
    match x {
        b' ' => Ok(pushed(s)),
        b'c' => Ok(constrained(s, sites, shapes)),
        b'e' => Ok(equals(s, equal, low)),
        b'k' => Ok(keep(s, words, sites, shapes, equal, low)),
        b'p' => {
            planned(output, s, words, room)?;
            Ok(s)
        }
        b'a' => Ok(propose(s, priorities)),
        b'v' => {
            checked(output, s, words, priorities, room)?;
            Ok(with_proposed(s, 0))
        }
        b'n' => Ok(with_counts(s, 0, 0, 0)),
        _ => Ok(s),
    }
}

fn run<W: io::Write>(
    output: &mut W,
    text: &[u8],
    words: &mut [u64],
    sites: &mut [u16],
    shapes: &mut [u64],
    equal: &mut [u16],
    low: &mut [u16],
    priorities: &mut [u64],
    room: &mut [u8],
) -> io::Result<()> {
    let mut s = State::default();
    for x in text {
        s = step(
            output, s, *x, words, sites, shapes, equal, low, priorities, room,
        )?;
    }
    Ok(())
}

fn main(rt: HostRuntime) -> io::Result<()> {
    let mut text = Vec::new(rt.alloc());
    rt.stdin().take(TEXT).read_to_end(&mut text)?;
    let mut words = [0u64; KEPT_ROOM];
    let mut sites = [0u16; CONSTRAINED];
    let mut shapes = [0u64; SHAPES_ROOM];
    let mut equal = [0u16; EQUALS];
    let mut low = [0u16; EQUALS];
    let mut priorities = [0u64; PROPOSED];
    let mut room = [0u8; PLAN_ROOM];
    run(
        &mut rt.stdout(),
        &text,
        &mut words,
        &mut sites,
        &mut shapes,
        &mut equal,
        &mut low,
        &mut priorities,
        &mut room,
    )
}
