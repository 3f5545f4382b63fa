// Runs a script of class calls from a file and writes one answer a line. A line that is no call is answered `bad` with its number, and
// ends the script. What a line means is class_script, what it is answered tell_reply; here is reading and writing.
#![tactic(auto)]

ghost use Rattle.std.specs.Prelude.{◌≡◌, ◌⊎◌, ◌<◌, ℕ, List, IfOk, OnOk, OnErr};
ghost use Rattle.run_script.specs.declared.Place.{Place};
ghost use Rattle.paper.specs.Classes as C;
ghost use Rattle.tell_text.specs.Written.{wrote};
ghost use Rattle.run_script.specs.Said.{is_bad, replied, full, spared, InRange, line_text, Answered, kept_line, kept_used, Held, stand, first_place, Took, Unwritten, Fed, FedSome, FedCut, Read, Ran, Stopped, unended_text, Whole};

use class_script::Reply;
use paper::SITES;
use std::io;
use tell_reply::put_reply;
use tell_text::{put, put_decimal, put_text};

// A line of a script has at most this many bytes.
pub const LINE: usize = 256;

// Room for answers, and where they are written out: one answer has at most 1,024 numbers of four digits, which what is left then holds (proofs/Fitting.antt).
pub const ROOM: usize = 65536;

const FULL: usize = 32768;

// Where reading and writing stand: bytes of the open line, lines so far, bytes of output not yet written, and whether the script goes on.
#[derive(Drop)]
struct Place {
    used: usize,
    line: u64,
    filled: usize,
    goes: bool,
}

fn flush<W: io::Write>(output: &mut W, out: &[u8], n: usize) -> io::Result<()> {
    if out.len() < n {
        return Ok(());
    }
    output.write_all(&out[..n])
}

fn is_bad(r: Reply) -> bool
    ensures { result ≡ is_bad r }
{
    matches!(r, Reply::Bad)
}

fn reply_to(
    parents: &mut [u16; SITES],
    ranks: &mut [u8; SITES],
    count: &mut u16,
    members: &mut [u16],
    line: &[u8],
    used: usize,
) -> Reply
    ensures { let before = C.classes parents.old ranks.old count.old in
        let after = C.classes parents.new ranks.new count.new in
        (after, members.new, result) ≡ replied before members.old line.now used }
{
    if line.len() < used {
        return Reply::Bad;
    }
    class_script::step(parents, ranks, count, members, &line[..used])
}

// Writes the buffer out where it is half full: how much of it is filled then.
fn spare<W: io::Write>(output: &mut W, out: &[u8], n: usize) -> io::Result<usize>
    ensures after { IfOk result (λ filled. filled ≡ spared n) }
    ensures past { OnErr result (full < n) }
{
    if FULL < n {
        flush(output, out, n)?;
        return Ok(0);
    }
    Ok(n)
}

// The answer and its LF, behind the first n bytes: how many are filled then. The types say how long its numbers can be.
fn put_answer(out: &mut [u8], n: usize, members: &[u16], r: Reply, number: u64) -> usize
    ensures result_after { (out.new, result) ≡ wrote (out.old, n) (line_text members.now number r) }
    ensures in_range { InRange r × (number < 18446744073709551616) }
{
    let m = put_reply(out, n, members, r, number);
    put(out, m, b'\n')
}

// A line has ended. A write that failed comes after the call: the memory is as with one that did not.
fn end_line<W: io::Write>(
    output: &mut W,
    parents: &mut [u16; SITES],
    ranks: &mut [u8; SITES],
    count: &mut u16,
    members: &mut [u16],
    line: &[u8],
    out: &mut [u8],
    p: Place,
) -> io::Result<Place>
    ensures answered { let before = C.classes parents.old ranks.old count.old in
        let after = C.classes parents.new ranks.new count.new in
        let answered = Answered before after members.old members.new line.now out.old out.new p in
        IfOk result (λ q. answered q) }
    ensures unwritten { let before = C.classes parents.old ranks.old count.old in
        let after = C.classes parents.new ranks.new count.new in
        let answered = Answered before after members.old members.new line.now out.old out.new p in
        OnErr result ((q : Place) × (w : answered q) × (full < w.end)) }
{
    let r = reply_to(parents, ranks, count, members, line, p.used);
    let number = p.line;
    let n = put_answer(out, p.filled, members, r, number);
    let bad = is_bad(r);
    let next = number.wrapping_add(1);
    let filled = spare(output, out, n)?;
    Ok(Place {
        used: 0,
        line: next,
        filled,
        goes: !bad,
    })
}

// Keeps a byte of the open line after the `used` that are kept: how many are then. What passes LINE is not kept.
fn keep(line: &mut [u8], used: usize, b: u8) -> usize
    ensures { (line.new ≡ kept_line line.old used b) × (result ≡ kept_used line.old used) }
{
    if used < line.len() {
        line[used] = b;
        return used + 1;
    }
    LINE + 1
}

// A byte of the open line. What passes LINE makes the line bad.
fn hold(line: &mut [u8], p: Place, b: u8) -> Place
    ensures { Held line.old line.new b p result }
{
    let used = keep(line, p.used, b);
    Place {
        used,
        goes: true,
        ..p
    }
}

fn take<W: io::Write>(
    output: &mut W,
    parents: &mut [u16; SITES],
    ranks: &mut [u8; SITES],
    count: &mut u16,
    members: &mut [u16],
    line: &mut [u8],
    out: &mut [u8],
    p: Place,
    b: u8,
) -> io::Result<Place>
    ensures took { let before = C.classes parents.old ranks.old count.old in
        let after = C.classes parents.new ranks.new count.new in
        let from = stand before members.old line.old out.old p in
        let to = stand after members.new line.new out.new in
        IfOk result (λ q. Took b from (to q)) }
    ensures unwritten { let before = C.classes parents.old ranks.old count.old in
        let after = C.classes parents.new ranks.new count.new in
        let from = stand before members.old line.old out.old p in
        let to = stand after members.new line.new out.new in
        OnErr result ((q : Place) × Unwritten b from (to q)) }
{
    if b == b'\n' {
        return end_line(output, parents, ranks, count, members, line, out, p);
    }
    Ok(hold(line, p, b))
}

// The bytes that came, up to a line that is no call.
fn feed<W: io::Write>(
    output: &mut W,
    parents: &mut [u16; SITES],
    ranks: &mut [u8; SITES],
    count: &mut u16,
    members: &mut [u16],
    line: &mut [u8],
    out: &mut [u8],
    p: Place,
    bytes: &[u8],
) -> io::Result<Place>
    ensures fed { let before = C.classes parents.old ranks.old count.old in
        let after = C.classes parents.new ranks.new count.new in
        let from = stand before members.old line.old out.old p in
        let to = stand after members.new line.new out.new in
        IfOk result (λ q. Fed bytes.now from (to q)) }
    ensures unwritten { let before = C.classes parents.old ranks.old count.old in
        let after = C.classes parents.new ranks.new count.new in
        let from = stand before members.old line.old out.old p in
        let to = stand after members.new line.new out.new in
        OnErr result ((q : Place) × FedSome bytes.now from (to q)) }
    ensures cut { let before = C.classes parents.old ranks.old count.old in
        let after = C.classes parents.new ranks.new count.new in
        let from = stand before members.old line.old out.old p in
        let to = stand after members.new line.new out.new in
        OnErr result ((q : Place) × FedCut bytes.now from (to q)) }
{
    let mut q = p;
    for &b in bytes {
        if !q.goes {
            return Ok(q);
        }
        q = take(output, parents, ranks, count, members, line, out, q, b)?;
    }
    Ok(q)
}

// Reads once, and takes what came. At the end of the input the script ends too.
fn read_some<R: io::Read, W: io::Write>(
    input: &mut R,
    output: &mut W,
    parents: &mut [u16; SITES],
    ranks: &mut [u8; SITES],
    count: &mut u16,
    members: &mut [u16],
    line: &mut [u8],
    out: &mut [u8],
    bytes: &mut [u8],
    p: Place,
) -> io::Result<Place>
    ensures read { let before = C.classes parents.old ranks.old count.old in
        let after = C.classes parents.new ranks.new count.new in
        let from = stand before members.old line.old out.old p in
        let to = stand after members.new line.new out.new in
        IfOk result (λ q. Read from (to q)) }
    ensures stopped { let before = C.classes parents.old ranks.old count.old in
        let after = C.classes parents.new ranks.new count.new in
        let from = stand before members.old line.old out.old p in
        let to = stand after members.new line.new out.new in
        OnErr result ((q : Place) × (chunk : List ℕ) × FedSome chunk from (to q)) }
{
    let n = input.read(bytes)?;
    if n == 0 {
        return Ok(Place { goes: false, ..p });
    }
    feed(
        output,
        parents,
        ranks,
        count,
        members,
        line,
        out,
        p,
        &bytes[..n],
    )
}

// A proved loop has to end, and nothing says that the input does: no input has as many pieces.
fn run_all<R: io::Read, W: io::Write>(
    input: &mut R,
    output: &mut W,
    parents: &mut [u16; SITES],
    ranks: &mut [u8; SITES],
    count: &mut u16,
    members: &mut [u16],
    line: &mut [u8],
    out: &mut [u8],
    bytes: &mut [u8],
    p: Place,
) -> io::Result<Place>
    ensures ran { let before = C.classes parents.old ranks.old count.old in
        let after = C.classes parents.new ranks.new count.new in
        let from = stand before members.old line.old out.old p in
        let to = stand after members.new line.new out.new in
        IfOk result (λ q. Ran from (to q)) }
    ensures stopped { let before = C.classes parents.old ranks.old count.old in
        let after = C.classes parents.new ranks.new count.new in
        let from = stand before members.old line.old out.old p in
        let to = stand after members.new line.new out.new in
        OnErr result ((q : Place) × Stopped from (to q)) }
{
    let mut q = p;
    for _ in 0..u64::MAX {
        if !q.goes {
            return Ok(q);
        }
        q = read_some(
            input, output, parents, ranks, count, members, line, out, bytes, q,
        )?;
    }
    Ok(q)
}

// A last line that has no LF is no line. (After a bad line nothing is open.)
fn put_unended(out: &mut [u8], p: Place) -> usize
    ensures { (out.new, result) ≡ wrote (out.old, p.filled) (unended_text p.used p.line) }
{
    if p.used == 0 {
        return p.filled;
    }
    let n = put_text(out, p.filled, b"bad ");
    let m = put_decimal(out, n, p.line);
    put(out, m, b'\n')
}

// Answers the script that an open file has, in lent memory: `line` holds LINE bytes and `out` ROOM, so that no answer is cut. After a read or a write that failed
// the memory is as the bytes before it left it, or, where the last answers could not be written out, as all of them did.
pub fn run_in<R: io::Read, W: io::Write>(
    input: &mut R,
    output: &mut W,
    parents: &mut [u16; SITES],
    ranks: &mut [u8; SITES],
    count: &mut u16,
    members: &mut [u16],
    line: &mut [u8],
    out: &mut [u8],
    bytes: &mut [u8],
) -> io::Result<()>
    ensures whole { let after = C.classes parents.new ranks.new count.new in
        let lent = Whole members.old line.old out.old in
        OnOk result (lent after members.new line.new out.new) }
    ensures stopped { let after = C.classes parents.new ranks.new count.new in
        let from = stand C.no_classes members.old line.old out.old first_place in
        let to = stand after members.new line.new out.new in
        let lent = Whole members.old line.old out.old in
        OnErr result (((q : Place) × Stopped from (to q)) ⊎ lent after members.new line.new out.new) }
{
    classes::clear_in(parents, ranks, count);
    let p = Place {
        used: 0,
        line: 1,
        filled: 0,
        goes: true,
    };
    let q = run_all(
        input, output, parents, ranks, count, members, line, out, bytes, p,
    )?;
    let n = put_unended(out, q);
    flush(output, out, n)
}
