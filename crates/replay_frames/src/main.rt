// Reads lines from standard input and writes what each is: the frame's number and its fields, or `bad`. The input is taken in small pieces,
// so that most lines are held from one piece to the next.
#![tactic(auto)]

use paper::{Constraint, Item};
use sheet_frames::Frame;
use sheet_lines::{HELD, Held, hold, line_end, nothing};
use std::io::{self, Read};

fn show_constraint<W: io::Write>(output: &mut W, c: Constraint) -> io::Result<()> {
    match c {
        Constraint::Variant {
            ty,
            variant,
            fields,
        } => write!(output, " variant {ty} {variant} {fields}"),
        Constraint::Struct { ty, fields } => write!(output, " struct {ty} {fields}"),
        Constraint::ConstBool { ty, val } => {
            let val = u8::from(val);
            write!(output, " bool {ty} {val}")
        }
        Constraint::ConstInt { ty, high, low } => write!(output, " int {ty} {high} {low}"),
        Constraint::ConstPrim { val } => write!(output, " prim {val}"),
        Constraint::Some => output.write_all(b" some"),
    }
}

fn show_item<W: io::Write>(output: &mut W, i: Item) -> io::Result<()> {
    match i {
        Item::Is { site, constraint } => {
            write!(output, "04 {site}")?;
            show_constraint(output, constraint)
        }
        Item::Equal { one, other } => write!(output, "05 {one} {other}"),
    }
}

// The body of a site, as digits, with the end of the line.
fn show_body<W: io::Write>(output: &mut W, s: &[u8]) -> io::Result<()> {
    let mut out = [0u8; 80];
    let Some(e) = sheet_findings::write_line(s, &mut out, 0) else {
        return Ok(());
    };
    output.write_all(b"02 ")?;
    if out.len() < e {
        return Ok(());
    }
    output.write_all(&out[..e])
}

fn show<W: io::Write>(output: &mut W, line: &[u8]) -> io::Result<()> {
    let got = sheet_frames::read_line(line);
    match got.frame {
        Frame::Begin { term, flags } => write!(output, "01 {term} {flags}")?,
        Frame::Site => {
            if got.length == 0 {
                return Ok(());
            }
            return show_body(output, &got.bytes[1..got.length]);
        }
        Frame::Rule {
            place,
            priority,
            count,
        } => write!(output, "03 {place} {priority} {count}")?,
        Frame::Item(i) => show_item(output, i)?,
        Frame::End => output.write_all(b"06")?,
        Frame::Wrong => output.write_all(b"bad")?,
    }
    output.write_all(b"\n")
}

// A piece: shows the lines that end in it, and answers what is held of the next.
#[tactic(auto, using(sheet_lines::specs::Cut::line_inside))]
fn feed<W: io::Write>(output: &mut W, h: Held, s: &[u8]) -> io::Result<Held> {
    let mut held = h;
    let mut from = 0;
    while let Some(e) = line_end(s, from) {
        let line = hold(held, &s[from..e]);
        if line.length <= HELD {
            show(output, &line.bytes[..line.length])?;
        }
        held = nothing();
        from = e + 1;
    }
    Ok(hold(held, &s[from..]))
}

// A proved loop has to end, and nothing says that a file does: the turns count up to a number that no run reaches.
fn main(rt: HostRuntime) -> io::Result<()> {
    let mut input = rt.stdin();
    let mut output = rt.stdout();
    let mut held = nothing();
    let mut buf = [0u8; 48];
    for _ in 0..u64::MAX {
        let n = input.read(&mut buf)?;
        if n == 0 {
            return Ok(());
        }
        held = feed(&mut output, held, &buf[..n])?;
    }
    Ok(())
}
