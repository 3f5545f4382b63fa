// Lines of a sheet that comes in pieces: where a line ends, what is held of one that goes on in the next piece, and a line cut out.
#![tactic(auto)]

ghost use Rattle.std.specs.Prelude.{◌≡◌, List, [], ◌++◌, ℕ, min, drop};
ghost use Rattle.sheet_lines.specs.Cut.{part_of, held_rest, Fits, line_from, cut_at};
ghost use Rattle.sheet_lines.specs.Ends.{line_end};
ghost use Rattle.sheet_lines.specs.Held.{Holds, held_in, no_line, held_more};

// "each ended by LF"
pub const LINE_FEED: u8 = 10;

// One byte more than a line may have: a line that is too long stays too long.
pub const HELD: usize = paper::DIGITS + 1;

// What came of a line in earlier pieces: its first HELD bytes.
#[derive(Clone, Copy)]
pub struct Held {
    pub length: usize,
    pub bytes: [u8; HELD],
}

// The end of the line that begins at `from`.
pub fn line_end(s: &[u8], from: usize) -> Option<usize>
    ensures { result ≡ line_end from (drop from s.now) }
{
    for i in from..s.len() {
        if s[i] == LINE_FEED {
            return Some(i);
        }
    }
    None
}

// Nothing held.
pub fn nothing() -> Held
    ensures { (result ≡ no_line) × Holds result [] }
{
    Held {
        length: 0,
        bytes: [0; HELD],
    }
}

// More of the line that is held.
pub fn hold(h: Held, s: &[u8]) -> Held
    ensures { (result ≡ held_more h s.now) × Holds result (held_in h ++ s.now) }
{
    let mut bytes = h.bytes;
    if HELD < h.length {
        return Held {
            length: HELD,
            bytes: bytes,
        };
    }
    let n = h.length;
    let k = s.len().min(HELD - n);
    bytes[n..n + k].copy_from_slice(&s[..k]);
    Held {
        length: n + k,
        bytes: bytes,
    }
}

// ---- a line cut out of a piece

// s from a to b; nothing where that is not there
#[tactic(auto, unfolding(crate::specs::Cut::part_of))]
pub fn part(s: &[u8], a: usize, b: usize) -> &[u8]
    ensures { result.now ≡ part_of s.now a b }
{
    s.get(a..b).unwrap_or(&[])
}

// What was held of a line, with its rest. Where nothing was held nothing is copied: the line lies in the piece.
fn with_rest(h: Held, rest: &[u8]) -> Held
    ensures { (result ≡ held_rest h rest.now) × Fits result }
{
    if h.length == 0 {
        return h;
    }
    hold(h, rest)
}

// Where the line ends in its piece, or the piece does where it is unended; and what is held of it.
#[derive(Clone, Copy)]
pub struct Cut {
    pub unended: bool,
    pub to: usize,
    pub held: Held,
}

// The line that begins at `from`, of which h was held.
pub fn cut_line(h: Held, piece: &[u8], from: usize) -> Cut
    ensures { (result ≡ cut_at h piece.now from) × Fits result.held }
{
    let end = line_end(piece, from);
    match end {
        Some(e) => Cut {
            unended: false,
            to: e,
            held: with_rest(h, part(piece, from, e)),
        },
        None => Cut {
            unended: true,
            to: piece.len(),
            held: hold(h, part(piece, from, piece.len())),
        },
    }
}

// A line that was cut: the bytes that are held of it; or, where none are, the part of the piece that it is.
pub fn line_of<'a>(before: &'a [u8], here: &'a [u8]) -> &'a [u8]
    ensures { result.now ≡ line_from before.now here.now }
{
    if 0 < before.len() {
        return before;
    }
    here
}
