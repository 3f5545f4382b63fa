// A line of a sheet: its digits to bytes, and its bytes to a frame.
#![tactic(auto)]

ghost use Rattle.std.specs.Prelude.{◌≡◌, ◌≤◌};
ghost use Rattle.sheet_frames.specs.Said.{max_bytes, reading_of};

pub mod digits;
pub mod layout;

use paper::Item;

// The bytes of a line: "at most 64 digits", two to a byte.
pub const BYTES: usize = paper::DIGITS / 2;

// The bytes that digits write, and 0 from there on. Where they write none, `right` is false and every byte is 0. No Option: `bytes_of` promises every
// field (`bytes_said`).
#[derive(Clone, Copy)]
pub struct Bytes {
    pub right: bool,
    pub length: usize,
    pub bytes: [u8; BYTES],
}

// What a line says. Of a site only that it is one: its body, the kind first, stays in the line's bytes, behind the first.
#[derive(Clone, Copy)]
pub enum Frame {
    Begin {
        term: u16,
        flags: u8,
    },
    Site,
    Rule {
        place: u32,
        priority: u64,
        count: u8,
    },
    Item(Item),
    End,
    Wrong,
}

// A line that was read: its frame, and its bytes as in `Bytes`.
#[derive(Clone, Copy)]
pub struct Read {
    pub frame: Frame,
    pub length: usize,
    pub bytes: [u8; BYTES],
}

// A line, without its LF.
pub fn read_line(line: &[u8]) -> Read
    ensures { (result ≡ reading_of line.now) × (result.length ≤ max_bytes) }
{
    let mut bytes = [0u8; BYTES];
    let Some(length) = digits::take_bytes(line, &mut bytes) else {
        return Read {
            frame: Frame::Wrong,
            length: 0,
            bytes: [0; BYTES],
        };
    };
    let frame = layout::frame_of(&bytes[..length]);
    Read {
        frame,
        length,
        bytes,
    }
}
