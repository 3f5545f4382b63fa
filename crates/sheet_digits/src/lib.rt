// Bytes as upper-case hexadecimal digits, written into lent room: every line of findings and every text stands on these. Past the end of the room
// nothing is stored.
#![tactic(auto)]

ghost use Rattle.std.specs.Prelude.{◌≡◌, List, [], ◌∷◌, ℕ, ◌+◌, ◌*◌, ◌^◌, ◌<◌, ◌/◌, ◌%◌, length, set};
ghost use Rattle.std.proofs.lemmas.List.Edits.{sets};
ghost use Rattle.paper.specs.Words.{two, four};
ghost use Rattle.paper.specs.Layout.{digit_of};
ghost use Rattle.sheet_digits.specs.Digits.{digits_of};

// A digit.
fn digit(v: u8) -> u8
    requires { v < 16 }
    ensures { result ≡ digit_of v }
{
    if v < 10 {
        return v + 48;
    }
    v + 55
}

// The digit of a byte's higher half.
pub fn high_digit(b: u8) -> u8
    ensures { result ≡ digit_of (b / 16) }
{
    digit(b / 16)
}

// The digit of its lower half.
pub fn low_digit(b: u8) -> u8
    ensures { result ≡ digit_of (b % 16) }
{
    digit(b % 16)
}

fn put(room: &mut [u8], at: usize, v: u8)
    ensures { room.new ≡ set room.old at v }
{
    if at < room.len() {
        room[at] = v;
    }
}

// A byte, two digits.
pub fn write_byte(room: &mut [u8], at: usize, b: u8)
    ensures { room.new ≡ sets room.old at (digits_of (b ∷ [])) }
{
    put(room, at, high_digit(b));
    if room.len() <= at {
        return;
    }
    put(room, at + 1, low_digit(b));
}

pub fn put_byte(room: &mut [u8], at: u32, b: u8)
    ensures { room.new ≡ sets room.old at (digits_of (b ∷ [])) }
{
    write_byte(room, at as usize, b);
}

// Bytes, two digits each.
pub fn write_bytes(room: &mut [u8], at: usize, bytes: &[u8])
    ensures { room.new ≡ sets room.old at (digits_of bytes.now) }
{
    for k in 0..bytes.len() {
        write_byte(room, at.saturating_add(2 * k), bytes[k]); // past the end nothing is stored
    }
}

// A number of two bytes.
pub fn put_two(room: &mut [u8], at: u32, v: u16)
    ensures { room.new ≡ sets room.old at (digits_of (two v)) }
{
    write_bytes(room, at as usize, &v.to_be_bytes());
}

// A number of four bytes.
pub fn put_four(room: &mut [u8], at: u32, v: u32)
    ensures { room.new ≡ sets room.old at (digits_of (four v)) }
{
    write_bytes(room, at as usize, &v.to_be_bytes());
}

// The end of the line.
pub fn put_end(room: &mut [u8], at: u32)
    ensures { room.new ≡ set room.old at 10 }
{
    put(room, at as usize, 10);
}
