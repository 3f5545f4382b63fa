// Looking through a table of slots of 32 bytes, a length byte and then a body: for a body, or for four bytes at one place of a slot. A search is mostly
// passing over slots, so that goes by eight.
#![tactic(auto)]

ghost use Rattle.std.specs.Prelude.{◌≡◌, ℕ, ◌+◌, ◌-◌, ◌*◌, ◌≤◌, ◌<◌, length, ◌∷◌};
ghost use Rattle.site_slots.specs.Seeking.{slot, quad, four_at, Finds, Same, Tells, Skips, Passed, Reach, Onward, Seeks};

pub const SLOT: usize = 32;

// Four bytes as one number, as they stand in memory.
pub fn quad(a: u8, b: u8, c: u8, d: u8) -> u32
    ensures { result ≡ quad a b c d }
{
    u32::from(a) + 256 * u32::from(b) + 65536 * u32::from(c) + 16777216 * u32::from(d)
}

// For the machine this is one read.
fn four(m: &[u8], at: usize) -> u32
    requires { at + 4 ≤ length m.now }
    ensures { result ≡ four_at m.now at }
{
    quad(m[at], m[at + 1], m[at + 2], m[at + 3])
}

// Of four slots, how many come before the first that has the key at its place. The first's place is `at`.
fn of_four(m: &[u8], at: usize, key: u32) -> usize
    requires { at + 100 ≤ length m.now }
    ensures { Passed m.now at key 4 result }
{
    if four(m, at) == key {
        return 0;
    }
    if four(m, at + SLOT) == key {
        return 1;
    }
    if four(m, at + 2 * SLOT) == key {
        return 2;
    }
    if four(m, at + 3 * SLOT) == key {
        return 3;
    }
    4
}

// The same of eight.
fn of_eight(m: &[u8], at: usize, key: u32) -> usize
    requires { at + 228 ≤ length m.now }
    ensures { Passed m.now at key 8 result }
{
    let p = of_four(m, at, key);
    if p < 4 {
        return p;
    }
    4 + of_four(m, at + 4 * SLOT, key)
}

// How many of the first slots have their place inside the bytes.
fn reach(m: &[u8], off: usize, to: usize) -> usize
    requires { off < 256 }
    ensures { Reach m.now off to result }
{
    if m.len() < off + 4 {
        return 0;
    }
    let n = (m.len() - off - 4) / SLOT + 1;
    if n < to {
        return n;
    }
    to
}

// Goes on by eight slots, up to one that has the key or to where less than eight are left.
fn by_eight(m: &[u8], off: usize, from: usize, to: usize, key: u32) -> usize
    requires { (from < 65536) × (to < 65536) × (off < 256) × ((i : ℕ) → i < to → i * slot + off + 4 ≤ length m.now) }
    ensures { Onward m.now off from to key result }
{
    let blocks = to.saturating_sub(from) / 8;
    for block in 0..blocks {
        let i = from + 8 * block;
        let p = of_eight(m, i * SLOT + off, key);
        if p < 8 {
            return i + p;
        }
    }
    from + 8 * blocks
}

// The first slot, of those from `from` on and below `to`, that has the key's four bytes at its byte `off`; `to` where none has, or where `to` is below
// `from`. A slot whose four bytes are not all there has none.
pub fn seek(m: &[u8], off: u8, from: u16, to: u16, key: u32) -> u16
    ensures { Seeks m.now off from to key result }
{
    let place = off as usize;
    let n = reach(m, place, usize::from(to));
    for i in by_eight(m, place, usize::from(from), n, key)..n {
        if four(m, i * SLOT + place) == key {
            return i as u16;
        }
    }
    to
}

fn same_from(m: &[u8], at: usize, b: &[u8]) -> bool
    requires { at + length b.now ≤ length m.now }
    ensures { Same m.now at b.now result }
{
    // Byte by byte: bodies are short, and the library's `starts_with` takes 2.3 times the time for two bytes.
    for j in 0..b.len() {
        if m[at + j] != b[j] {
            return false;
        }
    }
    true
}

// Is b in slot i?
fn holds(m: &[u8], i: u16, b: &[u8]) -> bool
    requires { (i * slot + slot ≤ length m.now) × (length b.now < slot) }
    ensures { Tells m.now i b.now result }
{
    let at = usize::from(i) * SLOT;
    if u32::from(m[at]) != b.len() as u32 {
        return false;
    }
    same_from(m, at + 1, b)
}

// How many of the slots are whole.
fn whole_slots(m: &[u8], count: u16) -> u16
    ensures { (result ≤ count) × (result * slot ≤ length m.now) × (result < count → length m.now < result * slot + slot) }
{
    let n = m.len() / SLOT;
    if n < usize::from(count) {
        return n as u16;
    }
    count
}

// The four bytes with which the length and b end.
fn ending(b: &[u8]) -> u32
    requires { 3 ≤ length b.now }
    ensures { result ≡ four_at (length b.now ∷ b.now) (length b.now - 3) }
{
    let n = b.len();
    if n == 3 {
        return quad(3, b[0], b[1], b[2]);
    }
    quad(b[n - 4], b[n - 3], b[n - 2], b[n - 1])
}

// The first slot from `from` on and below n that holds b.
fn one_by_one(m: &[u8], from: u16, n: u16, b: &[u8]) -> u16
    requires { (from ≤ n) × (n * slot ≤ length m.now) × (length b.now < slot) }
    ensures { Skips m.now from n b.now result }
{
    for i in from..n {
        if holds(m, i, b) {
            return i;
        }
    }
    n
}

// The first slot from `from` on and below n that may hold b. The last four bytes tell most slots apart; a body of less than three is too short for that.
fn candidate(m: &[u8], from: u16, n: u16, b: &[u8]) -> u16
    requires { (from ≤ n) × (n * slot ≤ length m.now) × (length b.now < slot) }
    ensures { Skips m.now from n b.now result }
{
    if b.len() < 3 {
        return one_by_one(m, from, n, b);
    }
    seek(m, (b.len() - 3) as u8, from, n, ending(b))
}

// The first slot, of so many, that holds b; their count where none does.
pub fn find(m: &[u8], count: u16, b: &[u8]) -> u16
    ensures { Finds m.now count b.now result }
{
    if SLOT <= b.len() {
        return count;
    }
    let n = whole_slots(m, count);
    let mut i = candidate(m, 0, n, b);
    while i < n {
        if holds(m, i, b) {
            return i;
        }
        i = candidate(m, i + 1, n, b);
    }
    count
}
