// A set's sites in lent memory: slots of 32 bytes, a length byte and then the sheet body, kind byte first. (The Rust's `dedup_binding`.)
#![tactic(auto)]

ghost use Rattle.std.specs.Prelude.{◌≡◌, suc, ◌+◌, ◌*◌, ◌≤◌, ◌<◌, min, length, drop, ◌∷◌, map};
ghost use Rattle.paper.specs.Words.{joined};
ghost use Rattle.paper.specs.Numbers.{max_unfolding};
ghost use Rattle.paper.specs.declared.Refusal.TheVariants.{UnfoldingTooLong};
ghost use Rattle.paper.specs.Sites.{number_of, lower_only, unfold_answer};
ghost use Rattle.site_body.specs.Body.{words, site_of, found_as};
ghost use Rattle.sites.specs.Slots.{slot, slot_body, sites_in, Findable, added_in, numbered_as, after_add, put, unfolded_in, unfolded_as, after_unfold, Writes};

use paper::{Refusal, SITES, UNFOLDING};
use site_body::{is_body, judge, many_of, off_of, word_at};

pub const SLOT: usize = site_slots::SLOT;

#[derive(Clone, Copy)]
pub enum Numbered {
    // It was there.
    Known(u16),
    // It is new.
    Fresh(u16),
}

// The body in slot i, as a part of the lent bytes.
pub fn body<'a>(m: &'a [u8], i: u16) -> &'a [u8]
    ensures { result.now ≡ slot_body m.now i }
{
    let at = usize::from(i) * SLOT;
    if m.len() < at + SLOT {
        return &m[..0];
    }
    let n = usize::from(m[at]);
    if SLOT <= n {
        return &m[..0];
    }
    &m[at + 1..at + 1 + n]
}

// The number of the body b among the first sites.
fn find(m: &[u8], count: u16, b: &[u8]) -> Option<u16>
    requires { Findable b.now }
    ensures { result ≡ found_as (number_of (sites_in m.now count) (site_of b.now)) }
{
    let i = site_slots::find(m, count, b);
    if i < count { Some(i) } else { None }
}

fn put_at(m: &mut [u8], at: usize, s: &[u8])
    requires { at + length s.now ≤ length m.old }
    ensures { m.new ≡ put m.old at s.now }
{
    let mut j = 0;
    // A while, for the C interface: the header says that the archive asks the linker for memcpy and memset alone, and `copy_from_slice` asks for memmove here.
    while j < s.len() {
        m[at + j] = s[j];
        j += 1;
    }
}

// Writes the body b into slot n.
fn store(m: &mut [u8], n: u16, b: &[u8])
    requires { (n * slot + slot ≤ length m.old) × (length b.now < slot) }
    ensures { m.new ≡ put m.old (n * slot) (length b.now ∷ b.now) }
{
    let at = usize::from(n) * SLOT;
    m[at] = b.len() as u8;
    put_at(m, at + 1, b);
}

// Adds the site whose body is b to the first sites of m. `at` is the item or the line that asks.
pub fn add(m: &mut [u8], count: u16, b: &[u8], at: u32) -> Result<Numbered, Refusal>
    ensures { let added = added_in m.old count at b.now in
        (result ≡ numbered_as count added) × (m.new ≡ after_add m.old count added) }
{
    judge(b, count, at)?;
    let n = usize::from(count);
    if let Some(i) = find(m, count, b) {
        if m.len() < n * SLOT {
            return Err(Refusal::TooManySites {
                asked: u32::from(count),
                at,
            });
        }
        return Ok(Numbered::Known(i));
    }
    if SITES <= n || m.len() < (n + 1) * SLOT {
        return Err(Refusal::TooManySites {
            asked: u32::from(count) + 1,
            at,
        });
    }
    store(m, count, b);
    Ok(Numbered::Fresh(count))
}

// Writes s from `at` on, if the room reaches that far.
fn write(out: &mut [u8], at: usize, s: &[u8]) -> Option<usize>
    requires { at ≤ length out.old }
    ensures { Writes out.old at s.now result out.new }
{
    if out.len() - at < s.len() {
        return None;
    }
    put_at(out, at, s);
    Some(at + s.len())
}

// Writes the unfolding of site s from `at` on.
#[cycle(unfold_site_unfold_sources)]
fn unfold_site(m: &[u8], s: u16, out: &mut [u8], at: usize) -> Option<usize>
    requires { at ≤ length out.old }
    ensures { Writes out.old at (unfolded_in m.now s) result out.new }
{
    let b = body(m, s);
    if !is_body(b) {
        let alone = [6u8];
        return write(out, at, &alone);
    }
    let off = off_of(b);
    let many = many_of(b);
    let e = write(out, at, &b[..off])?;
    let f = unfold_sources(m, s, b, off, many, out, e)?;
    write(out, f, &b[off + 2 * many..])
}

// Writes the unfoldings of the sources of site s that are left, two bytes each from `from` on in its body b. One that is not lower writes nothing.
#[cycle(unfold_site_unfold_sources)]
fn unfold_sources(
    m: &[u8],
    s: u16,
    b: &[u8],
    from: usize,
    left: usize,
    out: &mut [u8],
    at: usize,
) -> Option<usize>
    requires { (at ≤ length out.old) × (from + 2 * left ≤ length b.now) × (left < 256) }
    ensures { let rest = words left (drop from b.now) in
        Writes out.old at (joined (map (lower_only s (unfolded_in m.now)) rest)) result out.new }
{
    if left == 0 {
        return Some(at);
    }
    let t = word_at(b, from);
    if s <= t {
        return unfold_sources(m, s, b, from + 2, left - 1, out, at);
    }
    let e = unfold_site(m, t, out, at)?;
    unfold_sources(m, s, b, from + 2, left - 1, out, e)
}

// An unfolding that passes the lower of 4,096 bytes and the room. The asking stops at the first byte past it, which is told.
fn too_long(room: usize) -> Refusal
    ensures { result ≡ UnfoldingTooLong (suc (min max_unfolding room)) }
{
    Refusal::UnfoldingTooLong {
        asked: UNFOLDING.min(room) as u32 + 1,
    }
}

// Writes the unfolding of site s of so many into the room, from its start on. What is refused leaves the room as it was, so the work is done aside.
pub fn unfold(m: &[u8], count: u16, s: u16, room: &mut [u8]) -> Result<usize, Refusal>
    ensures { let answer = unfold_answer (sites_in m.now count) (length room.old) s in
        (result ≡ unfolded_as answer) × (room.new ≡ after_unfold room.old answer) }
{
    if count <= s {
        return Err(Refusal::Unknown { site: s });
    }
    let over = too_long(room.len());
    let mut aside = [0u8; UNFOLDING];
    let Some(e) = unfold_site(m, s, &mut aside, 0) else {
        return Err(over);
    };
    if room.len() < e {
        return Err(over);
    }
    put_at(room, 0, &aside[..e]);
    Ok(e)
}
