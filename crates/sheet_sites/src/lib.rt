// A set up to its first rule: 01 begins it, 02 gives it a site.
#![tactic(auto)]

ghost use Rattle.std.specs.Prelude.{◌≡◌, List, ℕ, ◌-◌, length, take, drop};
ghost use Rattle.std.proofs.Math.Option.{some};
ghost use Rattle.paper.specs.Sites.{Site};
ghost use Rattle.paper.specs.Layout.{whole, site_read, begin_set, a_site};
ghost use Rattle.paper.specs.Sheets as paper;
ghost use Rattle.term_table.specs.Table.{Square};
ghost use Rattle.sheet_reader.specs.State.{Lent, lent, Tells, Ready};
ghost use Rattle.sheet_reader.specs.Answers.{Acts};
ghost use Rattle.sheet_reader.specs.Leaves.{after};
ghost use Rattle.sheet_sites.specs.Numbers.{next_of};
ghost use Rattle.sheet_sites.specs.Leaves.{begin_in, site_in, site_line_in};

use paper::Refusal;
use sheet_ended::may_begin;
use sheet_reader::{Event, OpenSet, Reader, Stands, Stepped, on, outside, site_set, stop};
use sites::{Numbered, add};

// One site more.
fn next(n: u16) -> u16
    ensures { result ≡ next_of n }
{
    n.saturating_add(1)
}

// 01: 9 for a term used before, then 27, 28.
pub fn begin_frame(r: Reader, term: u16, flags: u8, room: &mut [u8], at: usize) -> Stepped
    ensures room_after { (k : Lent) → after result k room.new ≡ begin_in r k room.old at term flags }
    ensures acts { Ready r room.old at → (k : Lent) (p : paper.Ended) →
        Tells r k p → Acts r k k room.old room.new at p (begin_set term flags) result }
{
    let line = r.line;
    if !outside(r.stands) {
        return stop(r, Refusal::Layout { line }, room, at);
    }
    if let Err(why) = may_begin(r.ended, term, line) {
        return stop(r, why, room, at);
    }
    let set = OpenSet {
        term,
        flags,
        sites: 0,
        rules: 0,
    };
    on(r, Stands::Sites(set), Event::Begun, at)
}

// 02: 9 for a site that the set has, then 2, 21, 28, 20. A site that the set has earns none of the four.
fn site_frame(r: Reader, body: &[u8], m: &mut [u8], room: &mut [u8], at: usize) -> Stepped
    ensures by_index { (w i : List ℕ) (t : Square) → after result (lent m.new w i t) room.new
        ≡ site_in r (lent m.old w i t) room.old at body.now }
    ensures acts { Ready r room.old at → (w i : List ℕ) (t : Square) (p : paper.Ended) (x : Site) →
        let k = lent m.old w i t in
        let k' = lent m.new w i t in
        whole (site_read body.now) ≡ some x → Tells r k p → Acts r k k' room.old room.new at p (a_site x) result }
{
    let line = r.line;
    let Some(set) = site_set(r.stands) else {
        return stop(r, Refusal::Layout { line }, room, at);
    };
    match add(m, set.sites, body, line) {
        Ok(Numbered::Known(_)) => stop(r, Refusal::Repeated { line }, room, at),
        Err(why) => stop(r, why, room, at),
        Ok(Numbered::Fresh(_)) => {
            let more = OpenSet {
                sites: next(set.sites),
                ..set
            };
            on(r, Stands::Sites(more), Event::Site, at)
        }
    }
}

// 02: the body stands behind the frame's first byte.
pub fn site_line(r: Reader, bytes: &[u8], m: &mut [u8], room: &mut [u8], at: usize) -> Stepped
    ensures by_index { (w i : List ℕ) (t : Square) → after result (lent m.new w i t) room.new
        ≡ site_line_in r (lent m.old w i t) room.old at bytes.now }
    ensures acts { Ready r room.old at → (w i : List ℕ) (t : Square) (p : paper.Ended) (x : Site) →
        let k = lent m.old w i t in
        let k' = lent m.new w i t in
        let body = take (length bytes.now - 1) (drop 1 bytes.now) in
        whole (site_read body) ≡ some x → Tells r k p → Acts r k k' room.old room.new at p (a_site x) result }
{
    if bytes.is_empty() {
        return stop(r, Refusal::Layout { line: r.line }, room, at);
    }
    site_frame(r, &bytes[1..], m, room, at)
}
