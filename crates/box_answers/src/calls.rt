// What the calls beneath answer, each kind of answer as a number with its words.
// (Each kind has a function of its own, with a contract that the exported calls cite; `same_said` and `joined_said` differ in which call they answer.)
ghost use Rattle.std.specs.Prelude.{◌≡◌};
ghost use Rattle.box_answers.specs.Border.{looked_said, sought_said, joined_said, same_said, taken_said, numbered_said, unfolded_said, added_said, overlap_word, reported_said};
ghost use Rattle.box_answers.specs.Loads.{loaded_said};

use crate::{Said, bit, crowded, done, found_word, refused};
use classes::{Trail, Untaken};
use paper::{Overlap, Refusal};
use report::Unreported;
use sites::Numbered;

#[tactic(auto, unfolding(crate::specs::Border::looked_said))]
fn trail_said(t: Trail) -> Said
    ensures { result ≡ looked_said (Ok t) }
{
    done(found_word(t.found), u64::from(t.links))
}

#[tactic(auto, unfolding(crate::specs::Border::looked_said))]
pub fn looked_said(l: Result<Trail, Refusal>) -> Said
    ensures { result ≡ looked_said l }
{
    l.map_or_else(refused, trail_said)
}

#[tactic(auto, unfolding(crate::specs::Border::sought_said))]
pub fn sought_said(l: Result<Option<u16>, Refusal>) -> Said
    ensures { result ≡ sought_said l }
{
    l.map_or_else(refused, |f| done(found_word(f), 0))
}

#[tactic(auto, unfolding(crate::specs::Border::joined_said))]
pub fn joined_said(j: Result<bool, Refusal>) -> Said
    ensures { result ≡ joined_said j }
{
    j.map_or_else(refused, |b| done(bit(b), 0))
}

#[tactic(auto, unfolding(crate::specs::Border::same_said))]
pub fn same_said(e: Result<bool, Refusal>) -> Said
    ensures { result ≡ same_said e }
{
    e.map_or_else(refused, |b| done(bit(b), 0))
}

#[tactic(auto, unfolding(crate::specs::Border::taken_said))]
pub fn taken_said(t: Result<usize, Untaken>) -> Said
    ensures { result ≡ taken_said t }
{
    match t {
        Ok(n) => done(n as u64, 0),
        Err(Untaken::Refused(r)) => refused(r),
        Err(Untaken::Short) => crowded(),
    }
}

#[tactic(auto, unfolding(crate::specs::Border::numbered_said))]
pub fn numbered_said(n: Result<Numbered, Refusal>) -> Said
    ensures { result ≡ numbered_said n }
{
    match n {
        Ok(Numbered::Known(i)) => done(u64::from(i), 0),
        Ok(Numbered::Fresh(i)) => done(u64::from(i), 1),
        Err(r) => refused(r),
    }
}

#[tactic(auto, unfolding(crate::specs::Border::unfolded_said))]
pub fn unfolded_said(u: Result<usize, Refusal>) -> Said
    ensures { result ≡ unfolded_said u }
{
    u.map_or_else(refused, |n| done(n as u64, 0))
}

#[tactic(auto, unfolding(crate::specs::Border::added_said))]
pub fn added_said(a: Result<(), Refusal>) -> Said
    ensures { result ≡ added_said a }
{
    a.map_or_else(refused, |()| done(0, 0))
}

pub fn overlap_word(o: Overlap) -> u64
    ensures { result ≡ overlap_word o }
{
    match o {
        Overlap::No => 0,
        Overlap::Yes => 1,
        Overlap::Subset => 2,
    }
}

#[tactic(auto, unfolding(crate::specs::Border::reported_said, paper::specs::Numbers::number, paper::specs::Numbers::told))]
pub fn reported_said(r: Result<u32, Unreported>) -> Said
    ensures { result ≡ reported_said r }
{
    match r {
        Ok(n) => done(u64::from(n), 0),
        Err(Unreported::TooManyRules(n)) => refused(Refusal::TooManyRules { asked: n }),
        Err(Unreported::NoRoom) => crowded(),
    }
}

#[tactic(auto, unfolding(crate::specs::Loads::loaded_said))]
pub fn loaded_said(l: Result<u16, Refusal>) -> Said
    ensures { result ≡ loaded_said l }
{
    l.map_or_else(refused, |n| done(u64::from(n), 0))
}
