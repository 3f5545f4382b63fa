// The classes as one struct, by value; `lent` has the same calls on the struct lent by reference. Each stands on the call over lent parts in `classes`.
#![tactic(auto)]

ghost use Rattle.std.specs.Prelude.{◌≡◌, replicate};
ghost use Rattle.paper.specs.Numbers.{max_sites};
ghost use Rattle.paper.specs.Classes as C;
ghost use Rattle.classes.specs.Answers.{looked, sought, joined, same, taken};
ghost use Rattle.class_struct.specs.Fields.{of};

use classes::{NEVER, Trail, Untaken};
use paper::{Refusal, SITES};

pub mod lent;

#[derive(Drop)]
pub struct Classes {
    parents: [u16; SITES],
    ranks: [u8; SITES],
    count: u16,
}

// The struct after a call, with its answer.
#[derive(Drop)]
pub struct AfterFind {
    pub classes: Classes,
    pub answer: Result<Option<u16>, Refusal>,
}

#[derive(Drop)]
pub struct AfterMerge {
    pub classes: Classes,
    pub answer: Result<bool, Refusal>,
}

#[derive(Drop)]
pub struct AfterRemove {
    pub classes: Classes,
    pub members: [u16; SITES],
    pub answer: Result<usize, Untaken>,
}

pub fn empty() -> Classes
    ensures { of result ≡ C.no_classes }
{
    Classes {
        parents: [NEVER; SITES],
        ranks: [0u8; SITES],
        count: 0,
    }
}

pub fn find(c: Classes, x: u16) -> Result<Trail, Refusal>
    ensures { result ≡ looked (C.find (of c) x) }
{
    classes::find_in(&c.parents, x)
}

pub fn find_mut(mut c: Classes, x: u16) -> AfterFind
    ensures { (of result.classes, result.answer) ≡ sought (of c) x }
{
    let answer = classes::find_mut_in(&mut c.parents, x);
    AfterFind { classes: c, answer }
}

pub fn merge(mut c: Classes, x: u16, y: u16) -> AfterMerge
    ensures { (of result.classes, result.answer) ≡ joined (of c) x y }
{
    let answer = classes::merge_in(&mut c.parents, &mut c.ranks, &mut c.count, x, y);
    AfterMerge { classes: c, answer }
}

pub fn in_same_set(c: Classes, x: u16, y: u16) -> Result<bool, Refusal>
    ensures { result ≡ same (C.in_same_set (of c) x y) }
{
    classes::in_same_set_in(&c.parents, x, y)
}

pub fn remove_set_of(mut c: Classes, x: u16) -> AfterRemove
    ensures { (of result.classes, result.members, result.answer) ≡ taken (of c) (replicate max_sites 0) x }
{
    let mut members = [0u16; SITES];
    let answer = class_removal::remove_set_of_in(&mut c.parents, &mut c.count, x, &mut members);
    AfterRemove {
        classes: c,
        members,
        answer,
    }
}

pub fn len(c: Classes) -> u16
    ensures { result ≡ C.len (of c) }
{
    c.count
}

pub fn is_empty(c: Classes) -> bool
    ensures { result ≡ C.is_empty (of c) }
{
    c.count == 0
}
