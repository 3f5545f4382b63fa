// The struct lent by reference: "Joins and finds change the one set of classes where it stands". Its fields are lent on to the functions on parts,
// and nothing is copied. `in_turn` makes the four calls one after the other, on one struct.
ghost use Rattle.std.specs.Prelude.{◌≡◌};
ghost use Rattle.paper.specs.Classes as C;
ghost use Rattle.classes.specs.Answers.{looked, sought, joined, taken};
ghost use Rattle.class_struct.specs.Fields.{of};
ghost use Rattle.class_struct.specs.Turns.{turns};

use crate::Classes;
use classes::{Trail, Untaken};
use paper::Refusal;

pub fn find(c: &Classes, x: u16) -> Result<Trail, Refusal>
    ensures { result ≡ looked (C.find (of c.now) x) }
{
    classes::find_in(&c.parents, x)
}

pub fn find_mut(c: &mut Classes, x: u16) -> Result<Option<u16>, Refusal>
    ensures { (of c.new, result) ≡ sought (of c.old) x }
{
    classes::find_mut_in(&mut c.parents, x)
}

pub fn merge(c: &mut Classes, x: u16, y: u16) -> Result<bool, Refusal>
    ensures { (of c.new, result) ≡ joined (of c.old) x y }
{
    classes::merge_in(&mut c.parents, &mut c.ranks, &mut c.count, x, y)
}

pub fn remove_set_of(c: &mut Classes, x: u16, members: &mut [u16]) -> Result<usize, Untaken>
    ensures { (of c.new, members.new, result) ≡ taken (of c.old) members.old x }
{
    class_removal::remove_set_of_in(&mut c.parents, &mut c.count, x, members)
}

// What the four calls answer in turn, and the classes after them.
#[derive(Drop)]
pub struct InTurn {
    pub classes: Classes,
    pub joined: Result<bool, Refusal>,
    pub sought: Result<Option<u16>, Refusal>,
    pub looked: Result<Trail, Refusal>,
    pub taken: Result<usize, Untaken>,
}

// Joins x and y, finds y with an update, finds x, and removes the class of x: one set of classes, which each call changes where it stands.
pub fn in_turn(mut c: Classes, x: u16, y: u16, members: &mut [u16]) -> InTurn
    ensures { (of result.classes, members.new, result.joined, result.sought, result.looked, result.taken) ≡ turns (of c) members.old x y }
{
    let joined = merge(&mut c, x, y);
    let sought = find_mut(&mut c, y);
    let looked = find(&c, x);
    let taken = remove_set_of(&mut c, x, members);
    InTurn {
        classes: c,
        joined,
        sought,
        looked,
        taken,
    }
}
