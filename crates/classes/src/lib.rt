// Disjoint sets of sites (the Rust's disjointsets.rs), on lent parts: nothing is copied. A site's parent is SITES or more where it was never joined.
// Every call is total on any contents: a chain is followed for at most SITES links. specs/Answers.antt ties their answers to paper's outcomes.
// (`class_removal` takes classes apart. `class_struct` has the same calls on a struct, by value and lent by reference.)
#![tactic(auto)]

ghost use Rattle.std.specs.Prelude.{◌≡◌, List, ℕ, ◌<◌, ◌≤◌, OnOk, IfErr};
ghost use Rattle.paper.specs.declared.Refusal.TheVariants.{Unknown};
ghost use Rattle.paper.specs.Numbers.{max_sites};
ghost use Rattle.paper.specs.Classes as C;
ghost use Rattle.classes.specs.declared.Untaken.TheVariants.{Refused};
ghost use Rattle.classes.specs.Well.{Leads};
ghost use Rattle.classes.specs.Answers.{root_in, rep, looked, sought, joined, same};

use paper::{Refusal, SITES};
use std::mem;

// The parent of a site that was never joined. A number and no Option: the parents are lent, from C too, as an array of numbers.
pub const NEVER: u16 = SITES as u16;

// A find with the links that it followed. (A struct, and no Option with the links inside: where nothing is found the links are told too, as 0.)
#[derive(Clone, Copy)]
pub struct Trail {
    pub found: Option<u16>,
    pub links: u16,
}

// Why a removal took nothing.
#[derive(Clone, Copy)]
pub enum Untaken {
    Refused(Refusal),
    // The list that was lent could not hold every site: nothing was looked at, and nothing is changed.
    Short,
}

impl From<Refusal> for Untaken {
    ghost from_gives = { λ e u. u ≡ Refused e };

    fn from(e: Refusal) -> Untaken {
        Untaken::Refused(e)
    }
}

// "Classes start empty".
pub fn clear_in(parents: &mut [u16; SITES], ranks: &mut [u8; SITES], count: &mut u16)
    ensures { C.classes parents.new ranks.new count.new ≡ C.no_classes }
{
    *parents = [NEVER; SITES];
    *ranks = [0u8; SITES];
    *count = 0;
}

// "In a class call the first site number of 1,024 or more is 2, before all else."
fn known(x: u16) -> Result<(), Refusal>
    ensures ok { OnOk result (x < max_sites) }
    ensures err { IfErr result (λ e. (e ≡ Unknown x) × (max_sites ≤ x)) }
{
    if SITES <= usize::from(x) {
        return Err(Refusal::Unknown { site: x });
    }
    Ok(())
}

// The root of x's class, with the links on the way to it; where there is none, no links.
fn trail_in(parents: &[u16; SITES], x: u16) -> Trail
    ensures { C.trail result.found result.links ≡ C.find_in parents.now x }
{
    let none = Trail {
        found: None,
        links: 0,
    };
    let mut at = x;
    for links in 0..NEVER {
        let i = usize::from(at);
        if SITES <= i {
            return none;
        }
        let up = parents[i];
        if up == at {
            return Trail {
                found: Some(at),
                links,
            };
        }
        at = up;
    }
    none
}

// Hangs the sites on the way from x, n links long, directly under the root r. The last of them hangs there already.
fn hang(parents: &mut [u16; SITES], x: u16, r: u16, n: u16)
    requires { Leads n parents.old x r }
    ensures { let before = parents.old in
        parents.new ≡ C.hung before (C.passed n before x) r }
{
    let mut at = x;
    for _ in 1..n {
        at = mem::replace(&mut parents[usize::from(at)], r);
    }
}

// The updating find, on any number: the root, with every site on the way hung directly under it.
pub fn flatten_in(parents: &mut [u16; SITES], x: u16) -> Option<u16>
    ensures { (parents.new, result) ≡ C.flatten_in parents.old x }
{
    let t = trail_in(parents, x);
    let r = t.found?;
    hang(parents, x, r, t.links);
    Some(r)
}

// The site that stands for x's class: its root, or x itself where x is in no class.
pub fn rep_in(parents: &[u16; SITES], x: u16) -> u16
    ensures { result ≡ rep parents.now x }
{
    trail_in(parents, x).found.unwrap_or(x)
}

pub fn find_in(parents: &[u16; SITES], x: u16) -> Result<Trail, Refusal>
    ensures { (R : List ℕ) (n : ℕ) → result ≡ looked (C.find (C.classes parents.now R n) x) }
{
    known(x)?;
    Ok(trail_in(parents, x))
}

pub fn find_mut_in(parents: &mut [u16; SITES], x: u16) -> Result<Option<u16>, Refusal>
    ensures { (R : List ℕ) (n : ℕ) →
        let before = C.classes parents.old R n in
        let after = C.classes parents.new R n in
        (after, result) ≡ sought before x }
{
    known(x)?; // and nothing is moved
    Ok(flatten_in(parents, x))
}

// The root of x's class; a site that was never joined becomes a class of its own.
fn enter(parents: &mut [u16; SITES], ranks: &mut [u8; SITES], count: &mut u16, x: u16) -> u16
    requires { x < max_sites }
    ensures { let before = C.classes parents.old ranks.old count.old in
        let after = C.classes parents.new ranks.new count.new in
        root_in after result ≡ C.enter before x }
{
    let Some(root) = flatten_in(parents, x) else {
        let i = usize::from(x);
        parents[i] = x;
        ranks[i] = 0;
        *count = count.saturating_add(1);
        return x;
    };
    root
}

// The root of lower rank goes under the other; on a tie b under a, whose rank grows.
fn link(parents: &mut [u16; SITES], ranks: &mut [u8; SITES], a: u16, b: u16)
    requires { (a < max_sites) × (b < max_sites) }
    ensures { (n : ℕ) →
        let before = C.classes parents.old ranks.old n in
        let after = C.classes parents.new ranks.new n in
        after ≡ C.link before a b }
{
    if a == b {
        return;
    }
    let i = usize::from(a);
    let j = usize::from(b);
    let s = ranks[i];
    let t = ranks[j];
    if s < t {
        parents[i] = b;
        return;
    }
    parents[j] = a;
    if s == t {
        ranks[i] = s.saturating_add(1);
    }
}

// Joins the classes of x and y, and answers whether it made one class of two.
pub fn merge_in(
    parents: &mut [u16; SITES],
    ranks: &mut [u8; SITES],
    count: &mut u16,
    x: u16,
    y: u16,
) -> Result<bool, Refusal>
    ensures { let before = C.classes parents.old ranks.old count.old in
        let after = C.classes parents.new ranks.new count.new in
        (after, result) ≡ joined before x y }
{
    known(x)?;
    known(y)?;
    if x == y {
        return Err(Refusal::Itself { site: x });
    }
    let a = enter(parents, ranks, count, x);
    let b = enter(parents, ranks, count, y);
    link(parents, ranks, a, b);
    Ok(a != b)
}

pub fn in_same_set_in(parents: &[u16; SITES], x: u16, y: u16) -> Result<bool, Refusal>
    ensures { (R : List ℕ) (n : ℕ) → result ≡ same (C.in_same_set (C.classes parents.now R n) x y) }
{
    known(x)?;
    known(y)?;
    let Some(a) = trail_in(parents, x).found else {
        return Ok(false);
    };
    Ok(trail_in(parents, y).found == Some(a))
}
