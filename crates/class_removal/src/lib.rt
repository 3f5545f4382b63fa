// A class taken apart: its members listed, and taken out of every class. On the lent parts of `classes`, and total on any contents.
#![tactic(auto)]

ghost use Rattle.std.specs.declared.option.Option.TheVariants.{Some};
ghost use Rattle.std.specs.Prelude.{◌≡◌, List, ℕ, ◌-◌, ◌<◌, ◌≤◌, length, get_or};
ghost use Rattle.paper.specs.Numbers.{max_sites};
ghost use Rattle.paper.specs.Classes as C;
ghost use Rattle.classes.specs.Answers.{noted, Sweeps, taken};
ghost use Rattle.class_removal.specs.Listed.{sweep_of, taken_of};

use classes::{NEVER, Untaken};
use paper::SITES;

// Lists y in members, after the n that are there, where r was found: how many there are then.
fn note(members: &mut [u16], n: usize, f: Option<u16>, r: u16, y: u16) -> usize
    requires { n < length members.old }
    ensures { (members.new, result) ≡ noted members.old n (C.is_at f (Some r)) y }
{
    if f != Some(r) {
        return n;
    }
    members[n] = y;
    n + 1
}

// The updating find on every site, ascending. Those with the root r are listed: how many.
fn sweep(parents: &mut [u16; SITES], r: u16, members: &mut [u16]) -> usize
    requires { max_sites ≤ length members.old }
    ensures { let swept = C.sweep max_sites parents.old r in
        Sweeps swept members.old parents.new members.new result }
{
    let mut n = 0;
    for y in 0..NEVER {
        let f = classes::flatten_in(parents, y);
        n = note(members, n, f, r, y);
    }
    n
}

// The updating find on the listed sites, in their order. Those with the root r are listed in members: how many. (Beside `sweep`, and no function
// over any sites for both: `C.sweep`, of paper, speaks of all sites alone, and the one turn that they share is `note`.)
fn sweep_listed(parents: &mut [u16; SITES], r: u16, sites: &[u16], members: &mut [u16]) -> usize
    requires { length sites.now ≤ length members.old }
    ensures { let swept = sweep_of sites.now (length sites.now) parents.old r in
        Sweeps swept members.old parents.new members.new result }
{
    let mut n = 0;
    for &y in sites {
        let f = classes::flatten_in(parents, y);
        n = note(members, n, f, r, y);
    }
    n
}

// Takes the members out of every class.
fn unjoin(parents: &mut [u16; SITES], members: &[u16])
    requires { (i : ℕ) → i < length members.now → get_or members.now i 0 < max_sites }
    ensures { parents.new ≡ C.unjoin parents.old members.now }
{
    for &member in members {
        parents[usize::from(member)] = NEVER;
    }
}

// Takes the members out of every class, and out of the count.
fn take_out(parents: &mut [u16; SITES], count: &mut u16, members: &[u16])
    requires { (i : ℕ) → i < length members.now → get_or members.now i 0 < max_sites }
    ensures { let out = members.now in
        (parents.new ≡ C.unjoin parents.old out) × (count.new ≡ count.old - length out) }
{
    unjoin(parents, members);
    *count = usize::from(*count).saturating_sub(members.len()) as u16;
}

// Takes x's class apart and lists its members, ascending: how many. A list that could not hold every site is refused first: half a class is never taken.
pub fn remove_set_of_in(
    parents: &mut [u16; SITES],
    count: &mut u16,
    x: u16,
    members: &mut [u16],
) -> Result<usize, Untaken>
    ensures { (R : List ℕ) →
        let before = C.classes parents.old R count.old in
        let after = C.classes parents.new R count.new in
        (after, members.new, result) ≡ taken before members.old x }
{
    if members.len() < SITES {
        return Err(Untaken::Short);
    }
    let Some(r) = classes::find_mut_in(parents, x)? else {
        return Ok(0);
    };
    let n = sweep(parents, r, members);
    take_out(parents, count, &members[..n]);
    Ok(n)
}

// The same, looking only at the listed sites; `members` has room for as many.
// Where these ascend and hold every joined site, that takes what a look at all sites takes (proofs/Listed.antt, `remove_listed`).
pub fn remove_listed_in(
    parents: &mut [u16; SITES],
    count: &mut u16,
    x: u16,
    sites: &[u16],
    members: &mut [u16],
) -> Result<usize, Untaken>
    ensures { (R : List ℕ) →
        let before = C.classes parents.old R count.old in
        let after = C.classes parents.new R count.new in
        (after, members.new, result) ≡ taken_of before sites.now members.old x }
{
    if members.len() < sites.len() {
        return Err(Untaken::Short);
    }
    let Some(r) = classes::find_mut_in(parents, x)? else {
        return Ok(0);
    };
    let n = sweep_listed(parents, r, sites, members);
    take_out(parents, count, &members[..n]);
    Ok(n)
}
