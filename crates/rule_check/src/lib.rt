// The class check of a rule: the classes and check 4 are from `rule_classes`; here is check 6, walks from class to class that return, and the whole.
// `rule_rows` says how the lent lists are read.
#![tactic(auto)]

ghost use Rattle.std.specs.Prelude.{◌≡◌, Bool, true, false, ◌++◌, ◌⊎◌, ℕ, ◌+◌, ◌≤◌, ◌<◌, length, get_or};
ghost use Rattle.std.proofs.Math.Option.{none};
ghost use Rattle.paper.specs.Numbers.{max_sites, done};
ghost use Rattle.classes.specs.Answers.{rep};
ghost use Rattle.rule_rows.specs.Holding.{held, chart, kid_count, kid_in, holders_in, eqs_in, Inside, class_check, stray, checked, verdict_of};
ghost use Rattle.rule_check.specs.Search.{Path, Ready, Safe, Over, Keeps, Visited, Visit, Extends, Marks, Listed, Fresh, Searched, Returns, Told, Lower, LowestOf, AllNamed, Lowest, WalksIs};

use paper::{Refusal, SITES};
use rule_lists::at;
use rule_rows::{fields, highest, kid};

// The first number that is no site; also no holder, as the contract of `rule_classes::group` has it. No Option for a lowest site, which is no plainer:
// NEVER is above all sites, so that one comparison keeps the lower of two.
const NEVER: u16 = SITES as u16;

// ---- turns

// Whether the class of the root z has had its turn, or has no holder.
fn over(boss: &[u16; SITES], turned: &[u8; SITES], z: usize) -> bool
    requires { z < max_sites }
    ensures { result ≡ true → Over boss.now turned.now z }
{
    NEVER <= boss[z] || turned[z] != 0
}

// Whether the classes of the children of row i have all had their turn, or have no holder.
fn ready(
    p: &[u16; SITES],
    boss: &[u16; SITES],
    turned: &[u8; SITES],
    words: &[u64],
    kids: &[u16],
    i: u16,
) -> bool
    requires { Ready p.now kids.now }
    ensures { (result ≡ true → (f : ℕ) → f < kid_count words.now i →
        Over boss.now turned.now (rep p.now (kid_in kids.now i f))) }
{
    let m = fields(words, i);
    for f in 0..m {
        let k = kid(kids, i, f);
        let z = usize::from(classes::rep_in(p, k));
        if !over(boss, turned, z) {
            return false;
        }
    }
    true
}

// Gives the class of site s its turn if it is ready: whether it has had it.
fn turn(
    p: &[u16; SITES],
    boss: &[u16; SITES],
    turned: &mut [u8; SITES],
    rows: &[u16],
    words: &[u64],
    kids: &[u16],
    s: u16,
) -> bool
    requires ready { Ready p.now kids.now }
    requires s_lt_max_sites { s < max_sites }
    requires safe { Safe (chart rows.now words.now kids.now) p.now boss.now turned.old }
    ensures safe_2 { Safe (chart rows.now words.now kids.now) p.now boss.now turned.new }
    ensures keeps { Keeps turned.old turned.new }
    ensures fact { result ≡ true → get_or turned.new (rep p.now s) 0 ≡ 0 → ⊥ }
{
    let z = usize::from(classes::rep_in(p, s));
    if turned[z] != 0 {
        return true;
    }
    let i = at(rows, usize::from(boss[z]));
    if ready(p, boss, turned, words, kids, i) {
        turned[z] = 1;
        return true;
    }
    false
}

// A turn to the class of each of m holders, last holder first: how many holders' classes are left without.
fn turns(
    p: &[u16; SITES],
    boss: &[u16; SITES],
    turned: &mut [u8; SITES],
    sites: &[u16],
    rows: &[u16],
    words: &[u64],
    kids: &[u16],
    m: usize,
) -> usize
    requires ready { Ready p.now kids.now }
    requires inside { Inside sites.now }
    requires safe { Safe (chart rows.now words.now kids.now) p.now boss.now turned.old }
    ensures safe_2 { Safe (chart rows.now words.now kids.now) p.now boss.now turned.new }
    ensures fact { result ≡ 0 → (h : ℕ) → h < m → get_or turned.new (rep p.now (get_or sites.now h 0)) 0 ≡ 0 → ⊥ }
{
    let mut left: usize = 0;
    for h in (0..m).rev() {
        let s = at(sites, h);
        if !turn(p, boss, turned, rows, words, kids, s) {
            left += 1;
        }
    }
    left
}

// Whether the classes of all m holders get their turn: then no walk returns. A round in which no more are turned than before shows that some never do.
fn settled(
    p: &[u16; SITES],
    boss: &[u16; SITES],
    sites: &[u16],
    rows: &[u16],
    words: &[u64],
    kids: &[u16],
    m: usize,
) -> bool
    requires ready { Ready p.now kids.now }
    requires inside { Inside sites.now }
    ensures { let C = chart rows.now words.now kids.now in
        (result ≡ true → (h : ℕ) → h < m → Returns C p.now boss.now (get_or sites.now h 0) → ⊥) }
{
    let mut turned = [0u8; SITES];
    let mut left = m;
    while 0 < left {
        let still = turns(p, boss, &mut turned, sites, rows, words, kids, m);
        if left <= still {
            return false;
        }
        left = still;
    }
    true
}

// ---- the search from one class

// Marks a root and lists it, if it is not marked: how many are listed then.
fn visit(seen: &mut [u8; SITES], queue: &mut [u16; SITES], tail: usize, z: u16) -> usize
    requires { (z < max_sites) × (get_or seen.old z 0 ≡ 0 → tail < max_sites) }
    ensures { Visit seen.old queue.old tail z seen.new queue.new result }
{
    let i = usize::from(z);
    if seen[i] != 0 {
        return tail;
    }
    seen[i] = 1;
    queue[tail] = z;
    tail + 1
}

// Visits the roots of the children of the class x, which is l or reached from it.
fn visit_kids(
    p: &[u16; SITES],
    boss: &[u16; SITES],
    rows: &[u16],
    words: &[u64],
    kids: &[u16],
    l: u16,
    seen: &mut [u8; SITES],
    queue: &mut [u16; SITES],
    tail: usize,
    x: u16,
) -> usize
    requires ready { Ready p.now kids.now }
    requires visited { Visited (chart rows.now words.now kids.now) p.now boss.now l seen.old queue.old tail }
    requires x_lt_max_sites { (x < max_sites) × ((x ≡ l) ⊎ Path (chart rows.now words.now kids.now) p.now boss.now l x) }
    ensures fact { let C = chart rows.now words.now kids.now in
        Visited C p.now boss.now l seen.new queue.new result }
    ensures extends { Extends seen.old queue.old tail seen.new queue.new result }
    ensures marks { Marks (chart rows.now words.now kids.now) p.now boss.now seen.new x }
{
    let b = boss[usize::from(x)];
    if NEVER <= b {
        return tail;
    }
    let i = at(rows, usize::from(b));
    let m = fields(words, i);
    let mut t = tail;
    for f in 0..m {
        let k = kid(kids, i, f);
        let z = classes::rep_in(p, k);
        t = visit(seen, queue, t, z);
    }
    t
}

// Takes the marks of the first tail roots of queue away: there are no others.
fn wipe(seen: &mut [u8; SITES], queue: &[u16; SITES], tail: usize)
    requires { Listed seen.old queue.now tail }
    ensures { Fresh seen.new queue.now }
{
    for z in &queue[..tail] {
        seen[usize::from(*z)] = 0;
    }
}

// Whether a walk from the class of the root l returns to it. No marks are left in seen.
fn returning(
    p: &[u16; SITES],
    boss: &[u16; SITES],
    rows: &[u16],
    words: &[u64],
    kids: &[u16],
    seen: &mut [u8; SITES],
    queue: &mut [u16; SITES],
    l: u16,
) -> bool
    requires ready { Ready p.now kids.now }
    requires l_lt_max_sites { l < max_sites }
    requires fresh { Fresh seen.old queue.old }
    ensures fact { let C = chart rows.now words.now kids.now in
        (result ≡ true → Path C p.now boss.now l l) × (result ≡ false → Path C p.now boss.now l l → ⊥) }
    ensures fresh_2 { Fresh seen.new queue.new }
{
    // a class without a holder leads nowhere
    if NEVER <= boss[usize::from(l)] {
        return false;
    }
    let mut tail = visit_kids(p, boss, rows, words, kids, l, seen, queue, 0, l);
    let mut head: usize = 0;
    // no `for`: the queue grows as it is walked
    while head < tail {
        let x = queue[head];
        tail = visit_kids(p, boss, rows, words, kids, l, seen, queue, tail, x);
        head += 1;
    }
    let back = seen[usize::from(l)] != 0;
    wipe(seen, queue, tail);
    back
}

// ---- from all of them

// z, if it is below best and a walk from its class returns, or else best. In calm are the roots from which none does, so that each is searched once.
// Unused numbers of a list are 0: they are passed over, and 0 is looked at by itself.
fn lower(
    p: &[u16; SITES],
    boss: &[u16; SITES],
    rows: &[u16],
    words: &[u64],
    kids: &[u16],
    seen: &mut [u8; SITES],
    queue: &mut [u16; SITES],
    calm: &mut [u8; SITES],
    best: u16,
    z: u16,
) -> u16
    requires ready { Ready p.now kids.now }
    requires searched { Searched (chart rows.now words.now kids.now) p.now boss.now seen.old queue.old calm.old }
    requires told { Told (chart rows.now words.now kids.now) p.now boss.now best }
    ensures fact { let C = chart rows.now words.now kids.now in
        Searched C p.now boss.now seen.new queue.new calm.new }
    ensures lower { Lower (chart rows.now words.now kids.now) p.now boss.now best z result }
{
    if z == 0 || best <= z {
        return best;
    }
    let l = classes::rep_in(p, z);
    let i = usize::from(l);
    if calm[i] != 0 {
        return best;
    }
    if returning(p, boss, rows, words, kids, seen, queue, l) {
        return z;
    }
    calm[i] = 1;
    best
}

// The lowest of best and the numbers of xs, but 0, from whose class a walk returns.
fn lowest_of(
    p: &[u16; SITES],
    boss: &[u16; SITES],
    rows: &[u16],
    words: &[u64],
    kids: &[u16],
    seen: &mut [u8; SITES],
    queue: &mut [u16; SITES],
    calm: &mut [u8; SITES],
    xs: &[u16],
    best: u16,
) -> u16
    requires ready { Ready p.now kids.now }
    requires searched { Searched (chart rows.now words.now kids.now) p.now boss.now seen.old queue.old calm.old }
    requires told { Told (chart rows.now words.now kids.now) p.now boss.now best }
    ensures fact { let C = chart rows.now words.now kids.now in
        Searched C p.now boss.now seen.new queue.new calm.new }
    ensures fact_2 { let C = chart rows.now words.now kids.now in
        LowestOf C p.now boss.now xs.now (length xs.now) best result }
{
    let mut r = best;
    for x in xs {
        r = lower(p, boss, rows, words, kids, seen, queue, calm, r, *x);
    }
    r
}

// As endless, in lent memory.
fn lowest_named(
    p: &[u16; SITES],
    boss: &[u16; SITES],
    eqs: &[u16],
    sites: &[u16],
    rows: &[u16],
    words: &[u64],
    kids: &[u16],
    seen: &mut [u8; SITES],
    queue: &mut [u16; SITES],
    calm: &mut [u8; SITES],
) -> u16
    requires ready { Ready p.now kids.now }
    requires all_named { AllNamed p.now boss.now eqs.now sites.now kids.now }
    requires searched { Searched (chart rows.now words.now kids.now) p.now boss.now seen.old queue.old calm.old }
    ensures { Lowest (chart rows.now words.now kids.now) p.now boss.now result }
{
    let l = classes::rep_in(p, 0);
    if returning(p, boss, rows, words, kids, seen, queue, l) {
        return 0;
    }
    let a = lowest_of(p, boss, rows, words, kids, seen, queue, calm, sites, NEVER);
    let b = lowest_of(p, boss, rows, words, kids, seen, queue, calm, eqs, a);
    lowest_of(p, boss, rows, words, kids, seen, queue, calm, kids, b)
}

// The lowest site from whose class a walk returns, NEVER where there is none. A site whose class has a holder is 0 or a number of eqs, sites or kids.
fn endless(
    p: &[u16; SITES],
    boss: &[u16; SITES],
    eqs: &[u16],
    sites: &[u16],
    rows: &[u16],
    words: &[u64],
    kids: &[u16],
) -> u16
    requires ready { Ready p.now kids.now }
    requires all_named { AllNamed p.now boss.now eqs.now sites.now kids.now }
    ensures { Lowest (chart rows.now words.now kids.now) p.now boss.now result }
{
    let mut seen = [0u8; SITES];
    let mut queue = [0u16; SITES];
    let mut calm = [0u8; SITES];
    lowest_named(
        p, boss, eqs, sites, rows, words, kids, &mut seen, &mut queue, &mut calm,
    )
}

// Check 6 of the classes of m holders.
fn walks(
    p: &[u16; SITES],
    boss: &[u16; SITES],
    eqs: &[u16],
    sites: &[u16],
    rows: &[u16],
    words: &[u64],
    kids: &[u16],
    m: usize,
) -> Result<(), Refusal>
    requires ready { Ready p.now kids.now }
    requires inside { Inside sites.now }
    requires all_named { AllNamed p.now boss.now eqs.now sites.now kids.now }
    ensures { let L = held sites.now rows.now words.now kids.now in
        WalksIs L p.now boss.now m result }
{
    if settled(p, boss, sites, rows, words, kids, m) {
        return Ok(());
    }
    let z = endless(p, boss, eqs, sites, rows, words, kids);
    if z < NEVER {
        return Err(Refusal::Endless { site: z });
    }
    Ok(())
}

// ---- the whole

// Whether all numbers are sites.
fn all_sites(eqs: &[u16], sites: &[u16], kids: &[u16]) -> bool
    ensures { result ≡ true → stray (eqs.now ++ (sites.now ++ kids.now)) ≡ none }
{
    if NEVER <= highest(eqs) || NEVER <= highest(sites) {
        return false;
    }
    highest(kids) < NEVER
}

// Whether there is no equality, the holders' sites ascend, and each holder's children are higher than its site: then both checks pass.
fn ascends(eqs: &[u16], sites: &[u16], rows: &[u16], words: &[u64], kids: &[u16]) -> bool
    ensures { let L = held sites.now rows.now words.now kids.now in
        (result ≡ true → class_check (eqs_in eqs.now) (holders_in L) ≡ done tt) }
{
    if 2 <= eqs.len() {
        return false;
    }
    let mut next: usize = 0;
    for h in 0..sites.len() {
        let s = at(sites, h);
        if usize::from(s) < next {
            return false;
        }
        let i = at(rows, h);
        if !rule_rows::higher(words, kids, i, s) {
            return false;
        }
        next = usize::from(s) + 1;
    }
    true
}

// Whether the lists show at once that nothing is refused, so that no classes need be made. A set that our calls made has a child above its source, so
// this is most rules.
fn climbs(eqs: &[u16], sites: &[u16], rows: &[u16], words: &[u64], kids: &[u16]) -> bool
    ensures { let L = held sites.now rows.now words.now kids.now in
        (result ≡ true → checked eqs.now L ≡ done tt) }
{
    all_sites(eqs, sites, kids) && ascends(eqs, sites, rows, words, kids)
}

// Both checks, by the classes.
fn judge(
    eqs: &[u16],
    sites: &[u16],
    rows: &[u16],
    words: &[u64],
    kids: &[u16],
) -> Result<(), Refusal>
    ensures { let L = held sites.now rows.now words.now kids.now in
        verdict_of result ≡ checked eqs.now L }
{
    // `group` clears both; zeros are the cheapest to make
    let mut p = [0u16; SITES];
    let mut boss = [0u16; SITES];
    rule_classes::group(&mut p, &mut boss, eqs, sites, rows, words, kids)?;
    let m = rule_rows::holder_count(sites);
    walks(&p, &boss, eqs, sites, rows, words, kids, usize::from(m))
}

// Checks 4 and 6 of 01 of the written equalities and the holders, after 2 for a number that is no site.
pub fn check(
    eqs: &[u16],
    sites: &[u16],
    rows: &[u16],
    words: &[u64],
    kids: &[u16],
) -> Result<(), Refusal>
    ensures { let L = held sites.now rows.now words.now kids.now in
        verdict_of result ≡ checked eqs.now L }
{
    if climbs(eqs, sites, rows, words, kids) {
        return Ok(());
    }
    judge(eqs, sites, rows, words, kids)
}
