// The classes of a rule: the written equalities are joined, then like-numbered children of sites of one class under equal constraints, until nothing
// changes; then check 4. `rule_rows` says how the lent lists are read.
#![tactic(auto)]

ghost use Rattle.std.specs.Prelude.{◌≡◌, Bool, ◌&&◌, ℕ, ◌+◌, ◌≤◌, ◌<◌, get_or, replicate, eqb};
ghost use Rattle.paper.specs.Numbers.{max_sites, max_fields};
ghost use Rattle.paper.specs.Sites.{same_constraint};
ghost use Rattle.paper.specs.Classes.{classes};
ghost use Rattle.classes.specs.Answers.{rep};
ghost use Rattle.classes.specs.Well.{Well};
ghost use Rattle.rule_rows.specs.Holding.{held, bare, shape_in, eqs_in, Inside, merge_each};
ghost use Rattle.rule_classes.specs.Growing.{Equates, JoinsKids, Meets, SweptTo, Closed};
ghost use Rattle.rule_classes.specs.Meeting.{Reps, Unlike, ClashIs, Seated, JoinedIs, Strays, Grouped};

use paper::{Refusal, SITES};
use rule_lists::at;
use rule_rows::{alike, fields, first_stray, kid};

// The parent of a site that was never joined; also no holder, as `group`'s contract has it in `boss`.
const NEVER: u16 = SITES as u16;

// ---- joining

// Joins the written equalities, two numbers each, in order.
pub fn written(parents: &mut [u16; SITES], ranks: &mut [u8; SITES], count: &mut u16, eqs: &[u16])
    ensures { let before = classes parents.old ranks.old count.old in
        classes parents.new ranks.new count.new ≡ merge_each before (eqs_in eqs.now) }
{
    let m = eqs.len() / 2;
    for k in 0..m {
        let x = eqs[2 * k];
        let y = eqs[2 * k + 1];
        // a number that is no site joins nothing
        let _ = classes::merge_in(parents, ranks, count, x, y);
    }
}

// Joins the classes of two sites: whether they were two.
fn equate(p: &mut [u16; SITES], r: &mut [u8; SITES], n: &mut u16, x: u16, y: u16) -> bool
    requires well { Well p.old r.old n.old }
    requires x_lt_max_sites { (x < max_sites) × (y < max_sites) }
    ensures { Equates p.old p.new r.new n.new x y result }
{
    classes::merge_in(p, r, n, x, y).unwrap_or(false)
}

// Joins the like-numbered children of rows i and j, m of them: whether any classes became one.
fn join_kids(
    p: &mut [u16; SITES],
    r: &mut [u8; SITES],
    n: &mut u16,
    kids: &[u16],
    i: u16,
    j: u16,
    m: u16,
) -> bool
    requires well { Well p.old r.old n.old }
    requires inside { Inside kids.now }
    requires m_le_max_fields { m ≤ max_fields }
    ensures { JoinsKids kids.now p.old p.new r.new n.new i j m result }
{
    let mut moved = false;
    for f in 0..m {
        let x = kid(kids, i, f);
        let y = kid(kids, j, f);
        if equate(p, r, n, x, y) {
            moved = true;
        }
    }
    moved
}

// Whether holder g is under the constraint of row j and its class has the representative b.
fn mates(
    p: &[u16; SITES],
    sites: &[u16],
    rows: &[u16],
    words: &[u64],
    g: usize,
    j: u16,
    b: u16,
) -> bool
    ensures { let alike = same_constraint (shape_in words.now (get_or rows.now g 0)) (shape_in words.now j) in
        result ≡ (alike && eqb (rep p.now (get_or sites.now g 0)) b) }
{
    alike(words, at(rows, g), j) && classes::rep_in(p, at(sites, g)) == b
}

// The first holder before h that is of h's class and under h's constraint: its children are joined with h's. Whether any classes became one.
fn meet(
    p: &mut [u16; SITES],
    r: &mut [u8; SITES],
    n: &mut u16,
    sites: &[u16],
    rows: &[u16],
    words: &[u64],
    kids: &[u16],
    h: usize,
) -> bool
    requires well { Well p.old r.old n.old }
    requires inside { Inside kids.now }
    ensures { let L = held sites.now rows.now words.now kids.now in
        Meets L p.old p.new r.new n.new result h }
{
    let j = at(rows, h);
    let s = at(sites, h);
    let b = classes::rep_in(p, s);
    for g in 0..h {
        if mates(p, sites, rows, words, g, j, b) {
            let i = at(rows, g);
            let m = fields(words, i);
            return join_kids(p, r, n, kids, i, j, m);
        }
    }
    false
}

// Each of m holders once: whether any classes became one.
fn sweep(
    p: &mut [u16; SITES],
    r: &mut [u8; SITES],
    n: &mut u16,
    sites: &[u16],
    rows: &[u16],
    words: &[u64],
    kids: &[u16],
    m: usize,
) -> bool
    requires well { Well p.old r.old n.old }
    requires inside { Inside kids.now }
    ensures { let L = held sites.now rows.now words.now kids.now in
        SweptTo L p.old p.new r.new n.new result m m }
{
    let mut moved = false;
    for h in 0..m {
        if meet(p, r, n, sites, rows, words, kids, h) {
            moved = true;
        }
    }
    moved
}

// Until nothing changes.
fn close(
    p: &mut [u16; SITES],
    r: &mut [u8; SITES],
    n: &mut u16,
    sites: &[u16],
    rows: &[u16],
    words: &[u64],
    kids: &[u16],
    m: usize,
)
    requires well { Well p.old r.old n.old }
    requires inside { Inside kids.now }
    ensures { let L = held sites.now rows.now words.now kids.now in
        Closed L p.old p.new r.new n.new m }
{
    while sweep(p, r, n, sites, rows, words, kids, m) {}
}

// ---- check 4

// Puts holder h to its class: the first holder of the class, if h differs from it.
fn seat(
    p: &[u16; SITES],
    sites: &[u16],
    rows: &[u16],
    words: &[u64],
    boss: &mut [u16; SITES],
    h: u16,
) -> Option<u16>
    requires reps { Reps p.now }
    requires h_lt_max_sites { (h < max_sites) × Inside sites.now }
    requires seated { Seated (bare sites.now rows.now words.now) p.now boss.old h }
    ensures fact { let B = bare sites.now rows.now words.now in
        (result ≡ None → Seated B p.now boss.new (h + 1)) }
    ensures unlike { (b : ℕ) → result ≡ Some b → Unlike (bare sites.now rows.now words.now) p.now h b }
{
    let k = usize::from(h);
    let s = at(sites, k);
    let root = usize::from(classes::rep_in(p, s));
    let b = boss[root];
    if NEVER <= b {
        boss[root] = h;
        return None;
    }
    let i = at(rows, k);
    let j = at(rows, usize::from(b));
    if alike(words, i, j) {
        return None;
    }
    Some(b)
}

// Check 4 over m holders. Where it finds nothing, boss has the first holder of each class by root.
fn conflict(
    p: &[u16; SITES],
    sites: &[u16],
    rows: &[u16],
    words: &[u64],
    boss: &mut [u16; SITES],
    m: u16,
) -> Option<(u16, u16)>
    requires reps { Reps p.now }
    requires m_le_max_sites { (m ≤ max_sites) × Inside sites.now }
    requires boss_value { boss.old ≡ replicate max_sites max_sites }
    ensures clash_is { ClashIs (bare sites.now rows.now words.now) p.now m result }
    ensures seated { result ≡ None → Seated (bare sites.now rows.now words.now) p.now boss.new m }
{
    for h in 0..m {
        if let Some(b) = seat(p, sites, rows, words, boss, h) {
            let s = at(sites, usize::from(h));
            let t = at(sites, usize::from(b));
            return Some((s, t));
        }
    }
    None
}

// ---- the whole

// The classes and check 4, where all numbers are sites.
fn join(
    p: &mut [u16; SITES],
    boss: &mut [u16; SITES],
    eqs: &[u16],
    sites: &[u16],
    rows: &[u16],
    words: &[u64],
    kids: &[u16],
) -> Result<(), Refusal>
    requires { Inside eqs.now × (Inside sites.now × Inside kids.now) }
    ensures { let L = held sites.now rows.now words.now kids.now in
        JoinedIs eqs.now L p.new boss.new result }
{
    let m = rule_rows::holder_count(sites);
    let mut r = [0u8; SITES];
    let mut n: u16 = 0;
    classes::clear_in(p, &mut r, &mut n);
    written(p, &mut r, &mut n, eqs);
    close(p, &mut r, &mut n, sites, rows, words, kids, usize::from(m));
    *boss = [NEVER; SITES];
    match conflict(p, sites, rows, words, boss, m) {
        Some((site, other)) => Err(Refusal::Unreachable { site, other }),
        None => Ok(()),
    }
}

// Refuses the first number that is no site.
fn known(xs: &[u16]) -> Result<(), Refusal>
    ensures { Strays xs.now result }
{
    let site = first_stray(xs);
    if site != 0 {
        return Err(Refusal::Unknown { site });
    }
    Ok(())
}

// Check 4 of the written equalities and the holders, after 2 for a number that is no site. Where it passes, p has the parents of the classes, and boss
// the first holder of each class by root.
pub fn group(
    p: &mut [u16; SITES],
    boss: &mut [u16; SITES],
    eqs: &[u16],
    sites: &[u16],
    rows: &[u16],
    words: &[u64],
    kids: &[u16],
) -> Result<(), Refusal>
    ensures { let L = held sites.now rows.now words.now kids.now in
        Grouped eqs.now L p.new boss.new result }
{
    known(eqs)?;
    known(sites)?;
    known(kids)?;
    join(p, boss, eqs, sites, rows, words, kids)
}
