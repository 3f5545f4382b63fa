// 01, "Terms": the edges between terms, who reaches whom, and the cyclic terms. The Rust's recursion.rs.
//
// A term table is `[[u64; WORDS]; TERMS]`: row a has a mark for each term that an edge from a runs to.
#![tactic(auto)]

ghost use Rattle.std.specs.Prelude.{◌≡◌, false, ◌+◌, ◌<◌, ◌≤◌, IfOk, IfErr};
ghost use Rattle.paper.specs.declared.Refusal.TheVariants.{TermTooHigh};
ghost use Rattle.term_table.specs.Table.{terms, in_row, has_term, marked, no_edges, with_edge, with_term, has_edge, is_cyclic, left, bare, Closure, cyclic_terms, unflagged, added, asked, listed};
ghost use Rattle.term_table.specs.Loops.{both_of, has_some, Unmarked, join_at, join_by, join_to, widen, pass, on_diagonal, list_to};

use paper::{Refusal, TERMS};

// The words of a row, 64 marks to a word.
pub const WORDS: usize = TERMS / 64;

// Terms ascending: the first `count` of `terms`. The others are 0. (No heap, so no Vec; `findings` and `cyclic_terms` answer it.)
#[derive(Clone, Copy)]
pub struct Listed {
    pub count: u16,
    pub terms: [u16; TERMS],
}

// A table without edges.
#[tactic(auto, unfolding(crate::specs::Table::no_edges, crate::specs::Table::no_marks))]
pub fn empty() -> [[u64; WORDS]; TERMS]
    ensures { result ≡ no_edges }
{
    [[0u64; WORDS]; TERMS]
}

// Whether a row has the mark j.
fn in_row(r: &[u64; WORDS], j: usize) -> bool
    requires { j < terms }
    ensures { result ≡ in_row r.now j }
{
    (r[j / 64] >> (j % 64)) & 1 == 1
}

// Whether a row has a term's mark; a term that is too high has none.
#[tactic(auto, unfolding(crate::specs::Table::has_term))]
pub fn has_term(r: &[u64; WORDS], term: u16) -> bool
    ensures { result ≡ has_term r.now term }
{
    let t = usize::from(term);
    t < TERMS && in_row(r, t)
}

// Whether row i has the mark j.
#[tactic(auto, unfolding(crate::specs::Table::marked))]
fn has(t: &[[u64; WORDS]; TERMS], i: usize, j: usize) -> bool
    requires { (i < terms) × (j < terms) }
    ensures { result ≡ marked t.now i j }
{
    in_row(&t[i], j)
}

// Where a term stands in a row, or its row in a table.
fn number(term: u16) -> Result<usize, Refusal>
    ensures fits { IfOk result (λ t. (t ≡ term) × (term < terms)) }
    ensures high { IfErr result (λ r. (r ≡ TermTooHigh term) × (terms ≤ term)) }
{
    let t = usize::from(term);
    if t < TERMS {
        Ok(t)
    } else {
        Err(Refusal::TermTooHigh {
            asked: u32::from(term),
        })
    }
}

// Adds the edge that runs from one term to another.
pub fn add(t: &mut [[u64; WORDS]; TERMS], from: u16, to: u16) -> Result<(), Refusal>
    ensures result_value { added result ≡ bare (with_edge t.old from to) }
    ensures t_after { t.new ≡ left t.old (with_edge t.old from to) }
{
    let i = number(from)?;
    let j = number(to)?;
    t[i][j / 64] |= 1 << (j % 64);
    Ok(())
}

// Marks a term in a row, as the terms that have rec.
pub fn flag(r: &mut [u64; WORDS], term: u16) -> Result<(), Refusal>
    ensures result_value { added result ≡ bare (with_term r.old term) }
    ensures r_after { r.new ≡ left r.old (with_term r.old term) }
{
    let j = number(term)?;
    r[j / 64] |= 1 << (j % 64);
    Ok(())
}

// Whether an edge runs from one term to another.
pub fn edge(t: &[[u64; WORDS]; TERMS], from: u16, to: u16) -> Result<bool, Refusal>
    ensures { asked result ≡ has_edge t.now from to }
{
    let i = number(from)?;
    let j = number(to)?;
    Ok(has(t, i, j))
}

// Two rows together.
#[tactic(auto, unfolding(crate::specs::Loops::both_of))]
fn both(a: [u64; WORDS], b: [u64; WORDS]) -> [u64; WORDS]
    ensures { result ≡ both_of a b }
{
    [a[0] | b[0], a[1] | b[1], a[2] | b[2], a[3] | b[3]]
}

// Whether a row has a mark at all.
#[tactic(auto, unfolding(crate::specs::Loops::has_some))]
fn has_some(r: [u64; WORDS]) -> bool
    ensures { result ≡ has_some r }
{
    r[0] | r[1] | r[2] | r[3] != 0
}

// The row r joins row i.
#[tactic(auto, unfolding(crate::specs::Loops::join_at))]
fn join(t: &mut [[u64; WORDS]; TERMS], i: usize, r: &[u64; WORDS])
    requires { i < terms }
    ensures { t.new ≡ join_at t.old i r.now }
{
    t[i] = both(t[i], *r);
}

// By its marks k and k + 1, row i is joined by nothing, by `one`, by `other` or by `two`.
#[tactic(auto, unfolding(crate::specs::Loops::join_by))]
fn join_by(
    t: &mut [[u64; WORDS]; TERMS],
    i: usize,
    k: usize,
    one: &[u64; WORDS],
    other: &[u64; WORDS],
    two: &[u64; WORDS],
)
    requires { (i < terms) × (k + 1 < terms) }
    ensures { t.new ≡ join_by t.old i k one.now other.now two.now }
{
    if has(t, i, k) {
        if has(t, i, k + 1) {
            join(t, i, two);
        } else {
            join(t, i, one);
        }
    } else if has(t, i, k + 1) {
        join(t, i, other);
    }
}

// The same of every row.
fn join_all(
    t: &mut [[u64; WORDS]; TERMS],
    k: usize,
    one: &[u64; WORDS],
    other: &[u64; WORDS],
    two: &[u64; WORDS],
)
    requires { k + 1 < terms }
    ensures { t.new ≡ join_to terms t.old k one.now other.now two.now }
{
    for i in 0..TERMS {
        join_by(t, i, k, one, other, two);
    }
}

// The row a, or `two` where a has the mark j.
#[tactic(auto, unfolding(crate::specs::Loops::widen))]
fn widened(a: [u64; WORDS], j: usize, two: [u64; WORDS]) -> [u64; WORDS]
    requires { j < terms }
    ensures { result ≡ widen a j two }
{
    if in_row(&a, j) { two } else { a }
}

// Whoever reaches k or k + 1 reaches what they reach. Two terms at a time, so that a row is joined once for both; terms without edges lead nowhere.
#[tactic(auto, unfolding(crate::specs::Loops::pass))]
fn through(t: &mut [[u64; WORDS]; TERMS], k: usize)
    requires { k + 1 < terms }
    ensures { t.new ≡ pass t.old k }
{
    let a = t[k];
    let b = t[k + 1];
    let two = both(a, b);
    if has_some(two) {
        let one = widened(a, k + 1, two);
        let other = widened(b, k, two);
        join_all(t, k, &one, &other, &two);
    }
}

// The table becomes that of who reaches whom. In place, since a copy is 8 KB.
fn close(t: &mut [[u64; WORDS]; TERMS])
    ensures { Closure t.old t.new }
{
    for h in 0..TERMS / 2 {
        through(t, h * 2);
    }
}

// Who reaches whom by a walk of one or more edges.
pub fn reach(mut t: [[u64; WORDS]; TERMS]) -> [[u64; WORDS]; TERMS]
    ensures { Closure t result }
{
    close(&mut t);
    t
}

// Whether a walk of one or more edges returns to a term.
pub fn cyclic(mut t: [[u64; WORDS]; TERMS], term: u16) -> Result<bool, Refusal>
    ensures { asked result ≡ is_cyclic t term }
{
    let a = number(term)?;
    close(&mut t);
    Ok(has(&t, a, a))
}

// Whether term i reaches itself and is not among the others.
#[tactic(auto, unfolding(crate::specs::Loops::on_diagonal))]
fn listable(t: &[[u64; WORDS]; TERMS], but: &[u64; WORDS], i: usize) -> bool
    requires { i < terms }
    ensures { result ≡ on_diagonal t.now but.now i }
{
    has(t, i, i) && !in_row(but, i)
}

// The terms that reach themselves, ascending, but for the others.
fn list(t: &[[u64; WORDS]; TERMS], but: &[u64; WORDS]) -> Listed
    ensures { result ≡ listed (list_to terms t.now but.now) }
{
    let mut found = [0u16; TERMS];
    let mut n: usize = 0;
    for i in 0..TERMS {
        if listable(t, but, i) {
            found[n] = i as u16;
            n += 1;
        }
    }
    Listed {
        count: n as u16,
        terms: found,
    }
}

// The cyclic terms. Not `findings` with no recs: the table is by value here, so it needs no copy.
pub fn cyclic_terms(mut t: [[u64; WORDS]; TERMS]) -> Listed
    ensures { result ≡ listed (cyclic_terms t) }
{
    close(&mut t);
    list(&t, &[0u64; WORDS])
}

// Whether a table has an edge.
#[tactic(auto, unfolding(crate::specs::Loops::UnmarkedTo))]
fn has_edges(t: &[[u64; WORDS]; TERMS]) -> bool
    ensures { result ≡ false → Unmarked t.now }
{
    // By `any` the archive lays the loop of `through` out otherwise, and dense tables take 1.7 times the time.
    for r in t {
        if has_some(*r) {
            return true;
        }
    }
    false
}

// The cyclic terms without rec, where `recs` marks the terms with rec. The table is copied once, and not at all where no edge runs.
pub fn findings(t: &[[u64; WORDS]; TERMS], recs: &[u64; WORDS]) -> Listed
    ensures { result ≡ listed (unflagged t.now recs.now) }
{
    if has_edges(t) {
        let mut u = *t;
        close(&mut u);
        return list(&u, recs);
    }
    list(t, recs)
}
