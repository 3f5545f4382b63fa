// The constrained sites of a rule as lent lists have them: holder h is the site sites[h] under row rows[h]. Row i has its constraint in the three words
// from 3 * i and its children from kids[8 * i]. What lies past the end of a list is 0.
// Nothing here knows of items, so that any number of constrained sites, of one rule or of two, can be read.
#![tactic(auto)]

ghost use Rattle.std.specs.Prelude.{◌≡◌, true, ℕ, ◌≤◌, ◌<◌, min, length, get_or};
ghost use Rattle.paper.specs.Words.{or_else};
ghost use Rattle.paper.specs.Numbers.{max_sites, max_fields};
ghost use Rattle.paper.specs.Sites.{same_constraint};
ghost use Rattle.rule_rows.specs.Holding.{shape_in, kid_count, kid_in, stray};

use paper::{FIELDS, SITES};
use rule_lists::at;
use rule_words::word;

// The first number that is no site.
const NEVER: u16 = SITES as u16;

const MOST: u64 = FIELDS as u64;

// ---- rows

fn few(n: u64) -> u16
    ensures { result ≡ min n max_fields }
{
    if n < MOST { n as u16 } else { FIELDS as u16 }
}

// How many children row i has.
pub fn fields(words: &[u64], i: u16) -> u16
    ensures { result ≡ kid_count words.now i }
{
    let k = 3 * usize::from(i);
    let a = word(words, k);
    let b = word(words, k + 1);
    let c = word(words, k + 2);
    if a / 65536 == 3 {
        return 0;
    }
    if c != 0 {
        return few(c);
    }
    if a / 65536 == 1 {
        return few(b);
    }
    if a != 327680 {
        return 0;
    }
    if b != 0 {
        return 0;
    }
    1
}

// Child f of row i.
pub fn kid(kids: &[u16], i: u16, f: u16) -> u16
    ensures { result ≡ kid_in kids.now i f }
{
    at(kids, FIELDS * usize::from(i) + usize::from(f))
}

// Whether rows i and j are under equal constraints.
pub fn alike(words: &[u64], i: u16, j: u16) -> bool
    ensures { result ≡ same_constraint (shape_in words.now i) (shape_in words.now j) }
{
    let a = 3 * usize::from(i);
    let b = 3 * usize::from(j);
    if word(words, a) != word(words, b) {
        return false;
    }
    if word(words, a + 1) != word(words, b + 1) {
        return false;
    }
    word(words, a + 2) == word(words, b + 2)
}

// Whether all children of row i are higher than site s.
pub fn higher(words: &[u64], kids: &[u16], i: u16, s: u16) -> bool
    ensures { result ≡ true → (f : ℕ) → f < kid_count words.now i → s < kid_in kids.now i f }
{
    for f in 0..fields(words, i) {
        if kid(kids, i, f) <= s {
            return false;
        }
    }
    true
}

// ---- sites

// How many holders there are. Different sites are at most SITES, so what stands past them in the list is not looked at.
pub fn holder_count(sites: &[u16]) -> u16
    ensures { result ≡ min (length sites.now) max_sites }
{
    let n = sites.len();
    if n < SITES { n as u16 } else { NEVER }
}

// No number is above it. The loop looks at all of them, so that many are looked at at once.
pub fn highest(xs: &[u16]) -> u16
    ensures { (k : ℕ) → get_or xs.now k 0 ≤ result }
{
    let mut top = 0;
    for x in xs {
        top = top.max(*x);
    }
    top
}

// The first number that is no site, or 0. There is hardly ever one.
pub fn first_stray(xs: &[u16]) -> u16
    ensures { result ≡ or_else (stray xs.now) 0 }
{
    if highest(xs) < NEVER {
        return 0;
    }
    for x in xs {
        if NEVER <= *x {
            return *x;
        }
    }
    0
}
