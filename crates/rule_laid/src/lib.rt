// Whether constrained sites are laid out as the rounds of 01, "Loading a rule", need them: ascending in `sites`, all known, each with its row in
// `rows`; row i has its constraint in the words from 3 * i. What lies past the end of a list is 0.
#![tactic(auto)]

ghost use Rattle.std.specs.Prelude.{length};
ghost use Rattle.rule_laid.specs.Laid.{GoodRow, Faults, Entry, Entries, Known};

use paper::{FIELDS, ITEMS};
use rule_lists::at;
use rule_words::word;

// Is the row no row of an item, or its constraint none that the code's types hold, or one of too many fields?
fn bad_row(words: &[u64], row: u16) -> bool
    ensures { Faults result (GoodRow words.now row) }
{
    let i = usize::from(row);
    if ITEMS <= i {
        return true;
    }
    let a = word(words, 3 * i);
    let b = word(words, 3 * i + 1);
    let d = word(words, 3 * i + 2);
    let c = rule_words::unpack(a, b, d);
    if FIELDS < rule_children::arity(c) {
        return true;
    }
    let w = rule_words::pack(c);
    if w.head != a || w.second != b {
        return true;
    }
    w.third != d
}

// Is constrained site i not above the one before it, or not known, or its row bad?
fn bad_entry(sites: &[u16], rows: &[u16], words: &[u64], total: usize, i: usize) -> bool
    ensures { Faults result (Entry sites.now rows.now words.now total i) }
{
    let s = at(sites, i);
    if total <= usize::from(s) || bad_row(words, at(rows, i)) {
        return true;
    }
    0 < i && s <= at(sites, i - 1)
}

// Is one of the first `held` constrained sites so?
pub fn any_bad(sites: &[u16], rows: &[u16], words: &[u64], total: usize, held: usize) -> bool
    ensures { Faults result (Entries sites.now rows.now words.now total held) }
{
    for i in 0..held {
        if bad_entry(sites, rows, words, total, i) {
            return true;
        }
    }
    false
}

// Is one of the numbers not below `total`?
pub fn any_unknown(xs: &[u16], total: usize) -> bool
    ensures { Faults result (Known xs.now total (length xs.now)) }
{
    xs.iter().any(|x| total <= usize::from(*x))
}
