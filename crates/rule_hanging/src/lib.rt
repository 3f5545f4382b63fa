// Check 5: the lowest site that items name and that is a child which its source is not constrained to have.
// The constrained sites stand first in `sites`, `held` of them, each with its row in `rows`; row i has its constraint in the three words from 3 * i.
#![tactic(auto)]

ghost use Rattle.std.specs.Prelude.{◌≡◌, Bool, List, [], ◌∷◌, ℕ, ◌<◌, length};
ghost use Rattle.paper.specs.Words.{keep, least};
ghost use Rattle.paper.specs.Loading.{Loading, hangs};
ghost use Rattle.item_words.specs.Items.{items_in};
ghost use Rattle.rule_lists.specs.Entries.{found_as};
ghost use Rattle.rule_hanging.specs.Seen.{names, Sees, Known};

use paper::Item;
use rule_children::{source_of, word_of};
use rule_words::word;

// Is site x a child that its source is not constrained to have?
fn hangs(
    m: &[u8],
    n: u16,
    tail: &[u64],
    sites: &[u16],
    rows: &[u16],
    held: usize,
    words: &[u64],
    x: u16,
) -> bool
    ensures { (l : Loading) → Sees m.now n tail.now sites.now rows.now words.now held l →
        x < length l.sites → result ≡ hangs l x }
{
    let w = word_of(m, n, tail, x);
    if w == 0 {
        return false;
    }
    let Ok(s) = u16::try_from(source_of(w)) else {
        return true;
    };
    let Some(row) = rule_lists::look(sites, rows, held, s) else {
        return true;
    };
    let k = 3 * usize::from(row);
    let c = rule_words::unpack(word(words, k), word(words, k + 1), word(words, k + 2));
    !rule_children::is_child(w, s, c)
}

// The lower of what was found and x, if x hangs.
fn lower(best: Option<u16>, x: u16, yes: bool) -> Option<u16>
    ensures { (p : ℕ → Bool) (ns : List ℕ) → best ≡ found_as (least (keep p ns)) → yes ≡ p x → result ≡ found_as (least (keep p (x ∷ ns))) }
{
    if !yes {
        return best;
    }
    let Some(y) = best else {
        return Some(x);
    };
    Some(y.min(x))
}

// The same for the sites that an item names.
fn lower_item(
    m: &[u8],
    n: u16,
    tail: &[u64],
    sites: &[u16],
    rows: &[u16],
    held: usize,
    words: &[u64],
    best: Option<u16>,
    it: Item,
) -> Option<u16>
    ensures { (l : Loading) → Sees m.now n tail.now sites.now rows.now words.now held l → (ns : List ℕ) →
        Known l (names (it ∷ []) ns) → best ≡ found_as (least (keep (hangs l) ns)) → result ≡ found_as (least (keep (hangs l) (names (it ∷ []) ns))) }
{
    match it {
        Item::Is { site, .. } => lower(
            best,
            site,
            hangs(m, n, tail, sites, rows, held, words, site),
        ),
        Item::Equal { one, other } => {
            let second = lower(
                best,
                other,
                hangs(m, n, tail, sites, rows, held, words, other),
            );
            lower(
                second,
                one,
                hangs(m, n, tail, sites, rows, held, words, one),
            )
        }
    }
}

// The lowest named site that hangs.
pub fn hanging(
    m: &[u8],
    n: u16,
    tail: &[u64],
    sites: &[u16],
    rows: &[u16],
    held: usize,
    words: &[u64],
    items: &[u64],
    count: u8,
) -> Option<u16>
    ensures { (l : Loading) → Sees m.now n tail.now sites.now rows.now words.now held l →
        Known l (names (items_in items.now count) []) → result ≡ found_as (least (keep (hangs l) (names (items_in items.now count) []))) }
{
    let mut best = None;
    for i in 0..count {
        let it = item_words::item_at(items, i);
        best = lower_item(m, n, tail, sites, rows, held, words, best, it);
    }
    best
}
