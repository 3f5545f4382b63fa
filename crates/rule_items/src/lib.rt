// The items of a rule, as written, and then check 5.
// Row i belongs to item i: its constraint in three words from 3 * i, its children's numbers from 8 * i. The constrained sites stand ascending, each
// with its row; the two sites of each equality stand one after the other.
#![tactic(auto)]

ghost use Rattle.std.specs.Prelude.{◌≡◌, true, List, ℕ, ◌+◌, ◌*◌, ◌≤◌, ◌<◌, min, length};
ghost use Rattle.std.proofs.Math.Option.{none};
ghost use Rattle.paper.specs.declared.Item.TheVariants.{Is, Equal};
ghost use Rattle.paper.specs.Numbers.{max_sites, max_items, max_fields};
ghost use Rattle.paper.specs.Sites.{fields, same_constraint, child_count};
ghost use Rattle.paper.specs.Loading.{Loading, load_item, load_items, constrain, no_items};
ghost use Rattle.sites.specs.Slots.{sites_in};
ghost use Rattle.rule_rows.specs.Holding.{shape_in, Inside};
ghost use Rattle.item_words.specs.Items.{items_in as held_items};
ghost use Rattle.rule_items.specs.Shown.{Told, AsLong, Rowed, roomy, items_in};
ghost use Rattle.rule_items.specs.Way.{Way, Room, Space, Turn, Walk, Worded, Filled};

use paper::{Constraint, FIELDS, ITEMS, Item, Refusal, SITES};
use rule_words::{Packed, word};

// How the rule fares; how many words the tail has, how many sites are constrained, how many numbers the equalities have.
#[derive(Clone, Copy)]
pub struct Progress {
    pub tail: u16,
    pub held: usize,
    pub equal: usize,
    pub answer: Result<(), Refusal>,
}

// No `From`, which is no plainer: the name says what the call does.
fn refuse(why: Refusal) -> Progress
    ensures { result.answer ≡ Err why }
{
    Progress {
        tail: 0,
        held: 0,
        equal: 0,
        answer: Err(why),
    }
}

// How many fields a constraint names.
fn field_count(c: Constraint) -> usize
    ensures { (result ≡ fields c) × (result < 256) }
{
    match c {
        Constraint::Variant { fields, .. } | Constraint::Struct { fields, .. } => usize::from(
            fields,
        ),
        Constraint::ConstBool { .. }
        | Constraint::ConstInt { .. }
        | Constraint::ConstPrim { .. }
        | Constraint::Some => 0,
    }
}

// ---- rows

// Is c the constraint of row i?
fn same_row(words: &[u64], i: u16, c: Constraint) -> bool
    ensures { result ≡ same_constraint c (shape_in words.now i) }
{
    let p = rule_words::pack(c);
    let k = 3 * usize::from(i);
    if p.head != word(words, k) || p.second != word(words, k + 1) {
        return false;
    }
    p.third == word(words, k + 2)
}

fn set_words(words: &mut [u64], i: usize, p: Packed)
    requires { (i < max_items) × (3 * max_items ≤ length words.old) }
    ensures { Worded words.old i p.head p.second p.third words.new }
{
    let k = 3 * i;
    words[k] = p.head;
    words[k + 1] = p.second;
    words[k + 2] = p.third;
}

fn set_kids(kids: &mut [u16], i: usize, of: [u16; FIELDS])
    requires { (i < max_items) × (8 * max_items ≤ length kids.old) }
    ensures { Filled kids.old i of max_fields kids.new }
{
    let k = FIELDS * i;
    kids[k..k + FIELDS].copy_from_slice(&of);
}

// ---- an item

// A site that has no constraint yet gets one: its children are added, and row i is filled.
fn constrain(
    m: &[u8],
    n: u16,
    tail: &mut [u64],
    t: u16,
    sites: &mut [u16],
    rows: &mut [u16],
    held: usize,
    words: &mut [u64],
    kids: &mut [u16],
    equal: usize,
    i: usize,
    s: u16,
    c: Constraint,
) -> Progress
    requires room { Room n t held i tail.old sites.old rows.old words.old kids.old }
    requires c_bound { child_count c ≤ max_fields }
    ensures turn { (eqs : List ℕ) (l : Loading) →
        Way m.now n tail.old t sites.old rows.old words.old kids.old held eqs equal i l →
        s < length l.sites →
        Turn m.now n tail.new sites.new rows.new words.new kids.new eqs result i
        (constrain l i s c none) }
    ensures inside { Inside kids.old → Inside kids.new }
{
    let g = rule_children::add_children(m, n, tail, t, i as u32, s, c);
    match g.outcome {
        Err(why) => refuse(why),
        Ok(total) => {
            let more = rule_lists::put(sites, rows, held, s, i as u16);
            let p = rule_words::pack(c);
            set_words(words, i, p);
            set_kids(kids, i, g.numbers);
            Progress {
                tail: total - n,
                held: more,
                equal,
                answer: Ok(()),
            }
        }
    }
}

// "2; 22 for fields; 4 if the site already has another constraint"; the same again changes nothing.
fn is_item(
    m: &[u8],
    n: u16,
    tail: &mut [u64],
    t: u16,
    sites: &mut [u16],
    rows: &mut [u16],
    held: usize,
    words: &mut [u64],
    kids: &mut [u16],
    equal: usize,
    i: usize,
    s: u16,
    c: Constraint,
) -> Progress
    requires { Room n t held i tail.old sites.old rows.old words.old kids.old }
    ensures turn { (eqs : List ℕ) (l : Loading) →
        Way m.now n tail.old t sites.old rows.old words.old kids.old held eqs equal i l →
        Turn m.now n tail.new sites.new rows.new words.new kids.new eqs result i
        (load_item l i (Is s c)) }
    ensures inside { Inside kids.old → Inside kids.new }
{
    if usize::from(n) + usize::from(t) <= usize::from(s) {
        return refuse(Refusal::Unknown { site: s });
    }
    let many = field_count(c);
    if FIELDS < many {
        return refuse(Refusal::TooManyFields {
            asked: many as u32,
            at: i as u32,
        });
    }
    let Some(row) = rule_lists::look(sites, rows, held, s) else {
        return constrain(
            m, n, tail, t, sites, rows, held, words, kids, equal, i, s, c,
        );
    };
    if !same_row(words, row, c) {
        return refuse(Refusal::Unreachable { site: s, other: s });
    }
    Progress {
        tail: t,
        held,
        equal,
        answer: Ok(()),
    }
}

// "2, first site before second."
fn equal_item(
    n: u16,
    t: u16,
    held: usize,
    eqs: &mut [u16],
    equal: usize,
    i: usize,
    a: u16,
    b: u16,
) -> Progress
    requires { Space equal i eqs.old }
    ensures { (m tail sites rows words kids : List ℕ) (l : Loading) → Way m n tail t sites rows words kids held eqs.old equal i l →
        Turn m n tail sites rows words kids eqs.new result i (load_item l i (Equal a b)) }
{
    let total = usize::from(n) + usize::from(t);
    if total <= usize::from(a) {
        return refuse(Refusal::Unknown { site: a });
    }
    if total <= usize::from(b) {
        return refuse(Refusal::Unknown { site: b });
    }
    eqs[equal] = a;
    eqs[equal + 1] = b;
    Progress {
        tail: t,
        held,
        equal: equal + 2,
        answer: Ok(()),
    }
}

fn take_item(
    m: &[u8],
    n: u16,
    tail: &mut [u64],
    t: u16,
    sites: &mut [u16],
    rows: &mut [u16],
    held: usize,
    words: &mut [u64],
    kids: &mut [u16],
    eqs: &mut [u16],
    equal: usize,
    i: usize,
    it: Item,
) -> Progress
    requires room { Room n t held i tail.old sites.old rows.old words.old kids.old }
    requires space { Space equal i eqs.old }
    ensures turn { (l : Loading) →
        Way m.now n tail.old t sites.old rows.old words.old kids.old held
        eqs.old equal i l →
        Turn m.now n tail.new sites.new rows.new words.new kids.new eqs.new result i
        (load_item l i it) }
    ensures inside { Inside kids.old → Inside kids.new }
{
    match it {
        Item::Is { site, constraint } => is_item(
            m, n, tail, t, sites, rows, held, words, kids, equal, i, site, constraint,
        ),
        Item::Equal { one, other } => equal_item(n, t, held, eqs, equal, i, one, other),
    }
}

// The items as written, until one is refused.
fn walk(
    m: &[u8],
    n: u16,
    tail: &mut [u64],
    sites: &mut [u16],
    rows: &mut [u16],
    words: &mut [u64],
    kids: &mut [u16],
    eqs: &mut [u16],
    items: &[u64],
    count: u8,
) -> Progress
    requires n_le_max_sites { (n ≤ max_sites) × (count ≤ max_items) }
    requires eqs_value { roomy tail.old sites.old rows.old words.old kids.old eqs.old ≡ true }
    ensures walk { let its = held_items items.now (min count max_items) in
        Walk m.now n tail.new sites.new rows.new words.new kids.new eqs.new result
        count its (load_items (no_items (sites_in m.now n)) 0 its) }
    ensures inside { Inside kids.old → Inside kids.new }
{
    let mut p = Progress {
        tail: 0,
        held: 0,
        equal: 0,
        answer: Ok(()),
    };
    for i in 0..count {
        let it = item_words::item_at(items, i);
        p = take_item(
            m, n, tail, p.tail, sites, rows, p.held, words, kids, eqs, p.equal, i as usize, it,
        );
        let Ok(()) = p.answer else {
            return p;
        };
    }
    p
}

// ---- the rule

#[tactic(auto, unfolding(crate::specs::Shown::roomy))]
fn has_room(
    tail: &[u64],
    sites: &[u16],
    rows: &[u16],
    words: &[u64],
    kids: &[u16],
    eqs: &[u16],
) -> bool
    ensures { result ≡ roomy tail.now sites.now rows.now words.now kids.now eqs.now }
{
    FIELDS * ITEMS <= tail.len()
        && ITEMS <= sites.len()
        && ITEMS <= rows.len()
        && 3 * ITEMS <= words.len()
        && FIELDS * ITEMS <= kids.len()
        && 2 * ITEMS <= eqs.len()
}

// Takes the `count` items of a rule as written, from words as they are handed over, then asks whether a named site hangs.
pub fn load_items(
    m: &[u8],
    n: u16,
    tail: &mut [u64],
    sites: &mut [u16],
    rows: &mut [u16],
    words: &mut [u64],
    kids: &mut [u16],
    eqs: &mut [u16],
    items: &[u64],
    count: u8,
) -> Progress
    ensures told { let room = roomy tail.old sites.old rows.old words.old kids.old eqs.old in
        let its = held_items items.now (min count max_items) in
        Told m.now n tail.new sites.new rows.new words.new kids.new eqs.new result
        (items_in room m.now n count its) }
    ensures long { AsLong tail.old sites.old rows.old words.old kids.old eqs.old
        tail.new sites.new rows.new words.new kids.new eqs.new }
    ensures inside { Inside kids.old → Inside kids.new }
    ensures rowed { Rowed rows.new count result }
{
    if SITES < usize::from(n) {
        return refuse(Refusal::TooManySites {
            asked: n as u32,
            at: count as u32,
        });
    }
    if !has_room(tail, sites, rows, words, kids, eqs) {
        return refuse(Refusal::TooManyItems {
            asked: count as u32,
        });
    }
    if ITEMS < count as usize {
        return refuse(Refusal::TooManyItems {
            asked: count as u32,
        });
    }
    let p = walk(m, n, tail, sites, rows, words, kids, eqs, items, count);
    let Ok(()) = p.answer else {
        return p;
    };
    match rule_hanging::hanging(m, n, tail, sites, rows, p.held, words, items, count) {
        Some(site) => refuse(Refusal::Hanging { site }),
        None => p,
    }
}
