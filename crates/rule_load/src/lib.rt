// Loading a rule into a set whose sites and kept rules lie in lent memory.
// The lent table is only read until the rule is kept: new sites wait as words of a tail.
#![tactic(auto)]

ghost use Rattle.std.specs.Prelude.{◌≡◌, List, ◌∷◌, [], ℕ, ◌+◌, ◌*◌, ◌<◌, ◌≤◌, min, length, get_or, take};
ghost use Rattle.paper.specs.Numbers.{max_sites, max_items, max_constrained, max_equal, done};
ghost use Rattle.paper.specs.declared.Item.{Item};
ghost use Rattle.paper.specs.Sites.{body};
ghost use Rattle.paper.specs.Loading as P;
ghost use Rattle.rule_words.specs.Stored.{written};
ghost use Rattle.sites.specs.Slots.{slot, put, store};
ghost use Rattle.rule_children.specs.Tail.{site_of_word};
ghost use Rattle.item_words.specs.Items.{items_in, rule_in};
ghost use Rattle.rule_rounds.specs.Rounding.{Rounds, Unless, LaidOut, Leaves, memory};
ghost use Rattle.rule_load.specs.Whole.{load_in, loaded_as, sites_after, words_after};
ghost use Rattle.rule_load.specs.Parts.{has_place, admitted, answer_as, worked, settled, ChildWord, Lent, Left, Keepable, Finishable, Finishes, Answers, Tries, gathered, new_sites};

use item_words::ITEMS_ROOM;
use paper::{CONSTRAINED, EQUALS, FIELDS, ITEMS, RULES, Refusal, Rule, SITES};
use rule_items::Progress;
use rule_rounds::{Halt, Solved, Start};
use sites::SLOT;

// For each item the three words of its constraint, the numbers of its children, and two numbers of an equality.
const SHAPES: usize = 3 * ITEMS;

const KIDS: usize = FIELDS * ITEMS;

const NUMBERS: usize = 2 * ITEMS;

// The most items of a rule, as it counts them.
const MANY: u8 = ITEMS as u8;

// Lists that do for a rule that is kept: for its new sites, its constrained sites, and the sites that may be joined.
const FEW_CHILDREN: usize = KIDS;

const FEW_SITES: usize = 2 * CONSTRAINED;

const FEW_JOINED: usize = FEW_SITES + 2 * FIELDS;

// Does a kept rule have the place?
fn used(words: &[u64], kept: u32, place: u32) -> bool
    ensures { result ≡ has_place words.now kept place }
{
    for i in 0..kept {
        if rule_words::place(words, rule_words::start(i)) == place {
            return true;
        }
    }
    false
}

// The checks before the items: 23 for the rule count, then 24 for the item count; 8.
fn admit(n: u16, words: &[u64], kept: u32, place: u32, count: u8) -> Result<(), Refusal>
    ensures { result ≡ answer_as (admitted n words.now kept place count) }
{
    if RULES <= kept as usize {
        return Err(Refusal::TooManyRules {
            asked: RULES as u32 + 1,
        });
    }
    if words.len() < rule_words::start(kept) + rule_words::STRIDE {
        return Err(Refusal::TooManyRules { asked: kept + 1 });
    }
    if SITES < usize::from(n) {
        return Err(Refusal::TooManySites {
            asked: u32::from(n),
            at: u32::from(count),
        });
    }
    if ITEMS < usize::from(count) {
        return Err(Refusal::TooManyItems {
            asked: u32::from(count),
        });
    }
    if used(words, kept, place) {
        return Err(Refusal::PlaceUsed { place });
    }
    Ok(())
}

fn refuse(why: Refusal) -> Solved
    ensures { result.answer ≡ Err (Halt.Refused why) }
{
    Solved {
        tail: 0,
        held: 0,
        equal: 0,
        answer: Err(Halt::Refused(why)),
    }
}

// The rounds over lists that are laid out for them.
fn turn(
    m: &[u8],
    a: Start,
    tail: &mut [u64],
    sites: &mut [u16],
    rows: &mut [u16],
    shapes: &[u64],
    eqs: &[u16],
    joined: &mut [u16],
    list: &mut [u16],
    equal: &mut [u16; EQUALS],
    low: &mut [u16; EQUALS],
) -> Solved
    requires { LaidOut m.now a shapes.now eqs.now (memory tail.old sites.old rows.old joined.old list.old equal.old low.old) }
    ensures { let before = memory tail.old sites.old rows.old joined.old list.old
        equal.old low.old in
        let after = memory tail.new sites.new rows.new joined.new list.new
        equal.new low.new in
        Leaves m.now a shapes.now eqs.now before after result }
{
    rule_rounds::rounds(
        m, a, tail, sites, rows, shapes, eqs, joined, list, equal, low,
    )
    .unwrap()
}

// The class check, then the rounds, of what the items left.
fn normalise(
    m: &[u8],
    n: u16,
    tail: &mut [u64],
    sites: &mut [u16],
    rows: &mut [u16],
    joined: &mut [u16],
    list: &mut [u16],
    shapes: &[u64],
    kids: &[u16],
    eqs: &[u16],
    a: Progress,
    equal: &mut [u16; EQUALS],
    low: &mut [u16; EQUALS],
    count: u8,
) -> Solved
    requires left { (is : List Item)
        × Left m.now n tail.old sites.old rows.old shapes.now kids.now eqs.now equal.old low.old a count is }
    requires sites_in_bounds { (length sites.old ≤ length joined.old) × (length joined.old ≤ length list.old) }
    ensures { Unless result.answer tail.old sites.old
        ((is : List Item)
        → Left m.now n tail.old sites.old rows.old shapes.now kids.now
        eqs.now equal.old low.old a count is
        → Rounds m.now n tail.new sites.new rows.new shapes.now
        equal.new low.new result (worked m.now n count is)) }
{
    let held = a.held;
    let k = a.equal;
    let v = rule_check::check(&eqs[..k], &sites[..held], &rows[..held], shapes, kids);
    if let Err(told) = v {
        return refuse(told);
    }
    let start = Start {
        known: n,
        tail: a.tail,
        held,
        at: u32::from(count),
    };
    turn(
        m,
        start,
        tail,
        sites,
        rows,
        shapes,
        &eqs[..k],
        joined,
        list,
        equal,
        low,
    )
}

// The items and 5, then the class check, then the rounds.
fn solve(
    m: &[u8],
    n: u16,
    tail: &mut [u64],
    sites: &mut [u16],
    rows: &mut [u16],
    joined: &mut [u16],
    list: &mut [u16],
    shapes: &mut [u64],
    equal: &mut [u16; EQUALS],
    low: &mut [u16; EQUALS],
    items: &[u64],
    count: u8,
) -> Solved
    requires lent { Lent tail.old sites.old rows.old
        × ((3 * max_items ≤ length shapes.old) × ((max_equal ≤ length equal.old) × (max_equal ≤ length low.old))) }
    requires sites_in_bounds { (length sites.old ≤ length joined.old) × (length joined.old ≤ length list.old) }
    ensures { Unless result.answer tail.old sites.old
        (Rounds m.now n tail.new sites.new rows.new shapes.new
        equal.new low.new result
        (worked m.now n count (items_in items.now (min count max_items)))) }
{
    let mut kids = [0u16; KIDS];
    let mut eqs = [0u16; NUMBERS];
    let a = rule_items::load_items(
        m, n, tail, sites, rows, shapes, &mut kids, &mut eqs, items, count,
    );
    if let Err(why) = a.answer {
        return refuse(why);
    }
    normalise(
        m, n, tail, sites, rows, joined, list, shapes, &kids, &eqs, a, equal, low, count,
    )
}

// The checks of the result: 25, then 26. Then 20 if the lent bytes can't hold its table: told are the slots that they are, and one.
fn settle(total: usize, held: usize, equal: usize, room: usize, count: u8) -> Result<(), Refusal>
    requires { (total ≤ max_sites) × (held < 4294967296) × (equal < 4294967296) }
    ensures { result ≡ answer_as (settled total held equal room count) }
{
    if CONSTRAINED < held {
        return Err(Refusal::TooManyConstrained { asked: held as u32 });
    }
    if EQUALS < equal {
        return Err(Refusal::TooManyEqual {
            asked: equal as u32,
        });
    }
    if room < total * SLOT {
        return Err(Refusal::TooManySites {
            asked: (room / SLOT) as u32 + 1,
            at: u32::from(count),
        });
    }
    Ok(())
}

// The words of the constraints, three a site, in the order of the sites.
fn gather(rows: &[u16], held: usize, shapes: &[u64], out: &mut [u64])
    requires { (held ≤ length rows.now) × (held ≤ max_constrained) × (3 * max_items ≤ length shapes.now) × (3 * max_items ≤ length out.old)
        × ((i : ℕ) → i < held → get_or rows.now i 0 < max_items) }
    ensures { take (3 * held) out.new ≡ gathered rows.now shapes.now (3 * held) }
{
    for k in 0..3 * held {
        let row = usize::from(rows[k / 3]);
        out[k] = shapes[3 * row + k % 3];
    }
}

// Writes bytes at a place.
fn put_bytes(m: &mut [u8], at: usize, bytes: &[u8])
    requires { at + length bytes.now ≤ length m.old }
    ensures { m.new ≡ put m.old at bytes.now }
{
    m[at..at + bytes.len()].copy_from_slice(bytes);
}

// Writes the body of a child into slot i: its length, its kind, its source, and what else the kind has.
// The kinds stay numbers, since they are the bytes that slots hold: 8 for a field of a variant, 10 for one of a struct, 12 for what `Some` holds.
fn write_child(m: &mut [u8], i: usize, w: u64)
    requires { (i < max_sites) × (i * slot + slot ≤ length m.old) × ChildWord w }
    ensures { m.new ≡ put m.old (i * slot) (length (body (site_of_word w)) ∷ body (site_of_word w)) }
{
    let at = i * SLOT;
    let kind = w % 256;
    let s = rule_children::source_of(w);
    let high = (s / 256) as u8;
    let low = (s % 256) as u8;
    let field = (w / 256 % 256) as u8;
    if kind == 8 {
        let variant = w / 256 / 256 % 65536;
        let of_variant = [
            6,
            8,
            high,
            low,
            (variant / 256) as u8,
            (variant % 256) as u8,
            field,
        ];
        put_bytes(m, at, &of_variant);
    } else if kind == 10 {
        put_bytes(m, at, &[4, 10, high, low, field]);
    } else {
        put_bytes(m, at, &[3, 12, high, low]);
    }
}

// Writes the new sites into their slots.
fn write_children(m: &mut [u8], n: u16, tail: &[u64], t: u16)
    requires { (n + t ≤ max_sites) × ((n + t) * slot ≤ length m.old) × (t ≤ length tail.now) × ((i : ℕ) → i < t → ChildWord (get_or tail.now i 0)) }
    ensures { m.new ≡ store m.old n (new_sites tail.now t) }
{
    let first = usize::from(n);
    for i in 0..usize::from(t) {
        write_child(m, first + i, tail[i]);
    }
}

// Writes the new sites into their slots, and the rule into its stride.
fn keep(
    m: &mut [u8],
    n: u16,
    words: &mut [u64],
    kept: u32,
    place: u32,
    priority: u64,
    tail: &[u64],
    sites: &[u16],
    rows: &[u16],
    shapes: &[u64],
    equal: &[u16],
    low: &[u16],
    s: Solved,
)
    requires { Keepable (length m.old) n tail.now sites.now rows.now shapes.now equal.now low.now s }
    ensures m_after { m.new ≡ store m.old n (new_sites tail.now s.tail) }
    ensures lent_words { words.new ≡ written words.old kept place priority (take s.held sites.now)
        (gathered rows.now shapes.now (3 * s.held)) (take s.equal equal.now) (take s.equal low.now) }
{
    let mut out = [0u64; SHAPES];
    gather(rows, s.held, shapes, &mut out);
    write_children(m, n, tail, s.tail);
    rule_words::write(
        words,
        kept,
        place,
        priority,
        &sites[..s.held],
        &out[..3 * s.held],
        &equal[..s.equal],
        &low[..s.equal],
    );
}

// The checks of the result, and what is written of a rule that passes them.
fn finish(
    m: &mut [u8],
    n: u16,
    words: &mut [u64],
    kept: u32,
    place: u32,
    priority: u64,
    count: u8,
    tail: &[u64],
    sites: &[u16],
    rows: &[u16],
    shapes: &[u64],
    equal: &[u16],
    low: &[u16],
    s: Solved,
) -> Result<u16, Refusal>
    requires { Finishable n tail.now sites.now rows.now shapes.now equal.now low.now s }
    ensures { Finishes m.old n words.old kept place priority tail.now sites.now rows.now
        shapes.now equal.now low.now s result m.new words.new
        (settled (n + s.tail) s.held s.equal (length m.old) count) }
{
    let total = n + s.tail;
    settle(usize::from(total), s.held, s.equal, m.len(), count)?;
    keep(
        m, n, words, kept, place, priority, tail, sites, rows, shapes, equal, low, s,
    );
    Ok(total)
}

// Loads an admitted rule with the lent lists. Where they are too short for it nothing is written.
fn attempt(
    m: &mut [u8],
    n: u16,
    words: &mut [u64],
    kept: u32,
    place: u32,
    priority: u64,
    count: u8,
    items: &[u64],
    tail: &mut [u64],
    sites: &mut [u16],
    rows: &mut [u16],
    joined: &mut [u16],
    list: &mut [u16],
) -> Option<Result<u16, Refusal>>
    requires lent { Lent tail.old sites.old rows.old × (admitted n words.old kept place count ≡ done tt) }
    requires sites_in_bounds { (length sites.old ≤ length joined.old) × (length joined.old ≤ length list.old) }
    ensures { Tries m.old n words.old kept (rule_in items.now place priority count)
        tail.old sites.old m.new words.new result }
{
    let mut shapes = [0u64; SHAPES];
    let mut equal = [0u16; EQUALS];
    let mut low = [0u16; EQUALS];
    let s = solve(
        m,
        n,
        tail,
        sites,
        rows,
        joined,
        list,
        &mut shapes,
        &mut equal,
        &mut low,
        items,
        count,
    );
    match s.answer {
        Err(Halt::Short) => None,
        Err(Halt::Refused(why)) => Some(Err(why)),
        Ok(()) => Some(finish(
            m, n, words, kept, place, priority, count, tail, sites, rows, &shapes, &equal, &low, s,
        )),
    }
}

// Loads an admitted rule with lists that are never too short. Apart from `load_handed`, so that its lists take stack only for a rule that needs them.
fn at_large(
    m: &mut [u8],
    n: u16,
    words: &mut [u64],
    kept: u32,
    place: u32,
    priority: u64,
    count: u8,
    items: &[u64],
) -> Result<u16, Refusal>
    requires { admitted n words.old kept place count ≡ done tt }
    ensures { Answers m.old n words.old kept (rule_in items.now place priority count) result
        m.new words.new }
{
    let mut tail = [0u64; SITES];
    let mut sites = [0u16; SITES];
    let mut rows = [0u16; SITES];
    let mut joined = [0u16; SITES];
    let mut list = [0u16; SITES];
    attempt(
        m,
        n,
        words,
        kept,
        place,
        priority,
        count,
        items,
        &mut tail,
        &mut sites,
        &mut rows,
        &mut joined,
        &mut list,
    )
    .unwrap()
}

// Loads a rule, whose items are held as words, over the n sites of m and the `kept` rules of `words`: how many sites there are then. A refused rule
// changes nothing.
// A rule that is kept has at most 32 constrained sites, so short lists do for it. Past them the rule is refused, and full lists tell why.
pub fn load_handed(
    m: &mut [u8],
    n: u16,
    words: &mut [u64],
    kept: u32,
    place: u32,
    priority: u64,
    count: u8,
    items: &[u64],
) -> Result<u16, Refusal>
    ensures value { result ≡ loaded_as (load_in m.old n words.old kept (rule_in items.now place priority count)) }
    ensures m_after { m.new ≡ sites_after m.old n
        (load_in m.old n words.old kept (rule_in items.now place priority count)) }
    ensures lent_words { words.new ≡ words_after words.old kept
        (load_in m.old n words.old kept (rule_in items.now place priority count)) }
{
    admit(n, words, kept, place, count)?;
    let mut tail = [0u64; FEW_CHILDREN];
    let mut sites = [0u16; FEW_SITES];
    let mut rows = [0u16; FEW_SITES];
    let mut joined = [0u16; FEW_JOINED];
    let mut list = [0u16; FEW_JOINED];
    let a = attempt(
        m,
        n,
        words,
        kept,
        place,
        priority,
        count,
        items,
        &mut tail,
        &mut sites,
        &mut rows,
        &mut joined,
        &mut list,
    );
    match a {
        Some(out) => out,
        None => at_large(m, n, words, kept, place, priority, count, items),
    }
}

// Holds the items of a rule as words.
fn hold(rule: Rule, out: &mut [u64])
    requires { 4 * max_items ≤ length out.old }
    ensures { items_in out.new (min rule.count max_items) ≡ (P.written rule).items }
{
    for k in 0..rule.count.min(MANY) {
        let e = rule.entries[usize::from(k)];
        item_words::hold_item(out, k, e.item);
    }
}

// Loads a rule over the n sites of m and the `kept` rules of `words`: how many sites there are then. A refused rule changes nothing.
pub fn load(m: &mut [u8], n: u16, words: &mut [u64], kept: u32, rule: Rule) -> Result<u16, Refusal>
    ensures value { result ≡ loaded_as (load_in m.old n words.old kept rule) }
    ensures m_after { m.new ≡ sites_after m.old n (load_in m.old n words.old kept rule) }
    ensures lent_words { words.new ≡ words_after words.old kept (load_in m.old n words.old kept rule) }
{
    let mut items = [0u64; ITEMS_ROOM];
    hold(rule, &mut items);
    load_handed(
        m,
        n,
        words,
        kept,
        rule.place,
        rule.priority,
        rule.count,
        &items,
    )
}
