// A rule of a sheet: 03, its items, and the load once the last of them is there.
#![tactic(auto)]

ghost use Rattle.std.specs.Prelude.{◌≡◌, ℕ, ◌+◌, ◌≤◌, ◌<◌, length};
ghost use Rattle.paper.specs.Numbers.{max_items};
ghost use Rattle.paper.specs.Layout.{a_rule, an_item};
ghost use Rattle.paper.specs.Sheets as paper;
ghost use Rattle.term_table.specs.Table.{Square};
ghost use Rattle.item_words.specs.Items.{Ranged};
ghost use Rattle.sheet_reader.specs.State.{lent, Tells, Ready};
ghost use Rattle.sheet_reader.specs.Answers.{Acts};
ghost use Rattle.sheet_reader.specs.Leaves.{after};
ghost use Rattle.sheet_rule.specs.Rules.{Reads, next_rule_of, item_kept};
ghost use Rattle.sheet_rule.specs.Leaves.{read_in, rule_in, item_in};

use item_words::hold_item;
use paper::{ITEMS, Item, RULES, Refusal};
use rule_load::load_handed;
use sheet_findings::write_refusal;
use sheet_reader::{
    Awaited, Event, OpenSet, Reader, Stands, Stepped, on, open_rule, rule_set, stop,
};

// One kept rule more; a set has no more than RULES. No `min`: a number that is past RULES stays (`next_rule_of`).
fn next_rule(n: u32) -> u32
    ensures { result ≡ next_rule_of n }
{
    if RULES <= n as usize { n } else { n + 1 }
}

// Does nothing: it tells what the types of the two numbers say of them.
fn range_of(place: u32, priority: u64) -> bool
    ensures { (place < 4294967296) × (priority < 18446744073709551616) }
{
    true
}

// A rule with all its items: kept, or an 11.
fn read_rule(
    r: Reader,
    set: OpenSet,
    rule: Awaited,
    m: &mut [u8],
    words: &mut [u64],
    items: &[u64],
    room: &mut [u8],
    at: usize,
) -> Stepped
    ensures room_after { (t : Square) →
        let k = lent m.old words.old items.now t in
        let k' = lent m.new words.new items.now t in
        after result k' room.new ≡ read_in r k room.old at set rule }
    ensures fact { Ready r room.old at → (t : Square) (p : paper.Ended) →
        let k = lent m.old words.old items.now t in
        let k' = lent m.new words.new items.now t in
        Reads r k k' room.old room.new at p set rule result }
{
    let place = rule.place;
    let priority = rule.priority;
    range_of(place, priority);
    match load_handed(
        m, set.sites, words, set.rules, place, priority, rule.count, items,
    ) {
        Ok(n) => {
            let more = OpenSet {
                sites: n,
                rules: next_rule(set.rules),
                ..set
            };
            on(r, Stands::Rules(more), Event::Kept { place, priority }, at)
        }
        Err(why) => {
            let to = write_refusal(place, why, room, at).unwrap_or(at);
            on(
                r,
                Stands::Rules(set),
                Event::Refused {
                    place,
                    priority,
                    why,
                },
                to,
            )
        }
    }
}

// 03: its items are to come, or there is none.
pub fn rule_frame(
    r: Reader,
    rule: Awaited,
    m: &mut [u8],
    words: &mut [u64],
    items: &[u64],
    room: &mut [u8],
    at: usize,
) -> Stepped
    ensures room_after { (t : Square) →
        let k = lent m.old words.old items.now t in
        let k' = lent m.new words.new items.now t in
        after result k' room.new ≡ rule_in r k room.old at rule }
    ensures acts { Ready r room.old at → (t : Square) (p : paper.Ended) →
        let k = lent m.old words.old items.now t in
        let k' = lent m.new words.new items.now t in
        Tells r k p → Acts r k k' room.old room.new at p (a_rule rule.place rule.priority rule.count) result }
{
    let Some(set) = rule_set(r.stands) else {
        return stop(r, Refusal::Layout { line: r.line }, room, at);
    };
    let left = rule.count;
    if left == 0 {
        return read_rule(r, set, rule, m, words, items, room, at);
    }
    on(r, Stands::Items { set, rule, left }, Event::Item, at)
}

// An item past the 32nd is read and not kept.
fn keep_item(items: &mut [u64], k: u8, item: Item)
    ensures { (items.new ≡ item_kept items.old k item) × (k < max_items → Ranged item) }
{
    if usize::from(k) < ITEMS {
        hold_item(items, k, item);
    }
}

// 04 and 05: with the last item the rule is read.
pub fn item_frame(
    r: Reader,
    item: Item,
    m: &mut [u8],
    words: &mut [u64],
    items: &mut [u64],
    room: &mut [u8],
    at: usize,
) -> Stepped
    ensures room_after { (t : Square) →
        let k = lent m.old words.old items.old t in
        let k' = lent m.new words.new items.new t in
        after result k' room.new ≡ item_in r k room.old at item }
    ensures acts { Ready r room.old at → (t : Square) (p : paper.Ended) →
        let k = lent m.old words.old items.old t in
        let k' = lent m.new words.new items.new t in
        Tells r k p → Acts r k k' room.old room.new at p (an_item item) result }
{
    let Some((set, rule, left)) = open_rule(r.stands) else {
        return stop(r, Refusal::Layout { line: r.line }, room, at);
    };
    keep_item(items, rule.count.saturating_sub(left), item);
    if left < 2 {
        return read_rule(r, set, rule, m, words, items, room, at);
    }
    let left = left - 1;
    on(r, Stands::Items { set, rule, left }, Event::Item, at)
}
