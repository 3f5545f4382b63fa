// A rule while its items come in, a line each: the items as words of lent memory, in which the rule is handed over when the last is there.
#![tactic(auto)]

ghost use Rattle.std.specs.Prelude.{◌≡◌, ℕ, ◌+◌, ◌*◌, ◌≤◌, ◌<◌, length, get_or, set};
ghost use Rattle.rule_words.specs.Stored.{put_four};
ghost use Rattle.rule_words.specs.Packing.{InRange};
ghost use Rattle.item_words.specs.Items.{Ranged, put_words, put_item, item_at};

use paper::{ITEMS, Item};
use rule_words::{pack, unpack, word};

// Words that an item takes: its first site, and the three words of its constraint or its second site.
pub const ITEM: usize = 4;

// Words that the items of a rule take.
pub const ITEMS_ROOM: usize = ITEM * ITEMS;

// What an equality has in its first word besides its first site.
pub const EQUAL: u64 = 65536;

// Four words at `at`; where they are not all there, none is written.
#[tactic(auto, unfolding(crate::specs::Items::put_words, rule_words::specs::Stored::put_four))]
fn put(words: &mut [u64], at: usize, a: u64, b: u64, c: u64, d: u64)
    requires { at < 100000 }
    ensures { words.new ≡ put_words words.old at a b c d }
{
    if at + ITEM <= words.len() {
        words[at] = a;
        words[at + 1] = b;
        words[at + 2] = c;
        words[at + 3] = d;
    }
}

// Item k of the rule.
pub fn hold_item(words: &mut [u64], k: u8, item: Item)
    ensures words_after { words.new ≡ put_item words.old k item }
    ensures ranged { Ranged item }
{
    let at = ITEM * usize::from(k);
    match item {
        Item::Is { site, constraint } => {
            let p = pack(constraint);
            put(words, at, u64::from(site), p.head, p.second, p.third);
        }
        Item::Equal { one, other } => {
            put(words, at, EQUAL + u64::from(one), u64::from(other), 0, 0);
        }
    }
}

// Item k as it was held.
#[tactic(auto, unfolding(crate::specs::Items::item_at, crate::specs::Items::item_of))]
pub fn item_at(words: &[u64], k: u8) -> Item
    ensures { result ≡ item_at words.now k }
{
    let at = ITEM * usize::from(k);
    let a = word(words, at);
    if a < EQUAL {
        return Item::Is {
            site: a as u16,
            constraint: unpack(
                word(words, at + 1),
                word(words, at + 2),
                word(words, at + 3),
            ),
        };
    }
    Item::Equal {
        one: (a % 65536) as u16,
        other: (word(words, at + 1) % 65536) as u16,
    }
}
