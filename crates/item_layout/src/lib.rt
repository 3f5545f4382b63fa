// Items of a rule that are handed over as words: are they as laid out? `item_words` reads any words as some item; here is which words are an item's own, so
// that memory which was not cleared is never taken for another rule.
#![tactic(auto)]

ghost use Rattle.std.specs.Prelude.{◌≡◌};
ghost use Rattle.item_layout.specs.Layout.{shaped, paired, laid_out, stray};

use item_words::{EQUAL, ITEM};
use rule_words::{pack, unpack, word};

// Are these the three words of a constraint? What they are read as is packed again and compared.
#[tactic(auto, unfolding(crate::specs::Layout::shaped, paper::specs::Words::same_list))]
fn shaped(b: u64, c: u64, d: u64) -> bool
    ensures { result ≡ shaped b c d }
{
    let p = pack(unpack(b, c, d));
    p.head == b && p.second == c && p.third == d
}

// Are these the four words of an equality? Its sites have two bytes each, and the last two words are zeros.
#[tactic(auto, unfolding(crate::specs::Layout::paired, paper::specs::Words::same_list))]
fn paired(a: u64, b: u64, c: u64, d: u64) -> bool
    ensures { result ≡ paired a b c d }
{
    a == EQUAL + a % EQUAL && b < EQUAL && c == 0 && d == 0
}

// Do the words of item k stand for an item, each number within its width and nothing besides?
pub fn laid_out(words: &[u64], k: u8) -> bool
    ensures { result ≡ laid_out words.now k }
{
    let at = ITEM * usize::from(k);
    let a = word(words, at);
    let b = word(words, at + 1);
    let c = word(words, at + 2);
    let d = word(words, at + 3);
    if a < EQUAL {
        return shaped(b, c, d);
    }
    paired(a, b, c, d)
}

// The first of `many` items that is not as laid out; `many` where each is.
pub fn stray(words: &[u64], many: u8) -> u8
    ensures { result ≡ stray words.now many }
{
    for k in 0..many {
        if !laid_out(words, k) {
            return k;
        }
    }
    many
}
