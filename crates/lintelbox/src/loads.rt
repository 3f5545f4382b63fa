// Loading a rule. Its items cross as four words each, as `item_words` holds them: the site and the three words of its constraint, or 65,536 and the first
// site, then the second. Words that no item packs to are refused, so that memory which was not cleared is never taken for another rule.
ghost use Rattle.std.specs.Prelude.{◌≡◌, [], ◌∷◌, ◌*◌, length};
ghost use Rattle.item_words.specs.Items.{rule_in};
ghost use Rattle.rule_load.specs.Whole.{load_in, sites_after, words_after};
ghost use Rattle.box_answers.specs.Border.{answer_words, said_by, has_room, both, answered, after};
ghost use Rattle.box_answers.specs.Loads.{item_words, handed};

use box_answers::calls::loaded_said;
use box_answers::{ANSWER, SHORT, refused, say};
use item_words::ITEM;
use paper::Refusal;

// Loads a rule into the set of the first `count` sites and the first `kept` rules: how many sites there are then.
#[unsafe(no_mangle)]
pub extern "C" fn lintel_load(
    slots: &mut [u8],
    count: u16,
    words: &mut [u64],
    kept: u32,
    place: u32,
    priority: u64,
    items: &[u64],
    many: u8,
    answer: &mut [u64],
) -> u32
    ensures result_after { let fits = both (has_room items.now (item_words * many)) (has_room answer.old answer_words) in
        let loaded = load_in slots.old count words.old kept (rule_in items.now place priority many) in
        let judged = handed items.now many loaded in
        (answer.new, result) ≡ answered fits answer.old (said_by (λ g. length g.sites ∷ []) judged) }
    ensures slots_after { let fits = both (has_room items.now (item_words * many)) (has_room answer.old answer_words) in
        let loaded = load_in slots.old count words.old kept (rule_in items.now place priority many) in
        let judged = handed items.now many loaded in
        slots.new ≡ after fits slots.old (sites_after slots.old count judged) }
    ensures lent_words { let fits = both (has_room items.now (item_words * many)) (has_room answer.old answer_words) in
        let loaded = load_in slots.old count words.old kept (rule_in items.now place priority many) in
        let judged = handed items.now many loaded in
        words.new ≡ after fits words.old (words_after words.old kept judged) }
{
    if items.len() < ITEM * usize::from(many) {
        return SHORT;
    }
    if answer.len() < ANSWER {
        return SHORT;
    }
    let first = item_layout::stray(items, many);
    if first < many {
        return say(
            answer,
            refused(Refusal::Layout {
                line: u32::from(first),
            }),
        );
    }
    let l = rule_load::load_handed(slots, count, words, kept, place, priority, many, items);
    say(answer, loaded_said(l))
}
