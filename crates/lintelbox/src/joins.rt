// The class calls. The classes are three lent parts, made empty by `lintel_classes_clear` and changed by these calls alone.
ghost use Rattle.std.specs.Prelude.{◌≡◌, List, [], ◌∷◌, ℕ};
ghost use Rattle.paper.specs.Numbers.{max_sites};
ghost use Rattle.paper.specs.Classes as C;
ghost use Rattle.classes.specs.Answers.{two_classes};
ghost use Rattle.box_answers.specs.Border.{answer_words, said_by, left_by, has_room, both, answered, after, bit, trail_words, flattened_words, removed_words, listed_in};

use box_answers::calls::{joined_said, looked_said, same_said, sought_said, taken_said};
use box_answers::{ANSWER, SHORT, say};
use paper::SITES;

// "Classes start empty".
#[unsafe(no_mangle)]
pub extern "C" fn lintel_classes_clear(
    parents: &mut [u16; SITES],
    ranks: &mut [u8; SITES],
    count: &mut u16,
)
    ensures { C.classes parents.new ranks.new count.new ≡ C.no_classes }
{
    classes::clear_in(parents, ranks, count);
}

// The representative, or NONE, and the links followed.
#[unsafe(no_mangle)]
pub extern "C" fn lintel_find(parents: &[u16; SITES], site: u16, answer: &mut [u64]) -> u32
    ensures { (R : List ℕ) (n : ℕ) →
        let c = C.classes parents.now R n in
        (answer.new, result) ≡ answered (has_room answer.old answer_words) answer.old (said_by trail_words (C.find c site)) }
{
    let l = classes::find_in(parents, site);
    say(answer, looked_said(l))
}

// The representative, or NONE; every site passed on the way is hung directly under it.
#[unsafe(no_mangle)]
pub extern "C" fn lintel_find_mut(parents: &mut [u16; SITES], site: u16, answer: &mut [u64]) -> u32
    ensures by_index { (R : List ℕ) (n : ℕ) →
        let c = C.classes parents.old R n in
        (answer.new, result) ≡ answered (has_room answer.old answer_words) answer.old
        (said_by flattened_words (C.find_mut c site)) }
    ensures by_index_2 { (R : List ℕ) (n : ℕ) →
        let c = C.classes parents.old R n in
        C.classes parents.new R n ≡ after (has_room answer.old answer_words) c (left_by c (λ h. h.after) (C.find_mut c site)) }
{
    if answer.len() < ANSWER {
        return SHORT;
    }
    let s = classes::find_mut_in(parents, site);
    say(answer, sought_said(s))
}

// 1 where two classes became one, a lone site being one of its own; else 0.
#[unsafe(no_mangle)]
pub extern "C" fn lintel_merge(
    parents: &mut [u16; SITES],
    ranks: &mut [u8; SITES],
    count: &mut u16,
    site: u16,
    other: u16,
    answer: &mut [u64],
) -> u32
    ensures result_after { let c = C.classes parents.old ranks.old count.old in
        let says = said_by (λ _. bit (two_classes c site other) ∷ []) (C.merge c site other) in
        (answer.new, result) ≡ answered (has_room answer.old answer_words) answer.old says }
    ensures count_after { let c = C.classes parents.old ranks.old count.old in
        C.classes parents.new ranks.new count.new ≡
        after (has_room answer.old answer_words) c (left_by c (λ x. x) (C.merge c site other)) }
{
    if answer.len() < ANSWER {
        return SHORT;
    }
    let j = classes::merge_in(parents, ranks, count, site, other);
    say(answer, joined_said(j))
}

// 1 where both are in one class, else 0.
#[unsafe(no_mangle)]
pub extern "C" fn lintel_in_same_set(
    parents: &[u16; SITES],
    site: u16,
    other: u16,
    answer: &mut [u64],
) -> u32
    ensures { (R : List ℕ) (n : ℕ) →
        let c = C.classes parents.now R n in
        (answer.new, result) ≡
        answered (has_room answer.old answer_words) answer.old (said_by (λ b. bit b ∷ []) (C.in_same_set c site other)) }
{
    let e = classes::in_same_set_in(parents, site, other);
    say(answer, same_said(e))
}

// Takes the site's class apart: how many members it had. They stand first in `members`, ascending.
#[unsafe(no_mangle)]
pub extern "C" fn lintel_remove_set_of(
    parents: &mut [u16; SITES],
    count: &mut u16,
    site: u16,
    members: &mut [u16],
    answer: &mut [u64],
) -> u32
    ensures by_index { (R : List ℕ) →
        let c = C.classes parents.old R count.old in
        let fits = both (has_room members.old max_sites) (has_room answer.old answer_words) in
        (answer.new, result) ≡ answered fits answer.old (said_by removed_words (C.remove_set_of c site)) }
    ensures by_index_2 { (R : List ℕ) →
        let c = C.classes parents.old R count.old in
        let fits = both (has_room members.old max_sites) (has_room answer.old answer_words) in
        C.classes parents.new R count.new ≡ after fits c (left_by c (λ q. q.after) (C.remove_set_of c site)) }
    ensures by_index_3 { (R : List ℕ) →
        let c = C.classes parents.old R count.old in
        let fits = both (has_room members.old max_sites) (has_room answer.old answer_words) in
        let m = members.old in
        members.new ≡ after fits m (left_by m (λ q. listed_in m q.members) (C.remove_set_of c site)) }
{
    if members.len() < SITES {
        return SHORT;
    }
    if answer.len() < ANSWER {
        return SHORT;
    }
    let t = class_removal::remove_set_of_in(parents, count, site, members);
    say(answer, taken_said(t))
}

// How many sites are in classes.
#[unsafe(no_mangle)]
pub extern "C" fn lintel_len(count: &u16) -> u32
    ensures { (P R : List ℕ) → result ≡ C.len (C.classes P R count.now) }
{
    u32::from(*count)
}

// 1 where no site is in a class, else 0.
#[unsafe(no_mangle)]
#[tactic(auto, unfolding(paper::specs::Classes::is_empty))]
pub extern "C" fn lintel_is_empty(count: &u16) -> u32
    ensures { (P R : List ℕ) → result ≡ bit (C.is_empty (C.classes P R count.now)) }
{
    u32::from(*count == 0)
}
