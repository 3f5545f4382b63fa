// A set's sites: the lent bytes are slots of 32, and the caller keeps how many are used.
ghost use Rattle.std.specs.Prelude.{◌≡◌, [], ◌∷◌, ◌*◌};
ghost use Rattle.std.proofs.Math.ListN.{length};
ghost use Rattle.paper.specs.Sites.{unfold_answer};
ghost use Rattle.sites.specs.Slots.{slot, sites_in, added_in, after_add, after_unfold};
ghost use Rattle.box_answers.specs.Border.{answer_words, said_by, has_room, both, answered, after, added_words};

use box_answers::calls::{numbered_said, unfolded_said};
use box_answers::{ANSWER, SHORT, say};
use sites::SLOT;

// Adds the site with this body to the first `count`: its number, and 1 where it is new. `line` is told where the body is none.
#[unsafe(no_mangle)]
pub extern "C" fn lintel_add_site(
    slots: &mut [u8],
    count: u16,
    body: &[u8],
    line: u32,
    answer: &mut [u64],
) -> u32
    ensures result_after { let added = added_in slots.old count line body.now in
        (answer.new, result) ≡ answered (has_room answer.old answer_words) answer.old (said_by (added_words count) added) }
    ensures slots_after { let added = added_in slots.old count line body.now in
        slots.new ≡ after (has_room answer.old answer_words) slots.old (after_add slots.old count added) }
{
    if answer.len() < ANSWER {
        return SHORT;
    }
    let n = sites::add(slots, count, body, line);
    say(answer, numbered_said(n))
}

// Writes the unfolding of a site into the room: how many bytes. The slice holds all the sites that there are, or nothing is read.
#[unsafe(no_mangle)]
pub extern "C" fn lintel_unfold(
    slots: &[u8],
    count: u16,
    site: u16,
    room: &mut [u8],
    answer: &mut [u64],
) -> u32
    ensures result_after { let fits = both (has_room slots.now (slot * count)) (has_room answer.old answer_words) in
        let unfolded = unfold_answer (sites_in slots.now count) (length room.old) site in
        (answer.new, result) ≡ answered fits answer.old (said_by (λ u. length u ∷ []) unfolded) }
    ensures room_after { let fits = both (has_room slots.now (slot * count)) (has_room answer.old answer_words) in
        let unfolded = unfold_answer (sites_in slots.now count) (length room.old) site in
        room.new ≡ after fits room.old (after_unfold room.old unfolded) }
{
    if slots.len() < SLOT * usize::from(count) {
        return SHORT;
    }
    if answer.len() < ANSWER {
        return SHORT;
    }
    let u = sites::unfold(slots, count, site, room);
    say(answer, unfolded_said(u))
}
