// Terms in cycles. The table is a square of 256 rows of 4 words, a row of marks for each term; `recs` is one such row.
ghost use Rattle.std.specs.Prelude.{◌≡◌, [], ◌∷◌, ◌++◌, ◌≤◌, length, drop};
ghost use Rattle.term_table.specs.Table.{terms, no_edges, no_marks, with_edge, with_term, unflagged, listed};
ghost use Rattle.box_answers.specs.Border.{answer_words, said, said_by, left_by, has_room, both, answered, after};

use box_answers::calls::added_said;
use box_answers::{ANSWER, SHORT, done, say};
use paper::TERMS;
use term_table::WORDS;

// No edges, and no term with rec.
#[unsafe(no_mangle)]
#[tactic(auto, unfolding(term_table::specs::Table::no_marks))]
pub extern "C" fn lintel_terms_clear(table: &mut [[u64; WORDS]; TERMS], recs: &mut [u64; WORDS])
    ensures { (table.new ≡ no_edges) × (recs.new ≡ no_marks) }
{
    *table = term_table::empty();
    *recs = [0u64; WORDS];
}

// Adds the edge that runs from one term to another.
#[unsafe(no_mangle)]
pub extern "C" fn lintel_add_edge(
    table: &mut [[u64; WORDS]; TERMS],
    from: u16,
    to: u16,
    answer: &mut [u64],
) -> u32
    ensures result_after { let marked = with_edge table.old from to in
        (answer.new, result) ≡ answered (has_room answer.old answer_words) answer.old (said_by (λ _. []) marked) }
    ensures table_after { let marked = with_edge table.old from to in
        table.new ≡ after (has_room answer.old answer_words) table.old (left_by table.old (λ t. t) marked) }
{
    if answer.len() < ANSWER {
        return SHORT;
    }
    let a = term_table::add(table, from, to);
    say(answer, added_said(a))
}

// Marks a term that has rec.
#[unsafe(no_mangle)]
pub extern "C" fn lintel_mark_rec(recs: &mut [u64; WORDS], term: u16, answer: &mut [u64]) -> u32
    ensures result_after { let marked = with_term recs.old term in
        (answer.new, result) ≡ answered (has_room answer.old answer_words) answer.old (said_by (λ _. []) marked) }
    ensures recs_after { let marked = with_term recs.old term in
        recs.new ≡ after (has_room answer.old answer_words) recs.old (left_by recs.old (λ t. t) marked) }
{
    if answer.len() < ANSWER {
        return SHORT;
    }
    let a = term_table::flag(recs, term);
    say(answer, added_said(a))
}

// The cyclic terms without rec: how many. They stand first in `found`, ascending, and zeros after them up to 256.
#[unsafe(no_mangle)]
pub extern "C" fn lintel_cyclic_terms(
    table: &[[u64; WORDS]; TERMS],
    recs: &[u64; WORDS],
    found: &mut [u16],
    answer: &mut [u64],
) -> u32
    ensures result_after { let fits = both (has_room found.old terms) (has_room answer.old answer_words) in
        let cyclic = unflagged table.now recs.now in
        (answer.new, result) ≡ answered fits answer.old (said 0 (length cyclic ∷ [])) }
    ensures found_after { let fits = both (has_room found.old terms) (has_room answer.old answer_words) in
        let cyclic = unflagged table.now recs.now in
        found.new ≡ after fits found.old ((listed cyclic).terms ++ drop terms found.old) }
{
    if found.len() < TERMS {
        return SHORT;
    }
    if answer.len() < ANSWER {
        return SHORT;
    }
    let l = term_table::findings(table, recs);
    found[..TERMS].copy_from_slice(&l.terms);
    say(answer, done(u64::from(l.count), 0))
}
