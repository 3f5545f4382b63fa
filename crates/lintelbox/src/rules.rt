// The kept rules of a set: the lent words are strides of 196, and the caller keeps how many are used.
ghost use Rattle.std.specs.Prelude.{◌≡◌, [], ◌∷◌, ◌+◌};
ghost use Rattle.paper.specs.Rules.{may_overlap, total};
ghost use Rattle.rule_words.specs.Stored.{kept_in};
ghost use Rattle.report.specs.Lines.{report_room, reported, room_after};
ghost use Rattle.box_answers.specs.Border.{answer_words, said, has_room, both, has_rule, has_rules, answered, after, overlap_word, reported_said};

use box_answers::calls::{overlap_word, reported_said};
use box_answers::{ANSWER, SHORT, done, say};
use report::REPORT_ROOM;
use rule_words::{STRIDE, start};

// Compares the kept rules `rule` and `other`: 0 No, 1 Yes, 2 Yes and a subset.
#[unsafe(no_mangle)]
pub extern "C" fn lintel_may_overlap(
    words: &[u64],
    rule: u32,
    other: u32,
    answer: &mut [u64],
) -> u32
    ensures { let fits = both (has_rule words.now rule) (both (has_rule words.now other) (has_room answer.old answer_words)) in
        let o = may_overlap (kept_in words.now rule) (kept_in words.now other) in
        (answer.new, result) ≡ answered fits answer.old (said 0 (overlap_word o ∷ [])) }
{
    let a = start(rule);
    if words.len() < a + STRIDE {
        return SHORT;
    }
    let b = start(other);
    if words.len() < b + STRIDE {
        return SHORT;
    }
    let o = overlap::may_overlap(words, rule, other);
    say(answer, done(overlap_word(o), 0))
}

// "Total is constrained plus equal sites."
#[unsafe(no_mangle)]
pub extern "C" fn lintel_total_constraints(words: &[u64], rule: u32, answer: &mut [u64]) -> u32
    ensures { let fits = both (has_rule words.now rule) (has_room answer.old answer_words) in
        (answer.new, result) ≡ answered fits answer.old (said 0 (total (kept_in words.now rule) ∷ [])) }
{
    let a = start(rule);
    if words.len() < a + STRIDE {
        return SHORT;
    }
    let n = overlap::total_constraints(words, rule);
    say(answer, done(n as u64, 0))
}

// The report of the first `count` rules, lines of findings in the room: how many bytes.
#[unsafe(no_mangle)]
pub extern "C" fn lintel_report(
    words: &[u64],
    count: u32,
    flags: u8,
    room: &mut [u8],
    answer: &mut [u64],
) -> u32
    ensures result_after { let writes = both (has_room room.old report_room) (has_room answer.old answer_words) in
        let fits = both (has_rules words.now count) writes in
        (answer.new, result) ≡ answered fits answer.old (reported_said (reported words.now count flags room.old)) }
    ensures lent_room { let writes = both (has_room room.old report_room) (has_room answer.old answer_words) in
        let fits = both (has_rules words.now count) writes in
        room.new ≡ after fits room.old (room_after words.now count flags room.old) }
{
    let end = start(count);
    if words.len() < end {
        return SHORT;
    }
    if room.len() < REPORT_ROOM {
        return SHORT;
    }
    if answer.len() < ANSWER {
        return SHORT;
    }
    let r = report::report(words, count, flags, room);
    say(answer, reported_said(r))
}
