// A finding's frame in, English out: what is wrong, why it matters at the printer, and what to change. The words are in specs/Words.antt. Where a limit is
// passed, eight bytes stand behind the frame: the number that was asked for, and the item or line that asked.
#![tactic(auto)]

ghost use Rattle.std.specs.Prelude.{◌≡◌, Bool, ℕ, ◌+◌, ◌*◌, ◌≤◌, ◌<◌, length, get_or};
ghost use Rattle.tell_text.specs.Written.{wrote};
ghost use Rattle.sheet_findings.specs.Written.{room_said};
ghost use Rattle.tell_english.specs.Shapes.{when, refusal, listed, shape_of};
ghost use Rattle.tell_english.specs.Said.{refused_words, stopped_words, limit_words, stop_limit_words, ended_words, words_for, explained, said, line_end};
ghost use Rattle.tell_english.specs.Said.{line_room};

use tell_parts::{byte_at, fill, two_at};

// What a frame is, by its kind and its length.
#[derive(Clone, Copy)]
pub enum Shape {
    Refused,
    OverlapTwo,
    OverlapMore,
    MaskOne,
    MaskMore,
    Term,
    End,
    Stop,
    Empty,
    Unknown,
    Limit,
    StopLimit,
}

fn when(right: bool, s: Shape) -> Shape
    ensures { result ≡ when right s }
{
    if right { s } else { Shape::Unknown }
}

// A refusal's frame; or one with what is told behind it, the number that was asked for and who asked: a limit.
#[tactic(auto, unfolding(crate::specs::Shapes::refusal))]
fn refusal(n: u64, plain: Shape, limit: Shape) -> Shape
    ensures { result ≡ refusal n plain limit }
{
    if n == 14 {
        return limit;
    }
    when(n == 6, plain)
}

// A frame with a list: as long as its count says, with few places or more.
#[tactic(auto, unfolding(crate::specs::Shapes::listed))]
fn listed(n: u64, head: u64, count: u64, few: u64, one: Shape, more: Shape) -> Shape
    requires { (head < 256) × (count < 65536) }
    ensures { result ≡ listed n head count few one more }
{
    if n != head + 4 * count {
        return Shape::Unknown;
    }
    if count == few {
        return one;
    }
    when(few < count, more)
}

#[tactic(auto, unfolding(crate::specs::Shapes::shape_of))]
fn shape_of(f: &[u8]) -> Shape
    ensures { result ≡ shape_of f.now }
{
    let n = f.len() as u64;
    if n == 0 {
        return Shape::Empty;
    }
    match byte_at(f, 0) {
        17 => refusal(n, Shape::Refused, Shape::Limit),
        18 => listed(n, 3, two_at(f, 1), 2, Shape::OverlapTwo, Shape::OverlapMore),
        19 => listed(n, 7, two_at(f, 5), 1, Shape::MaskOne, Shape::MaskMore),
        20 => when(n == 3, Shape::Term),
        21 => when(n == 5, Shape::End),
        31 => refusal(n, Shape::Stop, Shape::StopLimit),
        _ => Shape::Unknown,
    }
}

// A rule that is refused: the meaning of its number.
#[tactic(auto, unfolding(crate::specs::Said::refused_words, crate::specs::Words::unknown_site, crate::specs::Words::unreachable, crate::specs::Words::hanging_site, crate::specs::Words::self_containing, crate::specs::Words::place_used, crate::specs::Words::other_refusal,),)]
fn refused_words(n: u64) -> &'static [u8]
    ensures { result.now ≡ refused_words n }
{
    match n {
        2 =>
            b"Rule # is refused with number 2 (unknown site): one of its items names a site that its set does not have, so the box leaves the rule out \
              and what it should print stays missing. Name a site of the set, or add its 02 line before the set's first rule; if the site is a field \
              that an earlier rule brings in, see that this earlier rule is not refused.",
        4 =>
            b"Rule # is refused with number 4 (unreachable): it asks two different things of one site, or of sites that it makes equal, so no page can \
              ever match it and it never prints anything. Take one of the two demands out, or make two rules of it.",
        5 =>
            b"Rule # is refused with number 5 (hanging site): it names a field without saying, in this rule, what must stand around that field, so the \
              box cannot reach the field. Add to the rule the variant or structure that has the field (or that the value is present), or take the field \
              out.",
        6 =>
            b"Rule # is refused with number 6 (self-containing): its equalities make a value a part of itself, which no page can have, so it never \
              prints anything. Take out the equality between a site and what lies inside it.",
        8 =>
            b"Rule # is refused with number 8 (place already used): an earlier rule of the same set has place #, and only that one is used. Give this \
              rule a place of its own.",
        _ =>
            b"Rule # is refused with number ^, a reason that this program has no words for. Read it with the program that wrote it.",
    }
}

// A sheet that stops: the meaning of its number.
#[tactic(auto, unfolding(crate::specs::Said::stopped_words, crate::specs::Words::bad_line, crate::specs::Words::source_unknown, crate::specs::Words::repeated, crate::specs::Words::other_stop,),)]
fn stopped_words(n: u64) -> &'static [u8]
    ensures { result.now ≡ stopped_words n }
{
    match n {
        1 =>
            b"The sheet stops at line # with number 1 (not as laid out): the line is longer than 64 digits, has a character that is not 0 to 9 or A to \
              F, has no line feed, does not have the layout of its frame or stands out of place; where the sheet has no line #, its last set has no 06. \
              Nothing from there on was checked, so do not load the sheet: correct the line and check again.",
        2 =>
            b"The sheet stops at line # with number 2 (unknown site): the site on it is made from a site that does not stand before it in its set. \
              Nothing from there on was checked, so do not load the sheet: put the missing 02 line before it, or correct the number, and check again.",
        9 =>
            b"The sheet stops at line # with number 9 (repeated): the site on it stands in its set already, or its term has a set already. Nothing from \
              there on was checked, so do not load the sheet: take the second site out (those after it then count one lower), or make one set of the \
              two, and check again.",
        _ =>
            b"The sheet stops at line # with number ^, a reason that this program has no words for. Read it with the program that wrote it, and do not load \
          the sheet.",
    }
}

// A rule that passes a limit: what it asked for, and what to do.
#[tactic(auto, unfolding(crate::specs::Said::limit_words, crate::specs::Words::too_many_sites, crate::specs::Words::too_many_fields, crate::specs::Words::too_many_rules, crate::specs::Words::too_many_items, crate::specs::Words::too_many_constrained, crate::specs::Words::too_many_equal, crate::specs::Words::other_refusal,),)]
fn limit_words(n: u64) -> &'static [u8]
    ensures { result.now ≡ limit_words n }
{
    match n {
        20 =>
            b"Rule # is refused with number 20 (sites): at item !, counted from 0, its set needs & sites, and a set has at most 1,024; where the rule \
              has no item !, its equalities need them. The box leaves the rule out, so what it should print stays missing. Split the set.",
        22 =>
            b"Rule # is refused with number 22 (fields): its item !, counted from 0, asks for & fields, and a constraint has at most 8. The box \
              leaves the rule out, so what it should print stays missing. Ask for fewer fields.",
        23 =>
            b"Rule # is refused with number 23 (rules): it would be kept rule & of its set, and a set keeps at most 64. The box leaves the rule out, \
              so what it should print stays missing. Split the set, or take a rule out of it.",
        24 =>
            b"Rule # is refused with number 24 (items): it has & items, and a rule has at most 32. The box leaves the rule out, so what it should \
              print stays missing. Make two shorter rules of it.",
        25 =>
            b"Rule # is refused with number 25 (constrained sites): worked out, it has & constrained sites, and a kept rule has at most 32. The box \
              leaves the rule out, so what it should print stays missing. Make two shorter rules of it.",
        26 =>
            b"Rule # is refused with number 26 (equal sites): worked out, it has & equal sites, and a kept rule has at most 32. The box leaves the \
              rule out, so what it should print stays missing. Make two shorter rules of it.",
        _ =>
            b"Rule # is refused with number ^, a reason that this program has no words for. Read it with the program that wrote it.",
    }
}

// A line that passes a limit, so that the sheet stops.
#[tactic(auto, unfolding(crate::specs::Said::stop_limit_words, crate::specs::Words::full_set, crate::specs::Words::too_many_sources, crate::specs::Words::too_many_sets, crate::specs::Words::term_too_high, crate::specs::Words::other_stop,),)]
fn stop_limit_words(n: u64) -> &'static [u8]
    ensures { result.now ≡ stop_limit_words n }
{
    match n {
        20 =>
            b"The sheet stops at line # with number 20 (sites): the line needs & sites in its set, and a set has at most 1,024. Nothing from there on \
              was checked, so do not load the sheet: split the set and check again.",
        21 =>
            b"The sheet stops at line # with number 21 (sources): the site on it has & sources, and a site has at most 8. Nothing from there on was \
              checked, so do not load the sheet: make the site of fewer sources and check again.",
        27 =>
            b"The sheet stops at line # with number 27 (sets): the line begins set & of the sheet, and a sheet has at most 64. Nothing from there on \
              was checked, so do not load the sheet: make two sheets of it and check again.",
        28 =>
            b"The sheet stops at line # with number 28 (term number): the line has term &, and term numbers go to 255. Nothing from there on was \
              checked, so do not load the sheet: give the term a lower number and check again.",
        _ =>
            b"The sheet stops at line # with number ^, a reason that this program has no words for. Read it with the program that wrote it, and do not load \
          the sheet.",
    }
}

// The end of a sheet. That nothing was found is said only by a caller who knows it.
#[tactic(auto, unfolding(crate::specs::Words::clean_sheet, crate::specs::Words::read_to_end))]
fn ended_words(clean: bool) -> &'static [u8]
    ensures { result.now ≡ ended_words clean }
{
    if clean {
        return b"The sheet was read to its end: @ set{ with $ kept rule} in all. Nothing was found: no rule is refused, none hides another or may fit the \
              same page at the same priority (sets marked multi are not compared), and no term calls itself without rec.";
    }
    b"The sheet was read to its end: @ set{ with $ kept rule} in all. What was found stands above."
}

// The words for a frame. Of a line that is no finding that we know, only the first byte can be told.
#[tactic(auto, unfolding(crate::specs::Words::calls_itself, crate::specs::Words::overlap_two, crate::specs::Words::overlap_more, crate::specs::Words::mask_one, crate::specs::Words::mask_more, crate::specs::Words::empty_line, crate::specs::Words::not_known,),)]
fn words_for(clean: bool, f: &[u8]) -> &'static [u8]
    ensures { result.now ≡ words_for clean f.now (shape_of f.now) }
{
    match shape_of(f) {
        Shape::Refused => refused_words(byte_at(f, 5)),
        Shape::OverlapTwo =>
            b"Rule % and rule * may both fit one page and have the same priority, so nothing says which of them the printer follows. Give one of them \
              the higher priority, or make them ask for different things.",
        Shape::OverlapMore =>
            b"Rule % may fit the same page as any of the rules *, and all have the same priority, so nothing says which of them the printer follows \
              there. Give rule % another priority than theirs, or make it ask for something different.",
        Shape::MaskOne =>
            b"Rule # hides rule *: every page that rule * takes is taken by rule # first, because rule # has the higher priority and asks for no more. \
              What rule * adds (a hazard line, say) is never printed. Give rule * the higher priority, or narrow rule #.",
        Shape::MaskMore =>
            b"Rule # hides the rules *: every page that one of them takes is taken by rule # first, because rule # has the higher priority and asks for \
              no more. What they add (a hazard line, say) is never printed. Give them a higher priority than rule #, or narrow rule #.",
        Shape::Term =>
            b"Term @ calls itself, directly or through other terms, and its set is not marked rec, so one page could keep the box going round without end. \
          Break the circle, or mark the set rec (2 in the flags of its 01 line) if this is meant.",
        Shape::End => ended_words(clean),
        Shape::Stop => stopped_words(byte_at(f, 5)),
        Shape::Empty => b"This line is empty, so it is no finding.",
        Shape::Unknown =>
            b"This line is not a finding that this program knows (its first byte is ~ in decimal). See that the line is whole and was written by a program \
          of the same release.",
        Shape::Limit => limit_words(byte_at(f, 5)),
        Shape::StopLimit => stop_limit_words(byte_at(f, 5)),
    }
}

#[tactic(auto, unfolding(crate::specs::Said::explained))]
fn put_explained(f: &[u8], clean: bool, out: &mut [u8], at: usize) -> usize
    ensures { (out.new, result) ≡ wrote (out.old, at) (explained clean f.now) }
{
    fill(words_for(clean, f), f, out, at)
}

// LF, and whether all of the line had room.
#[tactic(auto, unfolding(crate::specs::Said::line_end, crate::specs::Said::line_room, tell_text::specs::Written::with_byte))]
fn end_line(out: &mut [u8], at: usize) -> Option<usize>
    ensures { (result ≡ line_end (out.old, at)) × (out.new ≡ line_room (out.old, at)) }
{
    if at < out.len() {
        out[at] = 10;
        return Some(at + 1);
    }
    None
}

// The finding as a line of English, from `at` on. `clean`: nothing was found before it. A room that is too short keeps as much as it holds.
pub fn explain(f: &[u8], clean: bool, out: &mut [u8], at: usize) -> Option<usize>
    ensures { let line = said clean f.now in
        (result ≡ room_said out.old at line) × (out.new ≡ (wrote (out.old, at) line).0) }
{
    let k = put_explained(f, clean, out, at);
    end_line(out, k)
}
