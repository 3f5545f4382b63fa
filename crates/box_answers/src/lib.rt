// What crosses to C. Structs and enums do not, so that the result of a call is 01's number, and the answer, or what is told, stands as two words in a lent
// slice.
#![tactic(auto)]

ghost use Rattle.std.specs.Prelude.{◌≡◌, [], ◌∷◌};
ghost use Rattle.paper.specs.Numbers.{number, told};
ghost use Rattle.box_answers.specs.Border.{short, answer_words, said, has_room, answered, found_word, bit};
ghost use Rattle.box_answers.specs.Telling.{one_told, two_told};

use paper::Refusal;

pub mod calls;

// The number for a lent slice that is too short, or room that turned out to be: none of 01's.
pub const SHORT: u32 = 255;

// The words of an answer.
pub const ANSWER: usize = 2;

// The word for a site that was never joined.
pub const NONE: u64 = 65535;

// A number, and the two words that go with it.
#[derive(Clone, Copy)]
pub struct Said {
    pub number: u32,
    pub one: u64,
    pub two: u64,
}

// "Told with it": the first word.
fn told_one(r: Refusal) -> u64
    ensures { result ≡ one_told r }
{
    match r {
        Refusal::Layout { line } | Refusal::Repeated { line } => u64::from(line),
        Refusal::Unknown { site }
        | Refusal::Itself { site }
        | Refusal::Unreachable { site, .. }
        | Refusal::Hanging { site }
        | Refusal::Endless { site } => u64::from(site),
        Refusal::TooManySites { asked, .. }
        | Refusal::TooManySources { asked, .. }
        | Refusal::TooManyFields { asked, .. }
        | Refusal::TooManyRules { asked }
        | Refusal::TooManyItems { asked }
        | Refusal::TooManyConstrained { asked }
        | Refusal::TooManyEqual { asked }
        | Refusal::TooManySets { asked }
        | Refusal::TermTooHigh { asked }
        | Refusal::UnfoldingTooLong { asked } => u64::from(asked),
        Refusal::PlaceUsed { place } => u64::from(place),
    }
}

// The second word: 4 tells two sites, 20 to 22 the item or line that asked.
fn told_two(r: Refusal) -> u64
    ensures { result ≡ two_told r }
{
    match r {
        Refusal::Unreachable { other, .. } => u64::from(other),
        Refusal::TooManySites { at, .. }
        | Refusal::TooManySources { at, .. }
        | Refusal::TooManyFields { at, .. } => u64::from(at),
        _ => 0,
    }
}

pub fn refused(r: Refusal) -> Said
    ensures { result ≡ said (number r) (told r) }
{
    Said {
        number: u32::from(sheet_findings::number_of(r)),
        one: told_one(r),
        two: told_two(r),
    }
}

// The answer into its slice, and the number. Where the slice is too short, nothing and SHORT.
#[tactic(auto, unfolding(crate::specs::Border::answered, crate::specs::Border::has_room))]
pub fn say(answer: &mut [u64], s: Said) -> u32
    ensures { (answer.new, result) ≡ answered (has_room answer.old answer_words) answer.old s }
{
    if answer.len() < ANSWER {
        return SHORT;
    }
    answer[0] = s.one;
    answer[1] = s.two;
    s.number
}

// 0, with the words of the answer.
pub fn done(one: u64, two: u64) -> Said
    ensures { result ≡ said 0 (one ∷ two ∷ []) }
{
    Said {
        number: 0,
        one,
        two,
    }
}

// The lent room is too short for what is to be written: lent too little, and nothing told.
pub fn crowded() -> Said
    ensures { result ≡ said short [] }
{
    Said {
        number: SHORT,
        one: 0,
        two: 0,
    }
}

pub fn found_word(f: Option<u16>) -> u64
    ensures { result ≡ found_word f }
{
    f.map_or(NONE, u64::from)
}

pub fn bit(b: bool) -> u64
    ensures { result ≡ bit b }
{
    u64::from(b)
}
