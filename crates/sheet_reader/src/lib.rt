// Where the reader of a sheet stands between two lines, and how a line is answered: the sheet stops, or it goes on. The reader is a small struct by value; the
// open set, the items of its open rule and the term table lie in lent memory, and what a line finds is written to a lent room.
#![tactic(auto)]

ghost use Rattle.std.specs.Prelude.{◌≡◌, Bool};
ghost use Rattle.sheet_reader.specs.State.{Lent};
ghost use Rattle.sheet_reader.specs.Answers.{is_outside, site_set, rule_set, open_rule};
ghost use Rattle.sheet_reader.specs.Leaves.{after, next_line, gone_on, stop_in};

use paper::Refusal;
use report::REPORT_ROOM;
use sheet_ended::EndedSets;
use sheet_findings::write_stop;

// What one line can write: the report of a set is the longest.
pub const STEP_ROOM: usize = REPORT_ROOM;

// "Line 4,294,967,295 and later are 1."
pub const LAST_LINE: u32 = 4294967294;

// The open set: how many sites and how many kept rules of it lie in lent memory.
#[derive(Clone, Copy)]
pub struct OpenSet {
    pub term: u16,
    pub flags: u8,
    pub sites: u16,
    pub rules: u32,
}

// A rule whose items are still to come.
#[derive(Clone, Copy)]
pub struct Awaited {
    pub place: u32,
    pub priority: u64,
    pub count: u8,
}

// Where the reader stands: outside a set; in a set, before or after its first 03; among the items of a rule, with so many left.
#[derive(Clone, Copy)]
pub enum Stands {
    Outside,
    Sites(OpenSet),
    Rules(OpenSet),
    Items {
        set: OpenSet,
        rule: Awaited,
        left: u8,
    },
}

// The reader before the line of this number.
#[derive(Clone, Copy)]
pub struct Reader {
    pub line: u32,
    pub stands: Stands,
    pub ended: EndedSets,
}

// What a line was. No Result: `sheet_step::step` promises by it what each line was, and a stop is one of them.
#[derive(Clone, Copy)]
pub enum Event {
    Begun,
    Site,
    // A 03 whose items are to come, or an item that is not its rule's last.
    Item,
    Kept {
        place: u32,
        priority: u64,
    },
    Refused {
        place: u32,
        priority: u64,
        why: Refusal,
    },
    Ended,
    // The sheet stops here.
    Stopped(Refusal),
    // There was less room than STEP_ROOM: the line was not read.
    NoRoom,
}

// The reader after a line, what the line was, and the end of what was written.
#[derive(Clone, Copy)]
pub struct Stepped {
    pub reader: Reader,
    pub event: Event,
    pub to: usize,
}

// Is no set open?
pub fn outside(s: Stands) -> bool
    ensures { result ≡ is_outside s }
{
    matches!(s, Stands::Outside)
}

// 02 may stand before the first 03 of an open set.
pub fn site_set(s: Stands) -> Option<OpenSet>
    ensures { result ≡ site_set s }
{
    match s {
        Stands::Sites(set) => Some(set),
        Stands::Outside | Stands::Rules(_) | Stands::Items { .. } => None,
    }
}

// 03 and 06 may stand in an open set, but not among the items of a rule.
pub fn rule_set(s: Stands) -> Option<OpenSet>
    ensures { result ≡ rule_set s }
{
    match s {
        Stands::Sites(set) | Stands::Rules(set) => Some(set),
        Stands::Outside | Stands::Items { .. } => None,
    }
}

// 04 and 05 may stand among the items of a rule: its set, the rule, and how many of its items are still to come.
pub fn open_rule(s: Stands) -> Option<(OpenSet, Awaited, u8)>
    ensures { result ≡ open_rule s }
{
    match s {
        Stands::Items { set, rule, left } => Some((set, rule, left)),
        Stands::Outside | Stands::Sites(_) | Stands::Rules(_) => None,
    }
}

// "a last frame 1F line (4, from 1), number": the sheet stops.
pub fn stop(r: Reader, why: Refusal, room: &mut [u8], at: usize) -> Stepped
    ensures { (k : Lent) → after result k room.new ≡ stop_in r k room.old at why }
{
    let to = write_stop(r.line, why, room, at).unwrap_or(at);
    Stepped {
        reader: r,
        event: Event::Stopped(why),
        to,
    }
}

// The number of the next line; past the last there is none.
fn next_line(n: u32) -> u32
    ensures { result ≡ next_line n }
{
    n.saturating_add(1)
}

// The sheet goes on.
pub fn on(r: Reader, stands: Stands, event: Event, to: usize) -> Stepped
    ensures { result ≡ gone_on r stands event to }
{
    Stepped {
        reader: Reader {
            line: next_line(r.line),
            stands,
            ended: r.ended,
        },
        event,
        to,
    }
}
