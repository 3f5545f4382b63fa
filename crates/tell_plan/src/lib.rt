// The texts of `plan` and of `check-plan` (change request [11]): what the planner proposes for a set, and what the check says of a proposal. They are put into
// lent room and not printed by Display: there is no heap, and each contract says which bytes stand there, also where the room ends.
#![tactic(auto)]

ghost use Rattle.std.specs.declared.result.Result.TheVariants.{Err};
ghost use Rattle.std.specs.Prelude.{◌≡◌, List, [], ◌∷◌, ◌++◌, ℕ, ◌+◌, ◌<◌, ◌≤◌, length, get_or};
ghost use Rattle.paper.specs.Words.{below, joined};
ghost use Rattle.paper.specs.Numbers.{max_rules};
ghost use Rattle.paper.specs.Priorities.{rule};
ghost use Rattle.rule_words.specs.Stored.{kept_in};
ghost use Rattle.tell_text.specs.Written.{wrote};
ghost use Rattle.plan.specs.declared.Fault.TheVariants.{Bad, WrongLength};
ghost use Rattle.plan.specs.Plans.{check};
ghost use Rattle.plan.specs.Lent.{set_in};
ghost use Rattle.tell_plan.specs.PlanText.{set_head, rule_line, two_places, plan_text, break_text, judged_text, bad_line, set_bad, set_unknown};
ghost use Rattle.tell_plan.specs.Lent.{rule_at, obstructed_words, none_text, judged_words};

use paper::{Break, RULES};
use plan::{Fault, Hurdle, Unplanned, check_plan, obstacle, plan};
use rule_words::{place, start, word};
use tell_text::{put_decimal, put_eight, put_four, put_text, put_two};

// The number that a proposal of another length is refused with.
const WRONG_LENGTH: u64 = 23;

fn put_head(out: &mut [u8], at: usize, term: u16) -> usize
    ensures { (out.new, result) ≡ wrote (out.old, at) (set_head term) }
{
    let a = put_text(out, at, b"set ");
    put_two(out, a, term)
}

// Rule i, with its proposed priority.
fn put_rule(out: &mut [u8], at: usize, words: &[u64], priorities: &[u64], i: u32) -> usize
    ensures { (out.new, result) ≡ wrote (out.old, at) (rule_at words.now priorities.now i) }
{
    let a = put_text(out, at, b"rule ");
    let b = put_four(out, a, place(words, start(i)));
    let c = put_text(out, b, b" ");
    let d = put_eight(out, c, word(priorities, i as usize));
    put_text(out, d, b"\n")
}

fn put_rules(out: &mut [u8], at: usize, words: &[u64], priorities: &[u64], n: u32) -> usize
    ensures { let f = rule_at words.now priorities.now in
        (out.new, result) ≡ wrote (out.old, at) (joined (below n f)) }
{
    let mut e = at;
    for i in 0..n {
        e = put_rule(out, e, words, priorities, i);
    }
    e
}

// The places of the rules i and j.
fn put_places(out: &mut [u8], at: usize, words: &[u64], i: u32, j: u32) -> usize
    ensures { let ws = words.now in
        (out.new, result) ≡ wrote (out.old, at) (two_places (kept_in ws i).place (kept_in ws j).place) }
{
    let a = put_four(out, at, place(words, start(i)));
    let b = put_text(out, a, b" ");
    put_four(out, b, place(words, start(j)))
}

// A pair that no proposal mends, and why.
fn put_obstructed(out: &mut [u8], at: usize, words: &[u64], i: u32, j: u32, why: &[u8]) -> usize
    ensures { (out.new, result) ≡ wrote (out.old, at) (obstructed_words words.now i j why.now) }
{
    let a = put_text(out, at, b"none ");
    let b = put_places(out, a, words, i, j);
    put_text(out, b, why)
}

// The rules i and j, if no proposal mends them.
fn put_none(out: &mut [u8], at: usize, words: &[u64], n: u32, flags: u8, i: u32, j: u32) -> usize
    requires { (i < j) × (j < n) }
    ensures { (out.new, result) ≡ wrote (out.old, at) (none_text (set_in words.now n flags) i j) }
{
    match obstacle(words, flags, i, j) {
        Hurdle::Free => at,
        Hurdle::Masked => put_obstructed(out, at, words, i, j, b" mask\n"),
        Hurdle::Alike => put_obstructed(out, at, words, i, j, b" same\n"),
    }
}

// The pairs of rule i with a later one.
fn put_nones_with(out: &mut [u8], at: usize, words: &[u64], n: u32, flags: u8, i: u32) -> usize
    requires { i < n }
    ensures { let f = none_text (set_in words.now n flags) i in
        (out.new, result) ≡ wrote (out.old, at) (joined (below n f)) }
{
    let mut e = at;
    for j in i + 1..n {
        e = put_none(out, e, words, n, flags, i, j);
    }
    e
}

// "each pair that no proposal can mend, in rule order"
fn put_nones(out: &mut [u8], at: usize, words: &[u64], n: u32, flags: u8) -> usize
    ensures { let f = none_text (set_in words.now n flags) in
        (out.new, result) ≡ wrote (out.old, at) (joined (below n (λ i. joined (below n (f i))))) }
{
    let mut e = at;
    for i in 0..n {
        e = put_nones_with(out, e, words, n, flags, i);
    }
    e
}

// What `plan` writes of an ended set: of the first n kept rules, under these flags.
pub fn put_plan(out: &mut [u8], at: usize, term: u16, words: &[u64], n: u32, flags: u8) -> usize
    ensures { (out.new, result) ≡ wrote (out.old, at) (plan_text term (set_in words.now n flags)) }
{
    let a = put_head(out, at, term);
    let e = put_text(out, a, b"\n");
    let mut priorities = [0u64; RULES];
    match plan(words, n, flags, &mut priorities) {
        Ok(()) => put_rules(out, e, words, &priorities, n),
        Err(Unplanned::Nothing) => put_nones(out, e, words, n, flags),
        Err(Unplanned::TooManyRules) => e,
        Err(Unplanned::NoRoom) => e,
    }
}

// ---- what the check says

fn put_break(out: &mut [u8], at: usize, what: Break) -> usize
    ensures { (out.new, result) ≡ wrote (out.old, at) (break_text what) }
{
    match what {
        Break::Edge => put_text(out, at, b" edge "),
        Break::Mask => put_text(out, at, b" mask "),
        Break::Order => put_text(out, at, b" order "),
    }
}

fn put_bad_pair(out: &mut [u8], at: usize, words: &[u64], what: Break, i: u32, j: u32) -> usize
    ensures { (out.new, result) ≡ wrote (out.old, at) (judged_words words.now (Err (Bad what i j))) }
{
    let a = put_break(out, at, what);
    let b = put_places(out, a, words, i, j);
    put_text(out, b, b"\n")
}

fn put_wrong_length(out: &mut [u8], at: usize, length: u64) -> usize
    ensures { (out.new, result) ≡ wrote (out.old, at) (judged_words [] (Err (WrongLength length))) }
{
    let a = put_text(out, at, b" refused ");
    let b = put_decimal(out, a, WRONG_LENGTH);
    let c = put_text(out, b, b" ");
    let d = put_decimal(out, c, length);
    put_text(out, d, b"\n")
}

fn put_judged(out: &mut [u8], at: usize, words: &[u64], v: Result<(), Fault>) -> usize
    ensures { (out.new, result) ≡ wrote (out.old, at) (judged_words words.now v) }
{
    match v {
        Ok(()) => put_text(out, at, b" accepted\n"),
        Err(
            Fault::Bad {
                what,
                earlier,
                later,
            },
        ) => put_bad_pair(out, at, words, what, earlier, later),
        Err(Fault::WrongLength { asked }) => put_wrong_length(out, at, asked as u64),
    }
}

// What `check-plan` writes of a set whose proposal names its rules' places: of the first n kept rules, under these flags.
pub fn put_check(
    out: &mut [u8],
    at: usize,
    term: u16,
    words: &[u64],
    n: u32,
    flags: u8,
    priorities: &[u64],
) -> usize
    ensures { let g = set_in words.now n flags in
        (out.new, result) ≡ wrote (out.old, at) (judged_text term g (check g priorities.now)) }
{
    let v = check_plan(words, n, flags, priorities);
    let a = put_head(out, at, term);
    put_judged(out, a, words, v)
}

// A line of the proposal that is not as laid out.
pub fn put_bad(out: &mut [u8], at: usize, line: u64) -> usize
    ensures { (out.new, result) ≡ wrote (out.old, at) (bad_line line) }
{
    let a = put_text(out, at, b"bad ");
    let b = put_decimal(out, a, line);
    put_text(out, b, b"\n")
}

// A line of the proposal that names another place than its rule's.
pub fn put_set_bad(out: &mut [u8], at: usize, term: u16, line: u64) -> usize
    ensures { (out.new, result) ≡ wrote (out.old, at) (set_bad term line) }
{
    let a = put_head(out, at, term);
    let b = put_text(out, a, b" ");
    put_bad(out, b, line)
}

// A set that the sheet has not.
pub fn put_unknown(out: &mut [u8], at: usize, term: u16) -> usize
    ensures { (out.new, result) ≡ wrote (out.old, at) (set_unknown term) }
{
    let a = put_head(out, at, term);
    put_text(out, a, b" unknown\n")
}
