// A kept rule as words of lent memory: how constraints are packed, where each number of a rule lies, and how a rule is written there.
#![tactic(auto)]

ghost use Rattle.std.specs.Prelude.{◌≡◌, ℕ, ◌+◌, ◌*◌, ◌≤◌, ◌<◌, length, get_or, set};
ghost use Rattle.paper.specs.declared.Constraint.TheVariants.{Variant};
ghost use Rattle.paper.specs.Numbers.{max_constrained, max_equal};
ghost use Rattle.paper.specs.Rules.{rank};
ghost use Rattle.rule_words.specs.Packing.{head, second, third, unpack, narrow};
ghost use Rattle.rule_words.specs.Stored.{constrained_word, equal_word, count_at, constrained_count, equal_count, rank_at, place_at, constrained_at, equal_at, base, put_two, put_four, put_constrained, put_equal, fits_in, written};

use paper::{CONSTRAINED, Constraint, EQUALS};

// The words of a kept rule, from its first on: place, rank of the priority, how many constrained and how many equal sites; then the constrained sites,
// then the equal sites.
const RANK: usize = 1;

const CONSTRAINED_COUNT: usize = 2;

const EQUAL_COUNT: usize = 3;

pub const FIRST_CONSTRAINED: usize = 4;

pub const FIRST_EQUAL: usize = FIRST_CONSTRAINED + SITE_WORDS * CONSTRAINED;

pub const STRIDE: usize = FIRST_EQUAL + EQUAL_WORDS * EQUALS;

// A constrained site: the site, and the three words of its constraint.
pub const SITE_WORDS: usize = 4;

// An equal site, and the lowest member of its class.
const EQUAL_WORDS: usize = 2;

#[derive(Clone, Copy)]
pub struct Packed {
    pub head: u64,
    pub second: u64,
    pub third: u64,
}

// A constraint's words, in their order.
fn three_words(a: u64, b: u64, c: u64) -> Packed
    ensures { (result.head ≡ a) × ((result.second ≡ b) × (result.third ≡ c)) }
{
    Packed {
        head: a,
        second: b,
        third: c,
    }
}

// The three words of a constraint.
pub fn pack(c: Constraint) -> Packed
    ensures head_value { result.head ≡ head c }
    ensures second_value { result.second ≡ second c }
    ensures third_value { result.third ≡ third c }
{
    match c {
        Constraint::Variant {
            ty,
            variant,
            fields,
        } => three_words(u64::from(ty), u64::from(variant), u64::from(fields)),
        Constraint::Struct { ty, fields } => three_words(
            65536 + u64::from(ty),
            u64::from(fields),
            0,
        ),
        Constraint::ConstBool { ty, val } => {
            three_words(131072 + u64::from(ty), u64::from(val), 0)
        }
        Constraint::ConstInt { ty, high, low } => three_words(196608 + u64::from(ty), high, low),
        Constraint::ConstPrim { val } => three_words(262144 + u64::from(val), 0, 0),
        Constraint::Some => three_words(327680, 0, 0),
    }
}

fn variant(a: u64, b: u64, c: u64) -> Constraint
    ensures { result ≡ narrow (Variant a b c) }
{
    Constraint::Variant {
        ty: (a % 65536) as u16,
        variant: (b % 65536) as u16,
        fields: (c % 256) as u8,
    }
}

// The constraint of three words; each number is cut to its width, which changes nothing where the words were packed.
#[tactic(auto, unfolding(crate::specs::Packing::unpack))]
pub fn unpack(a: u64, b: u64, c: u64) -> Constraint
    ensures { result ≡ narrow (unpack a b c) }
{
    let ty = (a % 65536) as u16;
    match (a / 65536, b, c) {
        (1, _, 0) => Constraint::Struct {
            ty,
            fields: (b % 256) as u8,
        },
        (2, 0 | 1, 0) => Constraint::ConstBool { ty, val: b == 1 },
        (3, _, _) => Constraint::ConstInt {
            ty,
            high: b,
            low: c,
        },
        (4, 0, 0) => Constraint::ConstPrim { val: ty },
        (5, 0, 0) if ty == 0 => Constraint::Some,
        _ => variant(a, b, c),
    }
}

// The word at k; past the end there are zeros.
pub fn word(words: &[u64], k: usize) -> u64
    ensures { result ≡ get_or words.now k 0 }
{
    words.get(k).copied().unwrap_or(0)
}

// The first word of part k of the rule at b, where the parts start `first` words on and take `size` each, however far that is; past the end there are
// zeros.
fn part(words: &[u64], b: usize, first: usize, size: usize, k: usize) -> u64
    ensures { result ≡ get_or words.now (b + first + size * k) 0 }
{
    word(
        words,
        b.saturating_add(first)
            .saturating_add(size.saturating_mul(k)),
    )
}

// A count above its limit is the limit.
#[tactic(auto, unfolding(crate::specs::Stored::count_at))]
fn count(words: &[u64], b: usize, off: usize, most: usize) -> usize
    ensures value { result ≡ count_at words.now (b + off) most }
    ensures upper_bound { result ≤ most }
{
    (word(words, b.saturating_add(off)) as usize).min(most)
}

// How many constrained sites the rule at b has.
pub fn constrained(words: &[u64], b: usize) -> usize
    ensures value { result ≡ constrained_count words.now b }
    ensures upper_bound { result ≤ max_constrained }
{
    count(words, b, CONSTRAINED_COUNT, CONSTRAINED)
}

// How many equal sites the rule at b has.
pub fn equals(words: &[u64], b: usize) -> usize
    ensures value { result ≡ equal_count words.now b }
    ensures upper_bound { result ≤ max_equal }
{
    count(words, b, EQUAL_COUNT, EQUALS)
}

// The priority of the rule at b, as an unsigned number that keeps the order.
pub fn rank(words: &[u64], b: usize) -> u64
    ensures { result ≡ rank_at words.now b }
{
    word(words, b.saturating_add(RANK))
}

// The constrained site k of the rule at b.
#[tactic(auto, unfolding(crate::specs::Stored::constrained_at))]
pub fn site_at(words: &[u64], b: usize, k: usize) -> u64
    ensures { result ≡ (constrained_at words.now b k).0 }
{
    part(words, b, FIRST_CONSTRAINED, SITE_WORDS, k)
}

// Its constraint.
#[tactic(auto, unfolding(crate::specs::Stored::constrained_at, crate::specs::Stored::constraint_at))]
pub fn constraint_at(words: &[u64], b: usize, k: usize) -> Constraint
    ensures { result ≡ narrow (constrained_at words.now b k).1 }
{
    unpack(
        part(words, b, FIRST_CONSTRAINED + 1, SITE_WORDS, k),
        part(words, b, FIRST_CONSTRAINED + 2, SITE_WORDS, k),
        part(words, b, FIRST_CONSTRAINED + 3, SITE_WORDS, k),
    )
}

// The equal site k of the rule at b.
#[tactic(auto, unfolding(crate::specs::Stored::equal_at))]
pub fn equal_at(words: &[u64], b: usize, k: usize) -> u64
    ensures { result ≡ (equal_at words.now b k).0 }
{
    part(words, b, FIRST_EQUAL, EQUAL_WORDS, k)
}

// The lowest member of its class.
#[tactic(auto, unfolding(crate::specs::Stored::equal_at))]
pub fn lowest_at(words: &[u64], b: usize, k: usize) -> u64
    ensures { result ≡ (equal_at words.now b k).1 }
{
    part(words, b, FIRST_EQUAL + 1, EQUAL_WORDS, k)
}

// Where the words of rule i start.
#[tactic(auto, unfolding(crate::specs::Stored::base))]
pub fn start(i: u32) -> usize
    ensures value { result ≡ base i }
    ensures result_bound { result + 1000000 < 18446744073709551616 }
{
    STRIDE * (i as usize)
}

// The place of the rule whose words start at b.
#[tactic(auto, unfolding(crate::specs::Stored::place_at))]
pub fn place(words: &[u64], b: usize) -> u32
    ensures { result ≡ place_at words.now b }
{
    (word(words, b) % 4294967296) as u32
}

// The priority as an unsigned number that keeps the order.
#[tactic(auto, unfolding(paper::specs::Rules::rank))]
pub fn ranked(priority: u64) -> u64
    ensures { result ≡ rank priority }
{
    priority.wrapping_add(9223372036854775808)
}

// Stores v at k; past the end there is nothing to store it in.
fn put(words: &mut [u64], k: usize, v: u64)
    ensures { words.new ≡ set words.old k v }
{
    if k < words.len() {
        words[k] = v;
    }
}

// The words of an equal site, and below those of a constrained one: a line for each word, as the definitions `put_two` and `put_four` have it; a loop
// over an array of them would be no plainer.
#[tactic(auto, unfolding(crate::specs::Stored::put_two))]
fn put_two(words: &mut [u64], p: usize, a: u64, b: u64)
    requires { p + 1000 < 18446744073709551616 }
    ensures { words.new ≡ put_two words.old p a b }
{
    put(words, p, a);
    put(words, p + 1, b);
}

#[tactic(auto, unfolding(crate::specs::Stored::put_four))]
fn put_four(words: &mut [u64], p: usize, a: u64, b: u64, c: u64, d: u64)
    requires { p + 1000 < 18446744073709551616 }
    ensures { words.new ≡ put_four words.old p a b c d }
{
    put(words, p, a);
    put(words, p + 1, b);
    put(words, p + 2, c);
    put(words, p + 3, d);
}

// The site k; past the end there are zeros.
fn site(sites: &[u16], k: usize) -> u64
    ensures { result ≡ get_or sites.now k 0 }
{
    sites.get(k).copied().map_or(0, u64::from)
}

// Where the words of the constrained site k of the rule at b start.
fn constrained_start(b: usize, k: usize) -> usize
    requires { (b + 1000000 < 18446744073709551616) × (k ≤ max_constrained) }
    ensures { (result ≡ constrained_word b k) × (result + 1000 < 18446744073709551616) }
{
    b + FIRST_CONSTRAINED + SITE_WORDS * k
}

// Where the words of the equal site k of the rule at b start.
fn equal_start(b: usize, k: usize) -> usize
    requires { (b + 1000000 < 18446744073709551616) × (k ≤ max_equal) }
    ensures { (result ≡ equal_word b k) × (result + 1000 < 18446744073709551616) }
{
    b + FIRST_EQUAL + EQUAL_WORDS * k
}

// The constrained sites of the rule at b, each with the three words of its constraint.
fn put_constrained(words: &mut [u64], b: usize, sites: &[u16], shapes: &[u64], n: usize)
    requires { (b + 1000000 < 18446744073709551616) × (n ≤ max_constrained) }
    ensures { words.new ≡ put_constrained words.old b sites.now shapes.now n }
{
    for k in 0..n {
        let s = site(sites, k);
        let one = word(shapes, 3 * k);
        let two = word(shapes, 3 * k + 1);
        let three = word(shapes, 3 * k + 2);
        put_four(words, constrained_start(b, k), s, one, two, three);
    }
}

// The equal sites of the rule at b, each with the lowest member of its class.
fn put_equal(words: &mut [u64], b: usize, equal: &[u16], low: &[u16], n: usize)
    requires { (b + 1000000 < 18446744073709551616) × (n ≤ max_equal) }
    ensures { words.new ≡ put_equal words.old b equal.now low.now n }
{
    for k in 0..n {
        let s = site(equal, k);
        let l = site(low, k);
        put_two(words, equal_start(b, k), s, l);
    }
}

// Writes rule i: its constrained sites ascending with three words each, its equal sites ascending with the lowest member of each one's class.
// Where they are too many, or the memory too short, nothing is written and the answer is false.
pub fn write(
    words: &mut [u64],
    i: u32,
    place: u32,
    priority: u64,
    sites: &[u16],
    shapes: &[u64],
    equal: &[u16],
    low: &[u16],
) -> bool
    ensures value { result ≡ fits_in words.old i sites.now equal.now }
    ensures words_after { let ss = sites.now in let es = equal.now in
        words.new ≡ written words.old i place priority ss shapes.now es low.now }
{
    let n = sites.len();
    let m = equal.len();
    let b = start(i);
    if n > CONSTRAINED || m > EQUALS || b + STRIDE > words.len() {
        return false;
    }
    put_four(
        words,
        b,
        u64::from(place),
        ranked(priority),
        n as u64,
        m as u64,
    );
    put_constrained(words, b, sites, shapes, n);
    put_equal(words, b, equal, low, m);
    true
}
