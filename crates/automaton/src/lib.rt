// The states and the steps of a checked pattern's automaton, and its listing. A state is a number: variable j
// has weight 2^j.
#![tactic(auto)]

ghost use Rattle.std.specs.Prelude.{◌≡◌, not, ◌&&◌, ◌*◌, ◌^◌, ◌<◌, ◌≤◌, eqb, ltb, length};
ghost use Rattle.numbers.specs.Numbers.{one_if};
ghost use Rattle.records.specs.Refusals.{judged_as};
ghost use Rattle.patterns.specs.Patterns.{most_variables};
ghost use Rattle.patterns.specs.Checked.{set_of, InOrder};
ghost use Rattle.automaton.specs.Filtering.{implies, all};
ghost use Rattle.automaton.specs.Automaton.{variables_of, state_of, opens, loops, leaves, marked, carries, is_state};
ghost use Rattle.automaton.specs.Automaton.{carried, step_word};
ghost use Rattle.automaton.specs.Listing.{ListingPromise};
ghost use Rattle.automaton.specs.Steps.{step_on, steps_from, steps_at, steps, sink_of, put, puts};

use patterns::{Condition, Pattern, WITH_CONSTANT};
use records::{Answer, Refusal};

pub const STEP_BYTES: usize = 8;

// The weights of a step's fields.
const STATE: u64 = 4503599627370496;

const VARIABLE: u64 = 281474976710656;

const ORDER_MARK: u64 = 140737488355328;

fn implied(a: bool, b: bool) -> bool
    ensures { result ≡ implies a b }
{
    !a || b
}

// Whether all of the sets before that of v is bound.
fn earlier_bound(p: Pattern, s: u64, v: usize) -> bool
    requires { (p.n ≤ most_variables) × (v < p.n) }
    ensures { result ≡ all (λ u. implies (ltb (set_of p u) (set_of p v)) (state_of s u)) (variables_of p) }
{
    let set = p.sets[v];
    numbers::all(p.n, |u| implied(p.sets[u] < set, numbers::bit_of(s, u)))
}

// Whether nothing of a set after that of v is bound.
fn later_unbound(p: Pattern, s: u64, v: usize) -> bool
    requires { (p.n ≤ most_variables) × (v < p.n) }
    ensures { result ≡ all (λ u. implies (ltb (set_of p v) (set_of p u)) (not (state_of s u))) (variables_of p) }
{
    let set = p.sets[v];
    numbers::all(p.n, |u| implied(set < p.sets[u], !numbers::bit_of(s, u)))
}

// Whether nothing of the set of v is bound.
fn set_unbound(p: Pattern, s: u64, v: usize) -> bool
    requires { (p.n ≤ most_variables) × (v < p.n) }
    ensures { result ≡ all (λ u. implies (eqb (set_of p u) (set_of p v)) (not (state_of s u))) (variables_of p) }
{
    let set = p.sets[v];
    numbers::all(p.n, |u| implied(p.sets[u] == set, !numbers::bit_of(s, u)))
}

// Whether s is a state.
fn is_state(p: Pattern, s: u64) -> bool
    requires { (p.n ≤ most_variables) × (s < 2 ^ p.n) }
    ensures { result ≡ is_state p s }
{
    numbers::all(
        p.n,
        |v| implied(numbers::bit_of(s, v), earlier_bound(p, s, v)),
    )
}

// Whether v opens from state s (Rule 4.2).
#[tactic(auto, unfolding(crate::specs::Automaton::opens))]
fn is_open(p: Pattern, s: u64, v: usize) -> bool
    requires { (p.n ≤ most_variables) × (v < p.n) }
    ensures { result ≡ opens p (state_of s) v }
{
    !numbers::bit_of(s, v) && earlier_bound(p, s, v)
}

// Whether v leaves state s as a loop.
#[tactic(auto, unfolding(crate::specs::Automaton::loops))]
fn is_loop(p: Pattern, s: u64, v: usize) -> bool
    requires { (p.n ≤ most_variables) × (v < p.n) }
    ensures { result ≡ loops p (state_of s) v }
{
    numbers::bit_of(s, v) && p.groups[v] && later_unbound(p, s, v)
}

// Whether a step on v leaves state s.
#[tactic(auto, unfolding(crate::specs::Automaton::leaves))]
fn is_step(p: Pattern, s: u64, v: usize) -> bool
    requires { (p.n ≤ most_variables) × (v < p.n) }
    ensures { result ≡ leaves p (state_of s) v }
{
    is_open(p, s, v) || is_loop(p, s, v)
}

// Whether v is of a set after the first, and nothing of it is bound.
#[tactic(auto, unfolding(crate::specs::Automaton::marked))]
fn is_marked(p: Pattern, s: u64, v: usize) -> bool
    requires { (p.n ≤ most_variables) × (v < p.n) }
    ensures { result ≡ marked p (state_of s) v }
{
    1 < p.sets[v] && set_unbound(p, s, v)
}

// The order mark of the step on v, with its weight.
fn order_mark(p: Pattern, s: u64, v: usize) -> u64
    requires { (p.n ≤ most_variables) × (v < p.n) }
    ensures { result ≡ one_if (opens p (state_of s) v && marked p (state_of s) v) * 2 ^ 47 }
{
    if is_open(p, s, v) && is_marked(p, s, v) {
        ORDER_MARK
    } else {
        0
    }
}

// Whether the step on v from state s carries condition k.
#[tactic(auto, unfolding(crate::specs::Automaton::carries))]
fn is_carried(k: Condition, s: u64, v: usize) -> bool
    requires { (k.variable < most_variables) × (k.variable2 < most_variables) }
    ensures { result ≡ carries (state_of s) v k }
{
    let first = k.variable as usize;
    let second = k.variable2 as usize;
    if k.form == WITH_CONSTANT {
        first == v
    } else {
        (first == v && (second == v || numbers::bit_of(s, second)))
            || (second == v && numbers::bit_of(s, first))
    }
}

// The conditions that the step on v from state s carries.
#[tactic(auto, unfolding(crate::specs::Automaton::carried))]
fn carried_conditions(p: Pattern, s: u64, v: usize) -> u64
    requires { InOrder p }
    ensures { result ≡ carried p (state_of s) v }
{
    numbers::mask(p.c, |i| is_carried(p.condition(i), s, v))
}

// The step on v from state s as one number.
fn step_word(p: Pattern, s: u64, v: usize) -> u64
    requires { InOrder p × (s < 2 ^ 12) × (v < p.n) }
    ensures { result ≡ step_word p s v }
{
    let mark = order_mark(p, s, v);
    let carried = carried_conditions(p, s, v);
    s * STATE + (v as u64) * VARIABLE + mark + carried
}

// A step is written where there is room for it, and counted.
#[tactic(auto, unfolding(crate::specs::Steps::put))]
fn put_step(listing: &mut [u8], count: usize, word: u64) -> usize
    requires { count < 2 ^ 16 }
    ensures { sink_of listing.new result ≡ put (sink_of listing.old count) word }
{
    if count < listing.len() / STEP_BYTES {
        numbers::store_word(listing, STEP_BYTES * count, word);
    }
    count + 1
}

// The step on v, where v leaves state s.
#[tactic(auto, unfolding(crate::specs::Steps::step_on, crate::specs::Filtering::keep, crate::specs::Steps::puts))]
fn list_step(p: Pattern, s: u64, v: usize, listing: &mut [u8], count: usize) -> usize
    requires { InOrder p × (s < 2 ^ 12) × (v < p.n) × (count < 2 ^ 16) }
    ensures { sink_of listing.new result ≡ puts (sink_of listing.old count) (step_on p s v) }
{
    if is_step(p, s, v) {
        put_step(listing, count, step_word(p, s, v))
    } else {
        count
    }
}

// The steps from state s, variable by variable.
fn list_variables(p: Pattern, s: u64, listing: &mut [u8], count: usize) -> usize
    requires { InOrder p × (s < 2 ^ 12) × (count ≤ most_variables * s) }
    ensures { sink_of listing.new result ≡ puts (sink_of listing.old count) (steps_from p s) }
{
    let mut total = count;
    for v in 0..p.n {
        total = list_step(p, s, v, listing, total);
    }
    total
}

// The steps from s, where it is a state.
#[tactic(auto, unfolding(crate::specs::Steps::steps_at, crate::specs::Steps::puts))]
fn list_state(p: Pattern, s: u64, listing: &mut [u8], count: usize) -> usize
    requires { InOrder p × (s < 2 ^ p.n) × (count ≤ most_variables * s) }
    ensures { sink_of listing.new result ≡ puts (sink_of listing.old count) (steps_at p s) }
{
    if is_state(p, s) {
        list_variables(p, s, listing, count)
    } else {
        count
    }
}

// All steps, state by state: how many there are. Those for which there is room are written.
fn list_states(p: Pattern, listing: &mut [u8]) -> usize
    requires { InOrder p }
    ensures { sink_of listing.new result ≡ puts (sink_of listing.old 0) (steps p) }
{
    let mut total = 0;
    for s in 0..numbers::weight(p.n) {
        total = list_state(p, s, listing, total);
    }
    total
}

// How many steps there are, with the listing in the slice; or refusals 1 to 4, or 12 where the slice is too short, with
// the slice all 0.
fn list(pattern: &[u8], listing: &mut [u8]) -> Result<usize, Refusal>
    ensures { ListingPromise pattern.now (length listing.old) (judged_as result) listing.new }
{
    listing.fill(0);
    let p = patterns::read(pattern)?;
    let count = list_states(p, listing);
    if listing.len() / STEP_BYTES < count {
        listing.fill(0);
        return Err(Refusal::SliceRoom);
    }
    Ok(count)
}

// Refusals 1 to 4, or 12 where the slice is too short, with the slice all 0; or the count of steps as `used`, with the
// listing in the slice.
pub fn list_automaton(pattern: &[u8], listing: &mut [u8]) -> Answer
    ensures { ListingPromise pattern.now (length listing.old) result listing.new }
{
    Answer::from(list(pattern, listing))
}
