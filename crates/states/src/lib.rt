// The states that readings can be in, listed, each with the variables that leave it and the states that they lead to.
#![tactic(auto)]

ghost use Rattle.std.specs.Prelude.{◌≡◌, ℕ, ◌^◌, ◌<◌, ◌≤◌, IfSome, get_or, replicate};
ghost use Rattle.patterns.specs.Patterns.{most_variables};
ghost use Rattle.states.specs.States.{is_calm, calm_by, fresh_mark, fresh_of, state_of, leaves_from, Stands};
ghost use Rattle.states.specs.States.{most_states, most_links, Put, PutFresh, Linked, Listed};

use plans::Plan;

// How many states are listed at most. Two sets of six variables have 127 and one that is listed fresh too, and no other
// pattern has more.
pub const MOST_STATES: usize = 128;

pub const MOST_LINKS: usize = MOST_STATES * patterns::MOST_VARIABLES;

// What is added to a state whose latest binding is of the cycle at hand.
pub const FRESH: u64 = 1 << patterns::MOST_VARIABLES;

// ## Fresh states

// Whether v leaves a state without the order mark.
#[tactic(auto, unfolding(crate::specs::States::is_calm))]
fn is_calm(plan: &Plan, state: u64, v: usize) -> bool
    requires { v < most_variables }
    ensures { result ≡ is_calm plan.now state v }
{
    firing::leaves(plan, state, v) && !numbers::is_disjoint(state, plan.marks(v))
}

// The variables that do.
#[tactic(auto, unfolding(crate::specs::States::calm_by))]
fn calm(plan: &Plan, n: usize, state: u64) -> u64
    requires { n ≤ most_variables }
    ensures { result ≡ calm_by plan.now n state }
{
    numbers::mask(n, |v| is_calm(plan, state, v))
}

// The number that stands for a state whose latest binding is of the cycle at hand: where no variable leaves by the
// order mark it makes no difference.
#[tactic(auto, unfolding(crate::specs::States::fresh_of))]
fn fresh_of(plan: &Plan, n: usize, state: u64) -> u64
    requires { (n ≤ most_variables) × (state < fresh_mark) }
    ensures { result ≡ fresh_of plan.now n state }
{
    if calm(plan, n, state) == reach::leaving(plan, n, state) {
        state
    } else {
        FRESH + state
    }
}

// The state that a number stands for.
#[tactic(auto, unfolding(crate::specs::States::state_of))]
fn state_of(x: u64) -> u64
    ensures { result ≡ state_of x }
{
    if x < FRESH { x } else { x - FRESH }
}

// The variables that leave it.
#[tactic(auto, unfolding(crate::specs::States::leaves_from))]
fn leaves_from(plan: &Plan, n: usize, x: u64) -> u64
    requires { n ≤ most_variables }
    ensures { result ≡ leaves_from plan.now n x }
{
    if x < FRESH {
        reach::leaving(plan, n, x)
    } else {
        calm(plan, n, x - FRESH)
    }
}

// ## The states

// The place of a state among the first of the list; where it is not there the place behind them, to write it at.
fn find(states: &[u64; MOST_STATES], count: usize, state: u64) -> usize
    requires { count ≤ most_states }
    ensures { (result ≤ count) × (result < count → get_or states.now result 0 ≡ state) }
{
    numbers::first_that(count, |at| states[at] == state)
}

// The same, with the state written there; none where there is no room.
fn put(states: &mut [u64; MOST_STATES], count: usize, state: u64) -> Option<usize>
    requires { count ≤ most_states }
    ensures { Put states.old count state states.new result }
{
    let at = find(states, count, state);
    if at == MOST_STATES {
        return None;
    }
    states[at] = state;
    Some(at)
}

// The place of a state that is fresh, with its state right before it; both are written there where there is room.
fn put_fresh(
    plan: &Plan,
    n: usize,
    states: &mut [u64; MOST_STATES],
    count: usize,
    state: u64,
) -> Option<usize>
    requires { (n ≤ most_variables) × (count ≤ most_states) × (state < fresh_mark) }
    ensures { PutFresh plan.now n states.old count state states.new result }
{
    let at = put(states, count, state)?;
    let fresh = fresh_of(plan, n, state);
    if fresh == state {
        return Some(at);
    }
    let behind = at + 1;
    if behind == MOST_STATES || behind < count && states[behind] != fresh {
        return None;
    }
    states[behind] = fresh;
    Some(behind)
}

// Links the state at a place by each variable that leaves it, and lists the states that they lead to, fresh: these have
// a variable more, or are the state itself, so none stands earlier. Gives the number of states then; none where there
// is no room for them.
fn link(
    plan: &Plan,
    n: usize,
    states: &mut [u64; MOST_STATES],
    links: &mut [u8; MOST_LINKS],
    count: usize,
    at: usize,
    leave: u64,
) -> Option<usize>
    requires { (n ≤ most_variables) × (at < count) × (count ≤ most_states) × (leave < 2 ^ most_variables)
        × ((i : ℕ) → i < count → Stands states.old i) }
    ensures { IfSome result (λ more. (more ≤ most_states)
        × Linked plan.now n states.old links.old count at leave
        states.new links.new more) }
{
    let from = state_of(states[at]);
    let mut more = count;
    let mut rest = leave;
    // By the bits that are set, which are few.
    while rest != 0 {
        let v = numbers::lowest_bit(rest);
        rest = numbers::without_bit(rest, v);
        let to = put_fresh(plan, n, states, more, numbers::with_bit(from, v))?;
        if to < at {
            return None;
        }
        links[at * patterns::MOST_VARIABLES + v] = to as u8;
        more = more.max(to + 1);
    }
    Some(more)
}

// Lists the states that can be reached, from a list whose first is that of no bindings. Gives their number; none where
// there is no room for them.
pub fn list_states(
    plan: &Plan,
    n: usize,
    states: &mut [u64; MOST_STATES],
    leaves: &mut [u64; MOST_STATES],
    links: &mut [u8; MOST_LINKS],
) -> Option<usize>
    requires { (n ≤ most_variables) × (states.old ≡ replicate most_states 0)
        × (leaves.old ≡ replicate most_states 0) × (links.old ≡ replicate most_links 0) }
    ensures { IfSome result (λ count. Listed plan.now n states.new leaves.new links.new count count) }
{
    let mut count = 1;
    let mut at = 0;
    // A `while`, since the list grows as the places pass.
    while at < count {
        let leave = leaves_from(plan, n, states[at]);
        leaves[at] = leave;
        count = link(plan, n, states, links, count, at, leave)?;
        at += 1;
    }
    Some(count)
}
