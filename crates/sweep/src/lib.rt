// One sweep over the block: the first record at which a reading could take a binding too many.
#![tactic(auto)]

ghost use Rattle.std.specs.Prelude.{◌≡◌, true, ℕ, suc, ◌+◌, ◌^◌, ◌<◌, ◌≤◌, ltb, get_or};
ghost use Rattle.numbers.specs.Bits.{bit};
ghost use Rattle.records.specs.Records.{record_count};
ghost use Rattle.records.specs.Blocks.{most_records};
ghost use Rattle.patterns.specs.Patterns.{most_variables};
ghost use Rattle.rule.specs.Promises.{most_bindings};
ghost use Rattle.reach.specs.Readings.{Cans, Usable};
ghost use Rattle.states.specs.States.{most_states, link_at, Inside};
ghost use Rattle.sweep.specs.Starts.{row_places, LateOnes, RowCleared, RowRaised, Spread, StateMoved};
ghost use Rattle.sweep.specs.Starts.{IsOver, Advanced, Moved, RowFolded, FreshFolded, Settled, SettledBefore};
ghost use Rattle.sweep.specs.Floors.{Past, FirstOpen, Free, Sweeps};

use plans::Plan;
use states::{FRESH, MOST_LINKS, MOST_STATES};

const ROW_PLACES: usize = slots::MOST_BINDINGS + 1;

const MOST_PLACES: usize = MOST_STATES * ROW_PLACES;

// The first record at which a reading could take a binding too many: one does there, or none does before it.
#[derive(Clone, Copy, Debug, PartialEq, Eq)]
pub enum Swept {
    Reached(usize),
    NotBefore(usize),
}

// ## The latest starts

// `starts` has for each state and each count of bindings one more than the latest start of a reading that could have
// them, 0 where there is none: with an `Option` in each place the stack of a call would be too short for it.

// The starts of a state, those up to `low` as 0.
fn late_ones(starts: &[u16; MOST_PLACES], low: u16, at: usize) -> [u16; ROW_PLACES]
    requires { at < most_states }
    ensures { LateOnes starts.now low at result }
{
    let row = at * ROW_PLACES;
    let mut own = [0; ROW_PLACES];
    for k in 0..ROW_PLACES {
        let start = starts[row + k];
        own[k] = if low < start { start } else { 0 };
    }
    own
}

// With `tight` the state is left: a reading passes over no record that it can be bound to.
fn clear_row(starts: &mut [u16; MOST_PLACES], tight: bool, at: usize)
    requires { at < most_states }
    ensures { RowCleared starts.old tight at starts.new row_places }
{
    if tight {
        let row = at * ROW_PLACES;
        starts[row..row + ROW_PLACES].fill(0);
    }
}

// Each of the starts for one binding more in a state, where it has an earlier one.
fn raise_row(starts: &mut [u16; MOST_PLACES], own: &[u16; ROW_PLACES], to: usize)
    requires { to < most_states }
    ensures { RowRaised starts.old own.now to starts.new most_bindings }
{
    let row = to * ROW_PLACES + 1;
    for k in 0..slots::MOST_BINDINGS {
        starts[row + k] = starts[row + k].max(own[k]);
    }
}

// The same for each state that the variables lead to.
fn spread(
    starts: &mut [u16; MOST_PLACES],
    links: &[u8; MOST_LINKS],
    own: &[u16; ROW_PLACES],
    at: usize,
    firing: u64,
)
    requires { (at < most_states) × (firing < 2 ^ most_variables)
        × ((v : ℕ) → bit firing v ≡ true → get_or links.now (link_at at v) 0 < most_states) }
    ensures { Spread starts.old links.now own.now at firing
        starts.new }
{
    let mut rest = firing;
    // By the bits that are set, which are few.
    while rest != 0 {
        let v = numbers::lowest_bit(rest);
        rest = numbers::without_bit(rest, v);
        let to = links[at * patterns::MOST_VARIABLES + v] as usize;
        raise_row(starts, own, to);
    }
}

// The starts of one state lead on, by the variables that can fire and leave it. Starts up to `low` are out.
fn move_state(
    starts: &mut [u16; MOST_PLACES],
    leaves: &[u64; MOST_STATES],
    links: &[u8; MOST_LINKS],
    count: usize,
    can: u64,
    low: u16,
    tight: bool,
    at: usize,
)
    requires { Inside leaves.now links.now count × (can < 2 ^ most_variables) × (at < count) }
    ensures { StateMoved starts.old leaves.now links.now can low tight at
        starts.new }
{
    let firing = can & leaves[at];
    if firing == 0 {
        return;
    }
    let own = late_ones(starts, low, at);
    clear_row(starts, tight, at);
    spread(starts, links, &own, at, firing);
}

// Whether a reading that has as many bindings as it can leads on.
fn is_over(
    starts: &[u16; MOST_PLACES],
    leaves: &[u64; MOST_STATES],
    count: usize,
    can: u64,
    low: u16,
) -> bool
    requires { count ≤ most_states }
    ensures { IsOver starts.now leaves.now count can low result }
{
    for at in 0..count {
        if low < starts[at * ROW_PLACES + slots::MOST_BINDINGS] && can & leaves[at] != 0 {
            return true;
        }
    }
    false
}

// Each state leads on, the last first: what it leads to stands behind it, so no start moves twice.
fn advance(
    starts: &mut [u16; MOST_PLACES],
    leaves: &[u64; MOST_STATES],
    links: &[u8; MOST_LINKS],
    count: usize,
    can: u64,
    low: u16,
    tight: bool,
)
    requires { Inside leaves.now links.now count × (can < 2 ^ most_variables) }
    ensures { Advanced starts.old leaves.now links.now count can low tight
        starts.new 0 }
{
    for at in (0..count).rev() {
        move_state(starts, leaves, links, count, can, low, tight, at);
    }
}

// A record that can be bound: it may begin readings, and each state leads on. Whether a reading could take a binding
// too many there; if so nothing has moved.
fn is_over_at(
    starts: &mut [u16; MOST_PLACES],
    leaves: &[u64; MOST_STATES],
    links: &[u8; MOST_LINKS],
    count: usize,
    can: u64,
    low: u16,
    tight: bool,
    j: usize,
) -> bool
    requires { Inside leaves.now links.now count × (can < 2 ^ most_variables) × (j < most_records) }
    ensures { Moved starts.old leaves.now links.now count can low tight j
        starts.new result }
{
    starts[0] = (j + 1) as u16;
    if is_over(starts, leaves, count, can, low) {
        return true;
    }
    advance(starts, leaves, links, count, can, low, tight);
    false
}

// ## Settled states

// The starts of the state at b + 1 become those of the state at b, where it has earlier ones.
fn fold_row(starts: &mut [u16; MOST_PLACES], b: usize)
    requires { suc b < most_states }
    ensures { RowFolded starts.old b starts.new row_places }
{
    let row = b * ROW_PLACES;
    let behind = row + ROW_PLACES;
    for k in 0..ROW_PLACES {
        starts[row + k] = starts[row + k].max(starts[behind + k]);
        starts[behind + k] = 0;
    }
}

// The same where the state at b + 1 is fresh.
fn fold_fresh(starts: &mut [u16; MOST_PLACES], states: &[u64; MOST_STATES], b: usize)
    requires { suc b < most_states }
    ensures { FreshFolded starts.old states.now b starts.new }
{
    if FRESH <= states[b + 1] {
        fold_row(starts, b);
    }
}

// No state is fresh any more.
fn settle(starts: &mut [u16; MOST_PLACES], states: &[u64; MOST_STATES], count: usize)
    requires { (0 < count) × (count ≤ most_states) }
    ensures { Settled starts.old states.now starts.new count }
{
    for at in 1..count {
        fold_fresh(starts, states, at - 1);
    }
}

// The same where a new cycle begins.
fn settle_before(
    starts: &mut [u16; MOST_PLACES],
    states: &[u64; MOST_STATES],
    count: usize,
    cycle: u64,
    time: u64,
)
    requires { (0 < count) × (count ≤ most_states) }
    ensures { SettledBefore starts.old states.now count cycle time
        starts.new }
{
    if time != cycle {
        settle(starts, states, count);
    }
}

// ## The sweep

// Whether a time is more than the duration after the first. `closings` and `forward` ask it in a line of their own.
fn is_past(first: u64, duration: u64, time: u64) -> bool
    ensures { result ≡ ltb (first + duration) time }
{
    duration < time.saturating_sub(first)
}

// The first record, from `low` on, whose window has record j.
fn first_open(block: &[u8], duration: u64, low: usize, j: usize) -> usize
    requires { (j < record_count block.now) × (low ≤ j)
        × ((i : ℕ) → i < low → Past block.now duration i j) }
    ensures { FirstOpen block.now duration j result }
{
    let time = records::time_at(block, j);
    for i in low..j {
        if !is_past(records::time_at(block, i), duration, time) {
            return i;
        }
    }
    j
}

// Whether no condition joins two variables.
fn is_free(plan: &Plan) -> bool
    ensures { result ≡ true → Free plan.now }
{
    numbers::all(patterns::MOST_VARIABLES, |v| plan.joins(v) == 0)
}

// The first record at which a reading could take a binding too many, by own conditions and the order mark alone; the
// number of records where there is none. Where no condition joins variables, one does take it there.
pub fn sweep(
    block: &[u8],
    plan: &Plan,
    cans: &[u16; records::MOST_RECORDS],
    n: usize,
    c: usize,
    duration: u64,
) -> Swept
    requires { (Usable plan.now block.now n c) × Cans plan.now block.now n c cans.now }
    ensures { Sweeps plan.now block.now n c duration result }
{
    let mut states = [0; MOST_STATES];
    let mut leaves = [0; MOST_STATES];
    let mut links = [0; MOST_LINKS];
    let Some(known) = states::list_states(plan, n, &mut states, &mut leaves, &mut links) else {
        return Swept::NotBefore(0);
    };
    let tight = is_free(plan);
    let mut starts = [0; MOST_PLACES];
    let count = block.len() / records::RECORD_BYTES;
    let mut cycle = 0;
    let mut low = 0;
    for j in 0..count {
        if !records::is_event(block, j) {
            starts.fill(0);
            continue;
        }
        let can = cans[j] as u64;
        if can == 0 {
            continue;
        }
        let time = records::time_at(block, j);
        settle_before(&mut starts, &states, known, cycle, time);
        cycle = time;
        low = first_open(block, duration, low, j);
        if is_over_at(
            &mut starts,
            &leaves,
            &links,
            known,
            can,
            low as u16,
            tight,
            j,
        ) {
            return if tight {
                Swept::Reached(j)
            } else {
                Swept::NotBefore(j)
            };
        }
    }
    Swept::NotBefore(count)
}
