// Whether a reading can still take a binding too many (Rule 8.9): a pass that asks only for that need not follow a
// reading that can't.
#![tactic(auto)]

ghost use Rattle.std.specs.Prelude.{◌≡◌, false, List, ℕ, ◌+◌, ◌^◌, ◌≤◌, ◌<◌};
ghost use Rattle.patterns.specs.Patterns.{most_variables};
ghost use Rattle.rule.specs.Promises.{most_bindings};
ghost use Rattle.slots.specs.Slots.{held_in};
ghost use Rattle.firing.specs.Firing.{Fit};
ghost use Rattle.reach.specs.Readings.{Cans, Reads, Ready};
ghost use Rattle.reach.specs.Growing.{NoneOver};
ghost use Rattle.exceeds.specs.Open.{loops_by, again_by, once_by, IsOpen, Counted};

use plans::Plan;
use reach::Start;

// ## By places

// Whether the slot's reading, held before record j, has room for a binding too many before record `end`, by places
// alone: it takes one binding a record at most.
pub fn has_room(s: Start, j: usize, slot: &[u8], end: usize) -> bool
    requires { Reads s.n j slot.now }
    ensures { result ≡ false → (plan bytes : List ℕ) → NoneOver plan bytes s slot.now j end }
{
    let free = slots::MOST_BINDINGS - slots::count_of(slot);
    free < end.saturating_sub(j)
}

// ## By the variables that are still open

// The variables that a reading can still bind: those that it can bind again and again, those that it can bind once, and
// how many there are of these.
#[derive(Clone, Copy, Debug, PartialEq, Eq)]
struct Open {
    again: u64,
    once: u64,
    singles: usize,
}

// The bindings that a reading can come to: its own with the records at which a variable fires that can be bound again,
// and the other records at which one fires that can be bound once.
#[derive(Clone, Copy, Debug, PartialEq, Eq)]
struct Tally {
    many: usize,
    single: usize,
}

// Whether v may be bound more than once: bound alone, it leaves the state again.
#[tactic(auto, unfolding(crate::specs::Open::loops_by))]
fn loops(plan: &Plan, v: usize) -> bool
    requires { v < most_variables }
    ensures { result ≡ loops_by plan.now v }
{
    firing::leaves(plan, numbers::weight(v), v)
}

// Whether v can be bound from a state on, and more than once.
#[tactic(auto, unfolding(crate::specs::Open::again_by))]
fn is_again(plan: &Plan, state: u64, v: usize) -> bool
    requires { v < most_variables }
    ensures { result ≡ again_by plan.now state v }
{
    loops(plan, v) && (!numbers::bit_of(state, v) || firing::leaves(plan, state, v))
}

// Whether v can be bound from a state on, and once only.
#[tactic(auto, unfolding(crate::specs::Open::once_by))]
fn is_once(plan: &Plan, state: u64, v: usize) -> bool
    requires { v < most_variables }
    ensures { result ≡ once_by plan.now state v }
{
    !loops(plan, v) && !numbers::bit_of(state, v)
}

// The variables that can be bound from a state on.
fn open_of(plan: &Plan, n: usize, state: u64) -> Open
    requires { n ≤ most_variables }
    ensures { IsOpen plan.now n state result }
{
    let once = numbers::mask(n, |v| is_once(plan, state, v));
    Open {
        again: numbers::mask(n, |v| is_again(plan, state, v)),
        once,
        singles: once.count_ones() as usize,
    }
}

// The tally with record i, at which the variables of `can` can fire.
fn count_record(
    block: &[u8],
    plan: &Plan,
    i: usize,
    can: u64,
    variables: Open,
    slot: &[u8],
    t: Tally,
) -> Tally
    requires { (can < 2 ^ most_variables) × Fit plan.now block.now i slot.now
        × (t.many + t.single ≤ most_bindings) }
    ensures { Counted plan.now block.now i can variables
        (held_in slot.now).bindings t result }
{
    if reach::any_joins(block, plan, i, can & variables.again, slot) {
        Tally {
            many: t.many + 1,
            ..t
        }
    } else if t.single < variables.singles
        && reach::any_joins(block, plan, i, can & variables.once, slot)
    {
        Tally {
            single: t.single + 1,
            ..t
        }
    } else {
        t
    }
}

// Whether the reading, held before record j, may yet take a binding too many before record `end`: at enough records a
// variable that is still open can fire and joins what is bound, one that can be bound once at one of them only.
pub fn can_exceed(
    block: &[u8],
    plan: &Plan,
    cans: &[u16; records::MOST_RECORDS],
    s: Start,
    j: usize,
    slot: &[u8],
    end: usize,
) -> bool
    requires { (Ready plan.now block.now s slot.now j)
        × (Cans plan.now block.now s.n s.c cans.now) × (end ≤ s.until) }
    ensures { result ≡ false
        → NoneOver plan.now block.now s slot.now j end }
{
    if end <= j {
        return false;
    }
    let variables = open_of(plan, s.n, slots::state_of(slot));
    let mut t = Tally {
        many: slots::count_of(slot),
        single: 0,
    };
    for i in j..end {
        let free = slots::MOST_BINDINGS - (t.many + t.single);
        if end - i <= free {
            return false;
        }
        t = count_record(block, plan, i, cans[i] as u64, variables, slot, t);
        if slots::MOST_BINDINGS < t.many + t.single {
            return true;
        }
    }
    false
}
