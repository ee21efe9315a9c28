// What a reading can still come to: the variables that fire for it, and the next record at which one does.
#![tactic(auto)]

ghost use Rattle.std.specs.Prelude.{◌≡◌, false, ℕ, ◌^◌, ◌<◌, ◌≤◌, length, get_or, replicate};
ghost use Rattle.records.specs.Blocks.{most_records};
ghost use Rattle.patterns.specs.Patterns.{most_variables};
ghost use Rattle.slots.specs.Slots.{held_in};
ghost use Rattle.firing.specs.Firing.{Fit};
ghost use Rattle.reach.specs.Readings.{leaving_by, agreeing_by, NoneJoins, Cans, Usable, Ready, NextCan, NextBy};

use plans::Plan;

// What one start fixes: how many variables and conditions there are, and the duration; the record at which its readings
// close, and their mark by its number; a record before which none of them takes a binding too many, the number from
// which on counts are not told, and where the count of branches stops.
#[derive(Clone, Copy, Debug, PartialEq, Eq)]
pub struct Start {
    pub n: usize,
    pub c: usize,
    pub duration: u64,
    pub until: usize,
    pub mark: u8,
    pub floor: usize,
    pub most: usize,
    pub limit: u32,
}

// A record that fires, and the variables that fire there.
#[derive(Clone, Copy, Debug, PartialEq, Eq)]
pub struct Fire {
    pub at: usize,
    pub variables: u64,
}

// ## Which variables fire

// For each record no variable. Its clause says what each is, which the type of the array does not.
pub fn no_cans() -> [u16; records::MOST_RECORDS]
    ensures { result ≡ replicate most_records 0 }
{
    [0; records::MOST_RECORDS]
}

// For each record the variables that can fire there by its own conditions, settled once a call and not once a reading.
pub fn all_can(
    plan: &Plan,
    n: usize,
    c: usize,
    block: &[u8],
    cans: &mut [u16; records::MOST_RECORDS],
)
    requires { Usable plan.now block.now n c }
    ensures { Cans plan.now block.now n c cans.new }
{
    for i in 0..block.len() / records::RECORD_BYTES {
        cans[i] = firing::can_fire(plan, n, c, block, i) as u16;
    }
}

// The variables that leave a state.
#[tactic(auto, unfolding(crate::specs::Readings::leaving_by))]
pub fn leaving(plan: &Plan, n: usize, state: u64) -> u64
    requires { n ≤ most_variables }
    ensures { result ≡ leaving_by plan.now n state }
{
    numbers::mask(n, |v| firing::leaves(plan, state, v))
}

// Of the variables asked, which can fire at record i and leave the reading's state, those that fire.
fn firing_of(block: &[u8], plan: &Plan, i: usize, asked: u64, slot: &[u8]) -> u64
    requires { (asked < 2 ^ most_variables) × Fit plan.now block.now i slot.now }
    ensures { result ≡ agreeing_by plan.now block.now i asked (held_in slot.now) }
{
    let mut firing = 0;
    let mut rest = asked;
    // by the bits that are set, which are few: not by each of the variables
    while rest != 0 {
        let v = numbers::lowest_bit(rest);
        // joins first, as `firing::agrees` does not
        let agrees = firing::joins_hold(plan, block, i, v, slot)
            && firing::is_later(plan, block, i, v, slot);
        firing += numbers::weight_if(agrees, v);
        rest = numbers::without_bit(rest, v);
    }
    firing
}

// Whether some of the variables asked agree at record i with what the slot's reading binds: a loop over the bits of a
// mask.
pub fn any_joins(block: &[u8], plan: &Plan, i: usize, asked: u64, slot: &[u8]) -> bool
    requires { (asked < 2 ^ most_variables) × Fit plan.now block.now i slot.now }
    ensures { result ≡ false → NoneJoins plan.now block.now i asked (held_in slot.now).bindings }
{
    let mut left = asked;
    while left != 0 {
        let v = numbers::lowest_bit(left);
        if firing::joins_hold(plan, block, i, v, slot) {
            return true;
        }
        left = numbers::without_bit(left, v);
    }
    false
}

// The next record at which one of the variables can fire by its own conditions, or the end, as `NextCan` says of it: no
// Option.
pub fn next_can(
    cans: &[u16; records::MOST_RECORDS],
    variables: u64,
    from: usize,
    end: usize,
) -> usize
    requires { (from ≤ end) × (end ≤ most_records) }
    ensures { NextCan cans.now variables from end result }
{
    for i in from..end {
        if cans[i] as u64 & variables != 0 {
            return i;
        }
    }
    end
}

// Skips to the next record from j on that fires; to the record at which the reading closes, where none does, and at
// once where no variable leaves the reading's state. `NextBy` speaks of a record in either case, so it is no Option.
pub fn next_fire(
    block: &[u8],
    plan: &Plan,
    cans: &[u16; records::MOST_RECORDS],
    s: Start,
    j: usize,
    slot: &[u8],
) -> Fire
    requires { (Ready plan.now block.now s slot.now j)
        × Cans plan.now block.now s.n s.c cans.now }
    ensures { NextBy plan.now block.now s slot.now j result }
{
    let leave = leaving(plan, s.n, slots::state_of(slot));
    if leave == 0 {
        return Fire {
            at: s.until,
            variables: 0,
        };
    }
    let mut i = next_can(cans, leave, j, s.until);
    while i < s.until {
        let firing = firing_of(block, plan, i, cans[i] as u64 & leave, slot);
        if firing != 0 {
            return Fire {
                at: i,
                variables: firing,
            };
        }
        i = next_can(cans, leave, i + 1, s.until);
    }
    Fire {
        at: i,
        variables: 0,
    }
}
