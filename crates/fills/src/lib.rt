// Whether a reading can still become full.
#![tactic(auto)]

ghost use Rattle.std.specs.Prelude.{◌≡◌, true, false, ◌^◌, ◌<◌, ◌≤◌, MatchOption, length};
ghost use Rattle.records.specs.Records.{record_count};
ghost use Rattle.records.specs.Blocks.{most_records};
ghost use Rattle.patterns.specs.Patterns.{most_variables};
ghost use Rattle.rule.specs.Promises.{most_bindings};
ghost use Rattle.slots.specs.Slots.{slot_bytes, count_in, held_in};
ghost use Rattle.reach.specs.Readings.{Cans, Ready};
ghost use Rattle.reach.specs.Growing.{NeverFull};
ghost use Rattle.fills.specs.Filling.{Asks, Found, Never};
ghost use Rattle.fills.specs.Opening.{unjoined_in, up_to, Marked, Idle, Behind, Searched, Passed, Begins};

use plans::Plan;

// The first record before which the variables x can all be bound, looked for from record `from` on: behind as many
// records as there are variables, at each of which some variable of x can fire. None where there are fewer before the
// record at which the reading closes.
fn after(
    block: &[u8],
    plan: &Plan,
    cans: &[u16; records::MOST_RECORDS],
    s: reach::Start,
    j: usize,
    slot: &[u8],
    x: u64,
    from: usize,
) -> Option<usize>
    requires { Asks plan.now block.now cans.now s slot.now j x from }
    ensures { MatchOption result (Never plan.now block.now s slot.now j x)
        (λ end. Found plan.now block.now s slot.now j x from end × (end ≤ s.until)) }
{
    let mut left = x.count_ones() as usize;
    for i in from..s.until {
        let asked = cans[i] as u64 & x;
        left -= numbers::one_if(reach::any_joins(block, plan, i, asked, slot));
        if left == 0 {
            return Some(i + 1);
        }
    }
    None
}

// The same for the variables of one set: the largest of the records that any of its subsets needs, where each has one.
fn needed(
    block: &[u8],
    plan: &Plan,
    cans: &[u16; records::MOST_RECORDS],
    s: reach::Start,
    j: usize,
    slot: &[u8],
    set: u64,
    from: usize,
) -> Option<usize>
    requires { Asks plan.now block.now cans.now s slot.now j set from }
    ensures { MatchOption result (Never plan.now block.now s slot.now j set)
        (λ end. Found plan.now block.now s slot.now j set from end × (end ≤ s.until)) }
{
    let mut most = from;
    let mut x = set;
    // each subset, the largest first
    while x != 0 {
        let end = after(block, plan, cans, s, j, slot, x, from)?;
        most = most.max(end);
        x = (x - 1) & set;
    }
    Some(most)
}

// ## Where a set can begin

// The variables that no condition joins.
#[tactic(auto, unfolding(crate::specs::Opening::unjoined_in))]
fn unjoined(plan: &Plan, n: usize) -> u64
    requires { n ≤ most_variables }
    ensures { result ≡ unjoined_in plan.now n }
{
    numbers::mask(n, |v| plan.joins(v) == 0)
}

// Whether the state has what must be bound before v and nothing else, and the step on v has the order mark there.
fn is_marked(plan: &Plan, v: usize, state: u64) -> bool
    requires { v < most_variables }
    ensures { result ≡ true → Marked plan.now v state }
{
    plan.before(v) == state && numbers::is_disjoint(state, plan.marks(v))
}

// How many records there are up to the latest binding's: a count, which is 0 where nothing is bound.
fn last_of(slot: &[u8]) -> usize
    requires { (length slot.now ≡ slot_bytes) × (count_in slot.now ≤ most_bindings) }
    ensures { result ≡ up_to (held_in slot.now).bindings }
{
    match slots::count_of(slot) {
        0 => 0,
        count => slots::binding_record(slot, count - 1) + 1,
    }
}

// Whether a set can begin at record i: `able` are those of its variables that can fire there, and the latest binding is
// at the last of the first `last` records.
fn begins(block: &[u8], able: u64, last: usize, i: usize) -> bool
    requires { (i < record_count block.now) × (last ≤ i) }
    ensures { result ≡ false → Idle block.now able last i }
{
    able != 0 && (last == 0 || records::time_at(block, last - 1) < records::time_at(block, i))
}

// How many records there are up to the latest binding's behind record i, which one of the variables `able` takes, where
// there are any.
fn last_behind(able: u64, last: usize, i: usize) -> usize
    requires { i < most_records }
    ensures { Behind able last i result }
{
    if able == 0 { last } else { i + 1 }
}

// The first record from `from` on at which a set can begin whose first step has the order mark, or the end. The latest
// binding is at the last of the first `last` records, until one of the variables `sure` takes a record. The caller
// takes the end as it takes a record, so it is no Option.
fn opening(
    block: &[u8],
    cans: &[u16; records::MOST_RECORDS],
    set: u64,
    sure: u64,
    last: usize,
    from: usize,
    end: usize,
) -> usize
    requires { Searched block.now cans.now last from end }
    ensures { Passed block.now cans.now set sure last from end result }
{
    let mut latest = last;
    for i in from..end {
        let can = cans[i] as u64;
        if begins(block, can & set, latest, i) {
            return i;
        }
        latest = last_behind(can & sure, latest, i);
    }
    end
}

// The same for any set: where the first step has no order mark, it can begin at once.
fn beginning(
    block: &[u8],
    plan: &Plan,
    cans: &[u16; records::MOST_RECORDS],
    reached: u64,
    set: u64,
    sure: u64,
    last: usize,
    from: usize,
    end: usize,
) -> usize
    requires { (0 < set) × (set < 2 ^ most_variables)
        × Searched block.now cans.now last from end }
    ensures { Begins plan.now block.now cans.now reached set sure last from end
        result }
{
    if is_marked(plan, numbers::lowest_bit(set), reached) {
        opening(block, cans, set, sure, last, from, end)
    } else {
        from
    }
}

// ## All sets

// Whether the reading, held before record j, may yet become full: one set after another, its unbound variables need
// records of their own that they can take, behind those of the set before and not in the cycle of the latest binding.
pub fn can_fill(
    block: &[u8],
    plan: &Plan,
    cans: &[u16; records::MOST_RECORDS],
    s: reach::Start,
    j: usize,
    slot: &[u8],
) -> bool
    requires { (Ready plan.now block.now s slot.now j)
        × Cans plan.now block.now s.n s.c cans.now }
    ensures { result ≡ false → NeverFull plan.now block.now s slot.now j }
{
    let n = s.n;
    let free = unjoined(plan, n);
    // bound already, or of a set looked at; nothing else can be bound before record `from`
    let mut reached = slots::state_of(slot);
    let mut from = j;
    // where all of it is bound, the latest binding is at the last of so many records, or behind them
    let mut last = last_of(slot);
    for _ in 0..n {
        let leave = reach::leaving(plan, n, reached);
        // the unbound variables of the next set
        let set = leave - (leave & reached);
        if set == 0 {
            return true;
        }
        // loops that take each record that their own conditions allow
        let sure = leave & reached & free;
        let first = beginning(block, plan, cans, reached, set, sure, last, from, s.until);
        let Some(end) = needed(block, plan, cans, s, j, slot, set, first) else {
            return false;
        };
        from = end;
        last = end;
        reached |= set;
    }
    true
}
