// The start-by-start pass, and measure.
#![tactic(auto)]

ghost use Rattle.std.specs.Prelude.{◌≡◌, true, false, ◌+◌, ◌-◌, ◌*◌, ◌^◌, ◌/◌, ◌<◌, ◌≤◌, min, length, replicate};
ghost use Rattle.numbers.specs.Bits.{within};
ghost use Rattle.records.specs.Blocks.{InOrder as BlockInOrder, most_records, refused};
ghost use Rattle.records.specs.Refusals.{code_of, place_of};
ghost use Rattle.patterns.specs.Checked.{InOrder};
ghost use Rattle.patterns.specs.Patterns.{most_variables};
ghost use Rattle.rule.specs.Promises.{most_bindings};
ghost use Rattle.rule.specs.Starts.Found.{closed};
ghost use Rattle.rule.specs.Calls.{StartByStartCall, MeasureCall};
ghost use Rattle.slots.specs.Slots.{slot_bytes, count_in, held_in};
ghost use Rattle.starts.specs.Sinks.{sink_of, emit, none_yet, Accepted, answer_by, left_by, measure_by};
ghost use Rattle.reach.specs.Readings.{Cans, Reads, Usable, Ready};
ghost use Rattle.starts.specs.Skips.{Above, Taking, Branching, Mute, Settled, patience};
ghost use Rattle.sweep.specs.Floors.{Floor};
ghost use Rattle.starts.specs.Skips.{Closed, Skipped, Branched, AllStarted, Passed};

use patterns::Pattern;
use plans::Plan;
use reach::Start;
use records::{Answer, MOST_RECORDS, Refusal};
use sweep::Swept;

// The number of no record.
const NO_RECORD: u32 = MOST_RECORDS as u32;

// Where measure's counts stop (Rule 7.7).
const MOST_COUNTED: usize = u32::MAX as usize;

// How many branches a start takes before each is asked what it can still come to.
const PATIENCE: u32 = 64;

// How many branches a start takes before the block is looked at as a whole.
const GIVE_UP: u32 = 256;

// The numbers and readings so far, the least record at which a reading would take a binding too many, and how many
// branches this start has taken, up to a limit. `least` is the number of no record where there is none: an `Option`
// would be no plainer, since the least of two records is kept, and `Sinks` states it as `min`.
#[derive(Clone, Copy, Debug, PartialEq, Eq)]
pub struct Counts {
    pub used: usize,
    pub readings: usize,
    pub least: u32,
    pub steps: u32,
}

// Nothing counted.
const NONE_YET: Counts = Counts {
    used: 0,
    readings: 0,
    least: NO_RECORD,
    steps: 0,
};

// ## What is written and counted

// Writes a reading that closed, where there is room, and counts it. Counts stop at the largest number, beyond any room.
// The mark is that of a `reach::Start`, by its number.
fn report(res: &mut [u8], slot: &[u8], mark: u8, counts: Counts) -> Counts
    requires { (length slot.now ≡ slot_bytes) × (count_in slot.now ≤ most_bindings) × (mark < 16) }
    ensures { sink_of res.new result
        ≡ emit (sink_of res.old counts) (closed mark (held_in slot.now).bindings) }
{
    let bindings = slots::count_of(slot);
    let at = counts.used;
    if bindings < (res.len() / 2).saturating_sub(at) {
        slots::put_line(res, 2 * at, mark, slot);
    }
    Counts {
        used: at.saturating_add(bindings + 1),
        readings: counts.readings.saturating_add(1),
        ..counts
    }
}

// Whether a state holds all n variables.
fn is_full(state: u64, n: usize) -> bool
    requires { n ≤ most_variables }
    ensures { result ≡ within (2 ^ n - 1) state }
{
    numbers::is_within(numbers::weight(n) - 1, state)
}

// A reading closes: it is reported where its state is full.
fn close(res: &mut [u8], slot: &[u8], s: Start, counts: Counts) -> Counts
    requires { (Reads s.n s.until slot.now) × (s.n ≤ most_variables) × (s.mark < 16) }
    ensures { Closed s slot.now (sink_of res.old counts)
        (sink_of res.new result) }
{
    if is_full(slots::state_of(slot), s.n) {
        report(res, slot, s.mark, counts)
    } else {
        counts
    }
}

// A reading would take a binding too many at record j: the least such record is kept.
fn note_over(counts: Counts, j: usize) -> Counts
    requires { j ≤ most_records }
    ensures { (result.used ≡ counts.used) × (result.readings ≡ counts.readings)
        × (result.least ≡ min counts.least j) × (result.steps ≡ counts.steps) }
{
    Counts {
        least: counts.least.min(j as u32),
        ..counts
    }
}

// ## What can still change the answer

// Whether there is no room for the numbers so far, and both counts are such that the answer does not tell them.
fn is_told(counts: Counts, room: usize, most: usize) -> bool
    ensures { result ≡ true → (room < counts.used) × (most ≤ counts.used) × (most ≤ counts.readings) }
{
    room < counts.used && most <= counts.used && most <= counts.readings
}

// Whether a report of the reading, held before record j, may still change the answer.
fn may_report(
    block: &[u8],
    plan: &Plan,
    cans: &[u16; MOST_RECORDS],
    s: Start,
    j: usize,
    slot: &[u8],
    counts: Counts,
    room: usize,
) -> bool
    requires { (Ready plan.now block.now s slot.now j)
        × Cans plan.now block.now s.n s.c cans.now }
    ensures { result ≡ false → Mute plan.now block.now s slot.now j counts room }
{
    NO_RECORD <= counts.least
        && !is_told(counts, room, s.most)
        && (counts.steps < PATIENCE || fills::can_fill(block, plan, cans, s, j, slot))
}

// Whether the reading, held before record j, may still take a binding too many below the least record so far.
fn may_exceed(
    block: &[u8],
    plan: &Plan,
    cans: &[u16; MOST_RECORDS],
    s: Start,
    j: usize,
    slot: &[u8],
    counts: Counts,
) -> bool
    requires { (Ready plan.now block.now s slot.now j)
        × (Cans plan.now block.now s.n s.c cans.now)
        × Above plan.now block.now s j (held_in slot.now).bindings s.floor }
    ensures { result ≡ false → Above plan.now block.now s j
        (held_in slot.now).bindings counts.least }
{
    let end = s.until.min(counts.least as usize);
    s.floor < end
        && exceeds::has_room(s, j, slot, end)
        && (counts.steps < PATIENCE || exceeds::can_exceed(block, plan, cans, s, j, slot, end))
}

// Whether nothing that the reading, held before record j, can still come to changes the answer.
fn is_settled(
    block: &[u8],
    plan: &Plan,
    cans: &[u16; MOST_RECORDS],
    s: Start,
    j: usize,
    slot: &[u8],
    counts: Counts,
    room: usize,
) -> bool
    requires { (Ready plan.now block.now s slot.now j)
        × (Cans plan.now block.now s.n s.c cans.now)
        × Above plan.now block.now s j (held_in slot.now).bindings s.floor }
    ensures { result ≡ true
        → Settled plan.now block.now s slot.now j counts room }
{
    !may_report(block, plan, cans, s, j, slot, counts, room)
        && !may_exceed(block, plan, cans, s, j, slot, counts)
}

// One branch more, up to the limit.
fn stepped(counts: Counts, limit: u32) -> Counts
    ensures { (result.used ≡ counts.used) × (result.readings ≡ counts.readings) × (result.least ≡ counts.least)
        × (counts.steps ≤ result.steps) × (counts.steps ≤ limit → result.steps ≤ limit) }
{
    if counts.steps < limit {
        Counts {
            steps: counts.steps + 1,
            ..counts
        }
    } else {
        counts
    }
}

// ## Skip and branch

// From a reading that binds variable v to record j too: on to the next record that fires, and there, where something
// can still change the answer, each firing variable in turn.
#[cycle(branch_skip)]
fn skip(
    block: &[u8],
    plan: &Plan,
    cans: &[u16; MOST_RECORDS],
    slot: &[u8],
    j: usize,
    v: usize,
    s: Start,
    res: &mut [u8],
    counts: Counts,
) -> Counts
    requires { (Taking plan.now block.now s slot.now j v)
        × Cans plan.now block.now s.n s.c cans.now }
    ensures { Skipped plan.now block.now s slot.now j v
        (sink_of res.old counts) (sink_of res.new result) }
{
    let mut bytes = slots::load(slot);
    slots::bind(&mut bytes, j, v);
    let fire = reach::next_fire(block, plan, cans, s, j + 1, &bytes);
    if fire.at == s.until {
        return close(res, &bytes, s, counts);
    }
    if slots::count_of(&bytes) == slots::MOST_BINDINGS {
        return note_over(counts, fire.at);
    }
    if PATIENCE <= counts.steps
        && (GIVE_UP <= counts.steps
            || is_settled(block, plan, cans, s, fire.at, &bytes, counts, res.len() / 2))
    {
        return counts;
    }
    branch(
        block,
        plan,
        cans,
        &bytes,
        fire.at,
        fire.variables,
        s,
        res,
        stepped(counts, s.limit),
    )
}

// At record j, each of the firing variables in turn.
#[cycle(branch_skip)]
fn branch(
    block: &[u8],
    plan: &Plan,
    cans: &[u16; MOST_RECORDS],
    slot: &[u8],
    j: usize,
    firing: u64,
    s: Start,
    res: &mut [u8],
    counts: Counts,
) -> Counts
    requires { (Branching plan.now block.now s slot.now j firing)
        × Cans plan.now block.now s.n s.c cans.now }
    ensures { Branched plan.now block.now s slot.now j firing
        (sink_of res.old counts) (sink_of res.new result) }
{
    let mut taken = counts;
    let mut rest = firing;
    // By the bits that are set, which are few.
    while rest != 0 {
        let v = numbers::lowest_bit(rest);
        taken = skip(block, plan, cans, slot, j, v, s, res, taken);
        rest = numbers::without_bit(rest, v);
    }
    taken
}

// ## Starts

// How many branches a start counts before its first: none, or as many as are taken before each is asked what it can
// still come to, where a binding too many is known or the counts are told.
fn first_steps(counts: Counts, room: usize, most: usize) -> u32
    ensures { result ≤ patience }
{
    if counts.least < NO_RECORD || is_told(counts, room, most) {
        PATIENCE
    } else {
        0
    }
}

// Each record in turn as the first of a reading; a gap is none. The variables of `first` leave the state of no
// bindings. Readings of a later start close no earlier, so each search for the record that closes goes on where the
// last one ended.
fn each_start(
    block: &[u8],
    plan: &Plan,
    n: usize,
    c: usize,
    duration: u64,
    cans: &[u16; MOST_RECORDS],
    floor: usize,
    most: usize,
    limit: u32,
    res: &mut [u8],
) -> Counts
    requires { (Usable plan.now block.now n c) × (Cans plan.now block.now n c cans.now)
        × (Floor plan.now block.now n c duration floor) × (patience ≤ limit) }
    ensures { AllStarted plan.now block.now n c duration most limit
        (sink_of res.old none_yet) (sink_of res.new result) }
{
    let mut counts = NONE_YET;
    let gap = closings::gap_mark(plan, n).number();
    let first = reach::leaving(plan, n, 0);
    let empty = slots::empty_slot();
    let count = block.len() / records::RECORD_BYTES;
    let mut opened = 0;
    for i in 0..count {
        let firing = cans[i] as u64 & first;
        if firing == 0 || !records::is_event(block, i) {
            continue;
        }
        let w = closings::window_at(block, duration, i, opened, gap);
        opened = w.until;
        counts.steps = first_steps(counts, res.len() / 2, most);
        let s = Start {
            n,
            c,
            duration,
            until: w.until,
            mark: w.mark,
            floor,
            most,
            limit,
        };
        if PATIENCE <= counts.steps
            && is_settled(block, plan, cans, s, i, &empty, counts, res.len() / 2)
        {
            continue;
        }
        counts = branch(block, plan, cans, &empty, i, firing, s, res, counts);
        if GIVE_UP <= counts.steps {
            return counts;
        }
    }
    counts
}

// What the answer depends on of all that is found of a checked pattern in a checked block. Counts from `most` on are
// not told. Where a start takes many branches, the block is looked at as a whole, and then the starts once more.
fn pass(p: Pattern, block: &[u8], most: usize, res: &mut [u8]) -> Counts
    requires { (InOrder p) × BlockInOrder block.now }
    ensures { Passed p block.now most (length res.old)
        (sink_of res.new result) }
{
    let plan = plans::plan_of(p);
    let mut cans = reach::no_cans();
    reach::all_can(&plan, p.n, p.c, block, &mut cans);
    let quick = each_start(
        block, &plan, p.n, p.c, p.duration, &cans, 0, most, GIVE_UP, res,
    );
    if quick.steps < GIVE_UP {
        return quick;
    }
    let floor = match sweep::sweep(block, &plan, &cans, p.n, p.c, p.duration) {
        Swept::Reached(least) => {
            return Counts {
                least: least as u32,
                ..NONE_YET
            };
        }
        Swept::NotBefore(floor) => floor,
    };
    each_start(
        block, &plan, p.n, p.c, p.duration, &cans, floor, most, PATIENCE, res,
    )
}

// ## The calls

// The checked pattern, where the block is in order too, or refusals 1 to 7. Not inlined: its copies of the pattern
// would stand in the caller's frame while the pass goes on.
#[inline(never)]
fn accepted(pattern: &[u8], block: &[u8]) -> Result<Pattern, Refusal>
    ensures { Accepted pattern.now block.now result }
{
    let p = patterns::read(pattern)?;
    records::judge(block)?;
    Ok(p)
}

// A refusal: the result is all 0.
fn refuse(res: &mut [u8], refusal: Refusal) -> Answer
    ensures { (result ≡ refused (code_of refusal) (place_of refusal)) × (res.new ≡ replicate (length res.old) 0) }
{
    numbers::clear(res);
    Answer::from(refusal)
}

// Refusals 9 and 11, or what was counted with the bytes behind it 0.
#[tactic(auto, unfolding(crate::specs::Sinks::answer_by, crate::specs::Sinks::left_by))]
fn finish(res: &mut [u8], counts: Counts) -> Answer
    ensures { (result ≡ answer_by counts (length res.old / 2))
        × (res.new ≡ left_by counts res.old) }
{
    if counts.least < NO_RECORD {
        return refuse(res, Refusal::Bindings(counts.least));
    }
    if res.len() / 2 < counts.used {
        return refuse(res, Refusal::ResultRoom);
    }
    slots::clear_from(res, 2 * counts.used);
    Answer {
        code: 0,
        place: 0,
        used: counts.used as u64,
        readings: counts.readings as u64,
        peak: 0,
    }
}

// Refusal 9, or what was counted.
#[tactic(auto, unfolding(crate::specs::Sinks::measure_by))]
fn measured(counts: Counts) -> Answer
    ensures { result ≡ measure_by counts }
{
    if counts.least < NO_RECORD {
        return Answer::from(Refusal::Bindings(counts.least));
    }
    Answer {
        code: 0,
        place: 0,
        used: counts.used.min(MOST_COUNTED) as u64,
        readings: counts.readings.min(MOST_COUNTED) as u64,
        peak: 0,
    }
}

// The start-by-start pass over the bytes of a pattern and a block (Rule 7.6), with the refusals of Rule 8.16. No code
// looks for 13: a reading's records rise, so it never binds one again.
pub fn start_by_start(pattern: &[u8], block: &[u8], res: &mut [u8]) -> Answer
    ensures { StartByStartCall pattern.now block.now (length res.old) result
        res.new }
{
    match accepted(pattern, block) {
        Ok(p) => {
            let counts = pass(p, block, 0, res);
            finish(res, counts)
        }
        Err(refusal) => refuse(res, refusal),
    }
}

// What the start-by-start pass would count, over no result (Rule 7.7).
pub fn measure(pattern: &[u8], block: &[u8]) -> Answer
    ensures { MeasureCall pattern.now block.now result }
{
    match accepted(pattern, block) {
        Ok(p) => measured(pass(p, block, MOST_COUNTED, &mut [])),
        Err(refusal) => Answer::from(refusal),
    }
}
