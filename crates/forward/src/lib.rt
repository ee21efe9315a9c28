// The forward pass: one pass over the records, with the live readings in lent working memory.
#![tactic(auto)]

ghost use Rattle.std.specs.Prelude.{◌≡◌, false, [], ◌∷◌, ◌+◌, ◌*◌, ◌≤◌, ◌<◌, length, replicate};
ghost use Rattle.records.specs.Records.{record_bytes};
ghost use Rattle.rule.specs.Rule.{start_of};
ghost use Rattle.rule.specs.Computed.{line};
ghost use Rattle.rule.specs.Promises.{most_bindings};
ghost use Rattle.rule.specs.Calls.{most_live, ForwardCall};
ghost use Rattle.slots.specs.Slots.{slot_bytes, slots_at, held_in, count_in};
ghost use Rattle.slots.specs.Results.{mark_number};
ghost use Rattle.live.specs.Live.{long};
ghost use Rattle.forward.specs.Closing.{mark_by, is_late, Begun, first_in_time, gone_by, lines_by};
ghost use Rattle.forward.specs.Lines.{Reported};
ghost use Rattle.forward.specs.Passes.{Prepared, Ran, Finished, limit_broken, answer_of, Called};

pub use live::{Out, Stand};
use patterns::Pattern;
use plans::Plan;
use records::{Answer, RECORD_BYTES, Refusal};
use slots::{Mark, SLOT_BYTES};

pub const MOST_LIVE: u32 = 256;

// Working memory has two halves, each with a slot for each reading of the limit.
pub const WORK_PER_READING: usize = 2 * SLOT_BYTES;

// How many bytes and readings were reported.
#[derive(Clone, Copy, Debug, PartialEq, Eq)]
pub struct Tell {
    pub used: usize,
    pub readings: usize,
}

// ## Closing

// Is record i more than the duration after the reading's first?
fn is_late(block: &[u8], i: usize, duration: u64, slot: &[u8]) -> bool
    requires inside { (record_bytes * i + record_bytes ≤ length block.now) × (length slot.now ≡ slot_bytes)
        × (1 ≤ count_in slot.now) }
    requires first_inside { record_bytes * start_of (held_in slot.now).bindings + record_bytes ≤ length block.now }
    ensures { result ≡ is_late block.now i duration (held_in slot.now) }
{
    let first = records::time_at(block, slots::binding_record(slot, 0));
    let time = records::time_at(block, i);
    duration < time.saturating_sub(first)
}

// How many of the readings from src on, count of them, are late: they stand in front.
fn count_late(work: &[u8], block: &[u8], i: usize, duration: u64, src: usize, count: usize) -> usize
    requires { (src + slot_bytes * count ≤ length work.now) × (record_bytes * i + record_bytes ≤ length block.now)
        × Begun work.now block.now src count }
    ensures { result ≡ first_in_time block.now i duration work.now src count }
{
    numbers::first_that(count, |k| {
        let at = src + SLOT_BYTES * k;
        let end = at + SLOT_BYTES;
        !is_late(block, i, duration, &work[at..end])
    })
}

// How many of the readings close at record i: at a gap all, otherwise the late ones.
#[tactic(auto, unfolding(crate::specs::Closing::gone_by))]
fn count_gone(work: &[u8], block: &[u8], i: usize, duration: u64, src: usize, count: usize) -> usize
    requires { (src + slot_bytes * count ≤ length work.now) × (record_bytes * i + record_bytes ≤ length block.now)
        × Begun work.now block.now src count }
    ensures { result ≡ gone_by block.now i duration work.now src count }
{
    if live::is_event(block, i) {
        count_late(work, block, i, duration, src, count)
    } else {
        count
    }
}

// The mark of the readings that close at record i, where a gap gives the mark `gap`.
#[tactic(auto, unfolding(crate::specs::Closing::mark_by))]
fn mark_at(block: &[u8], i: usize, gap: Mark) -> Mark
    requires { record_bytes * i + record_bytes ≤ length block.now }
    ensures { mark_number result ≡ mark_by block.now (mark_number gap) i }
{
    if live::is_event(block, i) {
        Mark::Past
    } else {
        gap
    }
}

// Reports one reading, if there is room for it.
fn tell_one(res: &mut [u8], mark: Mark, slot: &[u8], tell: Tell) -> Result<Tell, Refusal>
    requires { (length slot.now ≡ slot_bytes) × (count_in slot.now ≤ most_bindings)
        × (tell.used ≤ length res.old) × (tell.readings ≤ tell.used) }
    ensures { Reported res.old res.new tell result
        (line (mark_number mark) (held_in slot.now).bindings ∷ []) }
{
    let end = tell.used + 2 + 2 * slots::count_of(slot);
    if res.len() < end {
        return Err(Refusal::ResultRoom);
    }
    slots::put_line(res, tell.used, mark.number(), slot);
    Ok(Tell {
        used: end,
        readings: tell.readings + 1,
    })
}

// Reports a reading that closes, if it is full.
fn close_one(
    res: &mut [u8],
    full: u64,
    mark: Mark,
    slot: &[u8],
    tell: Tell,
) -> Result<Tell, Refusal>
    requires { (length slot.now ≡ slot_bytes) × (count_in slot.now ≤ most_bindings)
        × (tell.used ≤ length res.old) × (tell.readings ≤ tell.used) }
    ensures { Reported res.old res.new tell result
        (lines_by full (mark_number mark) (held_in slot.now ∷ [])) }
{
    if numbers::is_within(full, slots::state_of(slot)) {
        tell_one(res, mark, slot, tell)
    } else {
        Ok(tell)
    }
}

// Reports the full ones of the readings from src on, count of them, which close.
fn close_all(
    res: &mut [u8],
    work: &[u8],
    src: usize,
    count: usize,
    full: u64,
    mark: Mark,
    tell: Tell,
) -> Result<Tell, Refusal>
    requires { (src + slot_bytes * count ≤ length work.now) × (long (slots_at work.now src count) ≡ false)
        × (tell.used ≤ length res.old) × (tell.readings ≤ tell.used) }
    ensures { Reported res.old res.new tell result
        (lines_by full (mark_number mark) (slots_at work.now src count)) }
{
    let mut told = tell;
    for k in 0..count {
        let at = src + SLOT_BYTES * k;
        let end = at + SLOT_BYTES;
        told = close_one(res, full, mark, &work[at..end], told)?;
    }
    Ok(told)
}

// Reports the full ones of the readings from src on, `gone` of them, which close at record i. Most records close none,
// and then no mark is asked for.
fn close_at(
    res: &mut [u8],
    work: &[u8],
    src: usize,
    gone: usize,
    full: u64,
    block: &[u8],
    i: usize,
    gap: Mark,
    tell: Tell,
) -> Result<Tell, Refusal>
    requires { (src + slot_bytes * gone ≤ length work.now) × (long (slots_at work.now src gone) ≡ false)
        × (record_bytes * i + record_bytes ≤ length block.now)
        × (tell.used ≤ length res.old) × (tell.readings ≤ tell.used) }
    ensures { Reported res.old res.new tell result
        (lines_by full (mark_by block.now (mark_number gap) i) (slots_at work.now src gone)) }
{
    if gone == 0 {
        Ok(tell)
    } else {
        close_all(res, work, src, gone, full, mark_at(block, i, gap), tell)
    }
}

// ## The pass

// The pass over a checked block: its answer, and what it reports in the result.
// It has a frame of its own, which does not stand while the plan is made.
#[inline(never)]
fn pass(
    p: Pattern,
    plan: &Plan,
    block: &[u8],
    limit: usize,
    work: &mut [u8],
    res: &mut [u8],
) -> Result<Answer, Refusal>
    requires { Prepared p plan.now block.now × (limit ≤ most_live)
        × (slot_bytes * limit + slot_bytes * limit ≤ length work.old) }
    ensures { Ran p block.now limit res.old res.new (answer_of result) }
{
    let full = numbers::weight(p.n) - 1;
    let gap = closings::gap_mark(plan, p.n);
    let count = block.len() / RECORD_BYTES;
    let mut stand = Stand {
        half: 0,
        start: 0,
        count: 0,
        over: false,
    };
    let mut tell = Tell {
        used: 0,
        readings: 0,
    };
    let mut peak: usize = 0;
    for i in 0..count {
        let gone = count_gone(work, block, i, p.duration, stand.start, stand.count);
        tell = close_at(res, work, stand.start, gone, full, block, i, gap, tell)?;
        let can = live::can_at(plan, block, i, p.n, p.c);
        stand = live::move_on(work, plan, block, i, can, live::without(stand, gone), limit);
        if stand.over {
            return Err(Refusal::Bindings(i as u32));
        }
        if limit < stand.count {
            return Err(Refusal::Live(i as u32));
        }
        peak = peak.max(stand.count);
    }
    tell = close_all(res, work, stand.start, stand.count, full, Mark::End, tell)?;
    Ok(Answer {
        code: 0,
        place: 0,
        used: (tell.used / 2) as u64,
        readings: tell.readings as u64,
        peak: peak as u32,
    })
}

// Refusal 8, of the limit and of working memory (Rule 8.8).
#[tactic(auto, unfolding(crate::specs::Passes::limit_broken))]
pub fn is_limit_broken(limit: u32, lent: usize) -> bool
    ensures { result ≡ limit_broken limit lent }
{
    limit < 1 || MOST_LIVE < limit || lent < WORK_PER_READING * limit as usize
}

// Clears what a call leaves clear: working memory, and of the result all that holds no report. `Finished` speaks of an
// answer, which has its code as a number (Rule 7.2).
fn finish(answer: Answer, work: &mut [u8], res: &mut [u8]) -> Answer
    requires { answer.code ≡ 0 → 2 * answer.used ≤ length res.old }
    ensures { (result ≡ answer) × (work.new ≡ replicate (length work.old) 0)
        × Finished answer res.old res.new }
{
    numbers::clear(work);
    if answer.code == 0 {
        slots::clear_from(res, 2 * answer.used as usize);
    } else {
        numbers::clear(res);
    }
    answer
}

// Checks the pattern, the block and the limit, then makes the pass. Lent memory is still to be cleared.
fn call(
    pattern: &[u8],
    block: &[u8],
    limit: u32,
    work: &mut [u8],
    res: &mut [u8],
) -> Result<Answer, Refusal>
    ensures { Called pattern.now block.now limit (length work.old) res.old res.new (answer_of result) }
{
    let p = patterns::read(pattern)?;
    records::judge(block)?;
    if is_limit_broken(limit, work.len()) {
        return Err(Refusal::Limit);
    }
    let plan = plans::plan_of(p);
    pass(p, &plan, block, limit as usize, work, res)
}

// The forward pass (Rule 7.5): checks the pattern, the block and the limit, then reads the records once.
pub fn forward(pattern: &[u8], block: &[u8], limit: u32, work: &mut [u8], res: &mut [u8]) -> Answer
    ensures { ForwardCall pattern.now block.now limit (length work.old)
        (length res.old) result work.new res.new }
{
    let outcome = call(pattern, block, limit, work, res);
    let answer = outcome.unwrap_or_else(|refusal| Answer::from(refusal));
    finish(answer, work, res)
}
