// The live readings in lent working memory, and how they go on by one record.
#![tactic(auto)]

ghost use Rattle.std.specs.Prelude.{◌≡◌, false, [], ◌∷◌, ◌+◌, ◌-◌, ◌*◌, ◌^◌, ◌≤◌, ◌<◌, length};
ghost use Rattle.records.specs.Records.{record_bytes};
ghost use Rattle.records.specs.Blocks.{most_records};
ghost use Rattle.patterns.specs.Patterns.{most_variables, most_conditions};
ghost use Rattle.rule.specs.Promises.{most_bindings};
ghost use Rattle.rule.specs.Calls.{most_live};
ghost use Rattle.slots.specs.Slots.{slot_bytes, slot_at, slots_at, held_in, count_in, grow};
ghost use Rattle.plans.specs.Plan.{Sound, Classed};
ghost use Rattle.firing.specs.Firing.{Fit};
ghost use Rattle.live.specs.Live.{one_by, fired_by, extend_by, first_by, begun_by, step_by, is_long, long, is_event_by};
ghost use Rattle.live.specs.Live.{can_at};
ghost use Rattle.live.specs.Memory.{step_bound, Apart, Added, Ready, Stands, Moved};

use plans::Plan;
use slots::SLOT_BYTES;

// How many readings were put out, and whether one of them has a binding too many: those behind it are counted too, as
// `move_on` promises, so it is no error that ends the record.
#[derive(Clone, Copy, Debug, PartialEq, Eq)]
pub struct Out {
    pub total: usize,
    pub over: bool,
}

// Where the live readings stand: the half of working memory, the place of the first, how many; and whether one of them
// has a binding too many.
#[derive(Clone, Copy, Debug, PartialEq, Eq)]
pub struct Stand {
    pub half: usize,
    pub start: usize,
    pub count: usize,
    pub over: bool,
}

// ## What can fire

// Whether record i is an event, in the words of this crate's definitions.
#[tactic(auto, unfolding(crate::specs::Live::is_event_by))]
pub fn is_event(block: &[u8], i: usize) -> bool
    requires { record_bytes * i + record_bytes ≤ length block.now }
    ensures { result ≡ is_event_by block.now i }
{
    records::is_event(block, i)
}

// The variables whose own conditions hold of record i, if it is an event.
#[tactic(auto, unfolding(crate::specs::Live::can_at))]
pub fn can_at(plan: &Plan, block: &[u8], i: usize, n: usize, c: usize) -> u64
    requires { Sound plan.now × Classed plan.now n c × (n ≤ most_variables) × (c ≤ most_conditions)
        × (record_bytes * i + record_bytes ≤ length block.now) }
    ensures { (result ≡ can_at plan.now n c block.now i) × (result < 2 ^ most_variables) }
{
    if is_event(block, i) {
        firing::can_fire(plan, n, c, block, i)
    } else {
        0
    }
}

// ## Going on

// Puts out one reading that has no binding too many.
fn emit(work: &mut [u8], slot: &[u8; SLOT_BYTES], dst: usize, limit: usize, out: Out) -> Out
    requires { (dst + slot_bytes * limit ≤ length work.old)
        × (is_long (held_in slot.now) ≡ false) × (out.total < step_bound) }
    ensures { Added work.old work.new dst limit out.total out.over result.total
        result.over (held_in slot.now ∷ []) }
{
    if out.total < limit {
        let at = dst + SLOT_BYTES * out.total;
        let end = at + SLOT_BYTES;
        slots::store(&mut work[at..end], slot);
    }
    Out {
        total: out.total + 1,
        ..out
    }
}

// Puts out the slot's reading, which has room for a binding, with variable v bound to record i. It is bound where it
// was put, so it is not `emit` of a bound copy.
fn emit_bound(
    work: &mut [u8],
    slot: &[u8; SLOT_BYTES],
    i: usize,
    v: usize,
    dst: usize,
    limit: usize,
    out: Out,
) -> Out
    requires { (dst + slot_bytes * limit ≤ length work.old)
        × (count_in slot.now < most_bindings) × (out.total < step_bound) × (v < most_variables) × (i < most_records) }
    ensures { Added work.old work.new dst limit out.total out.over result.total
        result.over (grow i v (held_in slot.now) ∷ []) }
{
    if out.total < limit {
        let at = dst + SLOT_BYTES * out.total;
        let end = at + SLOT_BYTES;
        slots::store(&mut work[at..end], slot);
        slots::bind(&mut work[at..end], i, v);
    }
    Out {
        total: out.total + 1,
        ..out
    }
}

// Puts out the reading at `from` with variable v bound to record i, or notes a binding too many.
fn emit_grown(
    work: &mut [u8],
    from: usize,
    i: usize,
    v: usize,
    dst: usize,
    limit: usize,
    out: Out,
) -> Out
    requires { (dst + slot_bytes * limit ≤ length work.old) × (from + slot_bytes ≤ length work.old)
        × (out.total < step_bound) × (v < most_variables) × (i < most_records) }
    ensures { Added work.old work.new dst limit out.total out.over result.total
        result.over (grow i v (held_in (slot_at work.old from)) ∷ []) }
{
    let end = from + SLOT_BYTES;
    if slots::count_of(&work[from..end]) < slots::MOST_BINDINGS {
        let slot = slots::load(&work[from..end]);
        emit_bound(work, &slot, i, v, dst, limit, out)
    } else {
        Out {
            total: out.total + 1,
            over: true,
        }
    }
}

// Puts out the extension of the reading at `from` by one variable whose own conditions hold, if it fires.
fn try_one(
    work: &mut [u8],
    plan: &Plan,
    block: &[u8],
    i: usize,
    v: usize,
    from: usize,
    dst: usize,
    limit: usize,
    out: Out,
) -> Out
    requires { (dst + slot_bytes * limit ≤ length work.old) × (from + slot_bytes ≤ length work.old)
        × (out.total < step_bound) × (v < most_variables) × (i < most_records)
        × Fit plan.now block.now i (slot_at work.old from) }
    ensures { Added work.old work.new dst limit
        out.total out.over result.total result.over
        (one_by plan.now block.now i v (held_in (slot_at work.old from))) }
{
    let end = from + SLOT_BYTES;
    let slot = &work[from..end];
    if firing::leaves(plan, slots::state_of(slot), v) && firing::agrees(plan, block, i, v, slot) {
        emit_grown(work, from, i, v, dst, limit, out)
    } else {
        out
    }
}

// Puts out the extensions of the reading at `from` by each variable of `can` that fires, the smallest first: a loop
// over the bits of a mask.
fn spread(
    work: &mut [u8],
    plan: &Plan,
    block: &[u8],
    i: usize,
    can: u64,
    from: usize,
    dst: usize,
    limit: usize,
    out: Out,
) -> Out
    requires { (dst + slot_bytes * limit ≤ length work.old) × (from + slot_bytes ≤ length work.old)
        × Apart from (from + slot_bytes) dst limit × (out.total + most_variables < step_bound) × (can < 2 ^ most_variables)
        × (i < most_records) × Fit plan.now block.now i (slot_at work.old from) }
    ensures { Added work.old work.new dst limit
        out.total out.over result.total result.over
        (fired_by plan.now block.now i can (held_in (slot_at work.old from))) }
{
    let mut more = out;
    let mut rest = can;
    while rest != 0 {
        let v = numbers::lowest_bit(rest);
        more = try_one(work, plan, block, i, v, from, dst, limit, more);
        rest = numbers::without_lowest(rest);
    }
    more
}

// Puts out what the live reading at `from` becomes: its extensions, or itself where there are none.
fn extend_one(
    work: &mut [u8],
    plan: &Plan,
    block: &[u8],
    i: usize,
    can: u64,
    from: usize,
    dst: usize,
    limit: usize,
    out: Out,
) -> Out
    requires { (dst + slot_bytes * limit ≤ length work.old) × (from + slot_bytes ≤ length work.old)
        × Apart from (from + slot_bytes) dst limit × (out.total + most_variables < step_bound) × (can < 2 ^ most_variables)
        × (i < most_records) × Fit plan.now block.now i (slot_at work.old from) }
    ensures { Added work.old work.new dst limit
        out.total out.over result.total result.over
        (extend_by plan.now block.now i can (held_in (slot_at work.old from))) }
{
    let more = spread(work, plan, block, i, can, from, dst, limit, out);
    if out.total < more.total {
        return more;
    }
    let end = from + SLOT_BYTES;
    let slot = slots::load(&work[from..end]);
    emit(work, &slot, dst, limit, more)
}

// Puts out the reading that begins with one variable whose own conditions hold, if it fires. Nothing is bound, so its
// state is all that it is asked.
fn begin_one(
    work: &mut [u8],
    plan: &Plan,
    i: usize,
    v: usize,
    dst: usize,
    limit: usize,
    out: Out,
) -> Out
    requires { (dst + slot_bytes * limit ≤ length work.old) × (out.total < step_bound) × (v < most_variables)
        × (i < most_records) × Sound plan.now }
    ensures { Added work.old work.new dst limit out.total out.over result.total
        result.over (first_by plan.now i v) }
{
    if firing::leaves(plan, 0, v) {
        let none = slots::empty_slot();
        emit_bound(work, &none, i, v, dst, limit, out)
    } else {
        out
    }
}

// Puts out the readings that begin with each variable of `can` that fires, the smallest first: a loop over the bits of
// a mask.
fn begin(
    work: &mut [u8],
    plan: &Plan,
    i: usize,
    can: u64,
    dst: usize,
    limit: usize,
    out: Out,
) -> Out
    requires { (dst + slot_bytes * limit ≤ length work.old) × (out.total + most_variables < step_bound)
        × (can < 2 ^ most_variables) × (i < most_records) × Sound plan.now }
    ensures { Added work.old work.new dst limit out.total out.over result.total
        result.over (begun_by plan.now i can) }
{
    let mut more = out;
    let mut rest = can;
    while rest != 0 {
        let v = numbers::lowest_bit(rest);
        more = begin_one(work, plan, i, v, dst, limit, more);
        rest = numbers::without_lowest(rest);
    }
    more
}

// The live readings from src on, count of them, are replaced by what they become at event i, then those that begin.
fn advance(
    work: &mut [u8],
    plan: &Plan,
    block: &[u8],
    i: usize,
    can: u64,
    src: usize,
    count: usize,
    dst: usize,
    limit: usize,
) -> Out
    requires room { (dst + slot_bytes * limit ≤ length work.old) × (src + slot_bytes * count ≤ length work.old)
        × Apart src (src + slot_bytes * count) dst limit }
    requires ready { (count ≤ most_live) × (can < 2 ^ most_variables) × (i < most_records) × Sound plan.now
        × Ready work.old plan.now block.now i src count }
    ensures { Added work.old work.new dst limit 0 false result.total result.over
        (step_by plan.now block.now i can (slots_at work.old src count)) }
{
    let mut out = Out {
        total: 0,
        over: false,
    };
    for k in 0..count {
        let at = src + SLOT_BYTES * k;
        out = extend_one(work, plan, block, i, can, at, dst, limit, out);
    }
    begin(work, plan, i, can, dst, limit, out)
}

// The live readings after record i. Where no variable can fire nothing moves.
pub fn move_on(
    work: &mut [u8],
    plan: &Plan,
    block: &[u8],
    i: usize,
    can: u64,
    stand: Stand,
    limit: usize,
) -> Stand
    requires stands { Stands (length work.old) limit stand.half stand.start stand.count
        × (long (slots_at work.old stand.start stand.count) ≡ false) × (stand.over ≡ false) }
    requires ready { (can < 2 ^ most_variables) × (i < most_records) × Sound plan.now
        × Ready work.old plan.now block.now i stand.start stand.count }
    ensures { Moved work.old work.new limit result.half result.start
        result.count result.over (step_by plan.now block.now i can
        (slots_at work.old stand.start stand.count)) }
{
    if can == 0 {
        return stand;
    }
    let dst = SLOT_BYTES * limit - stand.half;
    let out = advance(
        work,
        plan,
        block,
        i,
        can,
        stand.start,
        stand.count,
        dst,
        limit,
    );
    Stand {
        half: dst,
        start: dst,
        count: out.total,
        over: out.over,
    }
}

// The readings but for the first ones, which are gone.
pub fn without(stand: Stand, gone: usize) -> Stand
    requires { (gone ≤ stand.count) × (stand.start + slot_bytes * stand.count < 9223372036854775808) }
    ensures { result ≡ record {
      half = stand.half;
      start = stand.start + slot_bytes * gone;
      count = stand.count - gone;
      over = stand.over;
    } }
{
    Stand {
        start: stand.start + SLOT_BYTES * gone,
        count: stand.count - gone,
        ..stand
    }
}
