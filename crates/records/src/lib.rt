// What the bytes of a block mean, and the check of a block.
#![tactic(auto)]

ghost use Rattle.std.specs.Prelude.{◌≡◌, true, false, ℕ, ◌+◌, ◌-◌, ◌*◌, ◌<◌, ◌≤◌, eqb, length, MatchResult};
ghost use Rattle.records.specs.Records.{record_bytes, record_at, record_count, event_kind, class_of};
ghost use Rattle.records.specs.Blocks.{most_records, misfit, gap_broken, broken, misplaced, late, record_refusal};
ghost use Rattle.records.specs.Blocks.{refused, block_answer};
ghost use Rattle.records.specs.Refusals.{code_of, place_of, judged_as};
ghost use Rattle.records.specs.Runs.{Ready, GoesOn};

pub mod refusals;

pub use refusals::Refusal;

pub const RECORD_BYTES: usize = 16;

pub const MOST_RECORDS: usize = 4096;

// The kinds of a record, as numbers: the field of Rule 1.2 has other values too, which refusal 6 is for.
pub const EVENT: u8 = 0;

pub const GAP: u8 = 1;

// Rule 7.2: the answer of every call: the refusal's number and place, or, with code 0, what was written and counted.
#[derive(Clone, Copy, Debug, PartialEq, Eq)]
pub struct Answer {
    pub code: u8,
    pub place: u32,
    pub used: u64,
    pub readings: u64,
    pub peak: u32,
}

// Rule 1.2: one record, unpacked.
#[derive(Clone, Copy, Debug, PartialEq, Eq)]
pub struct Record {
    pub kind: u8,
    pub core: u8,
    pub event_type: u8,
    pub time: u64,
    pub slot: u32,
    pub amount: u32,
    pub wave: u8,
}

// Rule 7.2: the answer of a refusal that is given as numbers, as in a checked pattern.
pub fn refusal(code: u8, place: u32) -> Answer
    ensures { result ≡ refused code place }
{
    Answer {
        code,
        place,
        used: 0,
        readings: 0,
        peak: 0,
    }
}

// ## Fields of record i, each fetched by itself

#[tactic(auto, unfolding(crate::specs::Records::record_at))]
pub fn kind_at(block: &[u8], i: usize) -> u8
    requires { record_bytes * i + record_bytes ≤ length block.now }
    ensures { result ≡ (record_at block.now i).kind }
{
    numbers::byte(block, RECORD_BYTES * i) >> 6
}

#[tactic(auto, unfolding(crate::specs::Records::record_at))]
pub fn core_at(block: &[u8], i: usize) -> u8
    requires { record_bytes * i + record_bytes ≤ length block.now }
    ensures { result ≡ (record_at block.now i).core }
{
    numbers::byte(block, RECORD_BYTES * i) % 64
}

#[tactic(auto, unfolding(crate::specs::Records::record_at))]
pub fn type_at(block: &[u8], i: usize) -> u8
    requires { record_bytes * i + record_bytes ≤ length block.now }
    ensures { result ≡ (record_at block.now i).event_type }
{
    numbers::byte(block, RECORD_BYTES * i + 1)
}

#[tactic(auto, unfolding(crate::specs::Records::record_at, numbers::specs::Numbers::number))]
pub fn time_at(block: &[u8], i: usize) -> u64
    requires { record_bytes * i + record_bytes ≤ length block.now }
    ensures { result ≡ (record_at block.now i).time }
{
    let at = RECORD_BYTES * i + 2;
    let high = numbers::byte(block, at) as u64;
    let low = numbers::number4(block, at + 1) as u64;
    high * 4294967296 + low
}

#[tactic(auto, unfolding(crate::specs::Records::record_at))]
pub fn slot_at(block: &[u8], i: usize) -> u32
    requires { record_bytes * i + record_bytes ≤ length block.now }
    ensures { result ≡ (record_at block.now i).slot }
{
    numbers::number4(block, RECORD_BYTES * i + 7)
}

#[tactic(auto, unfolding(crate::specs::Records::record_at))]
pub fn amount_at(block: &[u8], i: usize) -> u32
    requires { record_bytes * i + record_bytes ≤ length block.now }
    ensures { result ≡ (record_at block.now i).amount }
{
    numbers::number4(block, RECORD_BYTES * i + 11)
}

#[tactic(auto, unfolding(crate::specs::Records::record_at))]
pub fn wave_at(block: &[u8], i: usize) -> u8
    requires { record_bytes * i + record_bytes ≤ length block.now }
    ensures { result ≡ (record_at block.now i).wave }
{
    numbers::byte(block, RECORD_BYTES * i + 15)
}

// Whether record i is an event.
pub fn is_event(block: &[u8], i: usize) -> bool
    requires { record_bytes * i + record_bytes ≤ length block.now }
    ensures { result ≡ eqb (record_at block.now i).kind event_kind }
{
    kind_at(block, i) == EVENT
}

// Record i, unpacked, for the check of a gap, which judges all of it.
#[tactic(auto, unfolding(crate::specs::Records::record_at))]
fn unpack(block: &[u8], i: usize) -> Record
    requires { record_bytes * i + record_bytes ≤ length block.now }
    ensures { result ≡ record_at block.now i }
{
    Record {
        kind: kind_at(block, i),
        core: core_at(block, i),
        event_type: type_at(block, i),
        time: time_at(block, i),
        slot: slot_at(block, i),
        amount: amount_at(block, i),
        wave: wave_at(block, i),
    }
}

// The class of an event, from its type.
#[tactic(auto, unfolding(crate::specs::Records::class_of))]
pub fn class(event_type: u8) -> u8
    ensures { result ≡ class_of event_type }
{
    match event_type {
        0..=15 => 0,
        16..=31 => 1,
        32..=63 => 2,
        64..=95 => 3,
        96..=127 => 4,
        128..=255 => 5,
    }
}

// Whether a gap has something of an event, or tells of no loss.
#[tactic(auto, unfolding(crate::specs::Blocks::gap_broken))]
fn is_gap_broken(r: Record) -> bool
    ensures { result ≡ gap_broken r }
{
    r.core != 0 || r.event_type != 0 || r.amount != 0 || r.wave != 0 || r.slot == 0
}

// Refusal 6. Of an event only the kind is judged here, of a gap every field but the time.
#[tactic(auto, unfolding(crate::specs::Blocks::broken))]
fn is_broken(block: &[u8], i: usize) -> bool
    requires { record_bytes * i + record_bytes ≤ length block.now }
    ensures { result ≡ broken (record_at block.now i) }
{
    let kind = kind_at(block, i);
    GAP < kind || kind == GAP && is_gap_broken(unpack(block, i))
}

// Refusal 7, for a record that has one before it: two records may have one time if neither is a gap.
#[tactic(auto, unfolding(crate::specs::Blocks::misplaced))]
fn is_misplaced(block: &[u8], i: usize) -> bool
    requires { (0 < i) × (record_bytes * i + record_bytes ≤ length block.now) }
    ensures { result ≡ misplaced (record_at block.now (i - 1)) (record_at block.now i) }
{
    let time = time_at(block, i);
    let before = time_at(block, i - 1);
    time < before || time == before && (kind_at(block, i - 1) == GAP || kind_at(block, i) == GAP)
}

// Whether record i cannot stand behind the one before it.
#[tactic(auto, unfolding(crate::specs::Blocks::late))]
fn is_late(block: &[u8], i: usize) -> bool
    requires { record_bytes * i + record_bytes ≤ length block.now }
    ensures { result ≡ late block.now i }
{
    i != 0 && is_misplaced(block, i)
}

// What record i is refused by: 6, 7 or 0 for nothing, as `record_refusal` (Rule 8.14) numbers them.
// Not inlined: the loops that go on past a run of events would have their ways out behind it, too far for short jumps.
#[inline(never)]
#[tactic(auto, unfolding(crate::specs::Blocks::record_refusal))]
pub fn refusal_of(block: &[u8], i: usize) -> u8
    requires { record_bytes * i + record_bytes ≤ length block.now }
    ensures { result ≡ record_refusal block.now i }
{
    if is_broken(block, i) {
        6
    } else if is_late(block, i) {
        7
    } else {
        0
    }
}

// Record i by itself and against the one before it: refusal 6 or 7 where it is not in order.
#[tactic(auto, unfolding(crate::specs::Blocks::record_refusal))]
pub fn judge_record(block: &[u8], i: usize) -> Result<(), Refusal>
    requires { (record_bytes * i + record_bytes ≤ length block.now) × (i < most_records) }
    ensures { MatchResult result (λ _. record_refusal block.now i ≡ 0)
        (λ r. (0 < record_refusal block.now i) × (code_of r ≡ record_refusal block.now i) × (place_of r ≡ i)) }
{
    match refusal_of(block, i) {
        0 => Ok(()),
        6 => Err(Refusal::Record(i as u32)),
        _ => Err(Refusal::Time(i as u32)),
    }
}

// Refusal 5.
#[tactic(auto, unfolding(crate::specs::Blocks::misfit))]
pub fn is_misfit(block: &[u8]) -> bool
    ensures { result ≡ misfit block.now }
{
    block.len() % RECORD_BYTES != 0 || MOST_RECORDS < block.len() / RECORD_BYTES
}

// Whether record i is an event that goes on from the record before: its time has the same high byte, and its lower bits
// are these or more. Where it says no, nothing is known: then `judge_record` tells.
pub fn goes_on(block: &[u8], i: usize, high: u8, least: u64) -> bool
    requires { (record_bytes * i + record_bytes ≤ length block.now) × Ready block.now i high least }
    ensures { GoesOn block.now i high result }
{
    is_event(block, i)
        && numbers::byte(block, RECORD_BYTES * i + 2) == high
        && least <= numbers::number4(block, RECORD_BYTES * i + 3) as u64
}

// Where the events behind record i, which is in order, no longer go on.
// No `for`: over a range the compiler takes other registers, and wherever the loop then stands one of its branches
// crosses 32 bytes, so that on some processors the check takes nearly twice as long.
fn run_end(block: &[u8], i: usize, count: usize) -> usize
    requires { (i < count) × (count ≡ record_count block.now) × (record_refusal block.now i ≡ 0) }
    ensures { (i < result) × (result ≤ count)
        × ((j : ℕ) → i ≤ j → j < result → record_refusal block.now j ≡ 0) }
{
    let high = numbers::byte(block, RECORD_BYTES * i + 2);
    let low = numbers::number4(block, RECORD_BYTES * i + 3) as u64;
    let mut least = low + kind_at(block, i) as u64;
    let mut at = i + 1;
    while at < count {
        if !goes_on(block, at, high, least) {
            return at;
        }
        least = numbers::number4(block, RECORD_BYTES * at + 3) as u64;
        at += 1;
    }
    at
}

// The count of records, or refusal 5, 6 or 7. Behind a record that is judged in full, i goes on past the run of events
// that go on from it.
pub fn judge(block: &[u8]) -> Result<usize, Refusal>
    ensures { judged_as result ≡ block_answer block.now }
{
    if is_misfit(block) {
        return Err(Refusal::BlockLength);
    }
    let count = block.len() / RECORD_BYTES;
    let mut i = 0;
    while i < count {
        judge_record(block, i)?;
        i = run_end(block, i, count);
    }
    Ok(count)
}

// Refusals 5 to 7, or the count of records as `used`.
pub fn check_block(block: &[u8]) -> Answer
    ensures { result ≡ block_answer block.now }
{
    Answer::from(judge(block))
}
