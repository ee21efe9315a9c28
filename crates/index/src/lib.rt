// The index of a block: its maker, the check of an index, and whether a pattern cannot match by it.
#![tactic(auto)]

ghost use Rattle.std.specs.Prelude.{◌≡◌, ℕ, ◌+◌, ◌*◌, ◌<◌, ◌≤◌, ◌^◌, length, get_or};
ghost use Rattle.records.specs.Records.{record_bytes, record_at, record_count};
ghost use Rattle.records.specs.Blocks.{most_records, record_refusal};
ghost use Rattle.patterns.specs.Patterns.{most_conditions};
ghost use Rattle.patterns.specs.Checked.{condition_at};
ghost use Rattle.index.specs.Index.{index_bytes, count_bits, events_by, cores_field, core_by};
ghost use Rattle.index.specs.Index.{index_broken, counts_row, packed_bytes, lacks, rules_out};
ghost use Rattle.index.specs.Upto.{types_up_to, fold_types, seen_up_to, marked_bits, Counted};
ghost use Rattle.index.specs.Upto.{Filled, first_refusal, Decided};
ghost use Rattle.index.specs.Promises.{MakePromise};

use patterns::{CLASS, CORE, EQUAL, Pattern, WITH_CONSTANT};
use records::{Answer, Refusal};

pub const INDEX_BYTES: usize = 18;

const CLASSES: usize = 6;

// The maker counts events by sixteen types: of these a class has one count or more.
const TYPE_COUNTS: usize = 16;

const CORES: usize = 64;

const LAST_CORE: u32 = 63;

// ## The maker

// The count of the types of record i goes up by one, if it is an event.
fn count_type(block: &[u8], i: usize, counts: &mut [u64; TYPE_COUNTS])
    requires { (record_bytes * i + record_bytes ≤ length block.now) × (i < most_records)
        × (counts.old ≡ types_up_to block.now i) }
    ensures { (counts.new ≡ types_up_to block.now (i + 1))
        × ((record_at block.now i).event_type < 256) }
{
    let types = (records::type_at(block, i) / 16) as usize;
    let kind = records::kind_at(block, i);
    if kind == records::EVENT {
        counts[types] += 1;
    }
}

// Marks the core of record i, if it is an event.
fn mark_core(block: &[u8], i: usize, seen: &mut [bool; CORES])
    requires { (record_bytes * i + record_bytes ≤ length block.now) × (seen.old ≡ seen_up_to block.now i) }
    ensures { seen.new ≡ seen_up_to block.now (i + 1) }
{
    if records::kind_at(block, i) == records::EVENT {
        seen[records::core_at(block, i) as usize] = true;
    }
}

// Counts record i, which is in order, and the events behind it that go on: gives the record behind them.
fn take(
    block: &[u8],
    i: usize,
    count: usize,
    counts: &mut [u64; TYPE_COUNTS],
    seen: &mut [bool; CORES],
) -> usize
    requires { (i < count) × (count ≡ record_count block.now) × (count ≤ most_records)
        × (record_refusal block.now i ≡ 0) × Counted block.now i counts.old seen.old }
    ensures { (i < result) × Counted block.now result counts.new seen.new }
{
    let high = numbers::byte(block, records::RECORD_BYTES * i + 2);
    let low = numbers::number4(block, records::RECORD_BYTES * i + 3) as u64;
    // an event may have the time of an event, and is later than a gap
    let mut least = low + records::kind_at(block, i) as u64;
    count_type(block, i, counts);
    mark_core(block, i, seen);
    for at in i + 1..count {
        if !records::goes_on(block, at, high, least) {
            return at;
        }
        least = numbers::number4(block, records::RECORD_BYTES * at + 3) as u64;
        count_type(block, at, counts);
        mark_core(block, at, seen);
    }
    count
}

// The bits of the cores that are marked, core 0 at the high end.
#[tactic(auto, unfolding(crate::specs::Upto::marked_bits))]
fn core_bits(seen: &[bool; CORES]) -> u64
    ensures { result ≡ marked_bits seen.now }
{
    numbers::mask(CORES, |j| seen[LAST_CORE as usize - j])
}

// Counts by types, put together class by class.
#[tactic(auto, unfolding(crate::specs::Upto::fold_types))]
fn class_counts(types: &[u64; TYPE_COUNTS]) -> [u64; CLASSES]
    requires { (k : ℕ) → get_or types.now k 0 ≤ most_records }
    ensures { result ≡ fold_types types.now }
{
    let marks = types[8]
        + types[9]
        + types[10]
        + types[11]
        + types[12]
        + types[13]
        + types[14]
        + types[15];
    [
        types[0],
        types[1],
        types[2] + types[3],
        types[4] + types[5],
        types[6] + types[7],
        marks,
    ]
}

// The bytes of an index that has these counts and these bits of cores.
fn put_index(index: &mut [u8], counts: &[u64; CLASSES], bits: u64)
    requires { (length index.old ≡ index_bytes)
        × ((k : ℕ) → get_or counts.now k 0 < 2 ^ count_bits) }
    ensures { index.new ≡ packed_bytes (counts_row (λ k. get_or counts.now k 0)) bits }
{
    let first = ((counts[0] * 8192 + counts[1]) * 8192 + counts[2]) * 8192 + counts[3];
    let high = first * 4096 + counts[4] / 2;
    let low = (counts[4] % 2 * 8192 + counts[5]) * 1125899906842624 + bits / 16384;
    let last = bits % 16384 * 4;
    numbers::store_word(index, 0, high);
    numbers::store_word(index, 8, low);
    index[16] = (last / 256) as u8;
    index[17] = (last % 256) as u8;
}

// Judges each record and counts it, in one way through the block, and fills a slice that is as long as an index. A step
// goes behind a run of events.
fn fill(block: &[u8], index: &mut [u8]) -> Result<usize, Refusal>
    requires { length index.old ≡ index_bytes }
    ensures { Filled block.now index.old index.new result }
{
    if records::is_misfit(block) {
        return Err(Refusal::BlockLength);
    }
    let count = block.len() / records::RECORD_BYTES;
    let mut types = [0; TYPE_COUNTS];
    let mut seen = [false; CORES];
    let mut i = 0;
    while i < count {
        records::judge_record(block, i)?;
        i = take(block, i, count, &mut types, &mut seen);
    }
    let counts = class_counts(&types);
    let bits = core_bits(&seen);
    put_index(index, &counts, bits);
    Ok(INDEX_BYTES)
}

// The maker of indexes (Rule 7.10).
pub fn make_index(block: &[u8], index: &mut [u8]) -> Answer
    ensures { MakePromise block.now (length index.old) result index.new }
{
    numbers::clear(index);
    if index.len() != INDEX_BYTES {
        return Answer::from(Refusal::Index);
    }
    Answer::from(fill(block, index))
}

// ## What an index says

// Refusal 15 (Rule 8.19).
pub fn is_broken(index: &[u8]) -> bool
    ensures { result ≡ index_broken index.now }
{
    index.len() != INDEX_BYTES || numbers::byte(index, 17) % 4 != 0
}

// What pattern and index are refused by (Rule 8.20): the pattern, which is given by its refusal, comes first. All 0
// where neither is refused.
// It takes and gives numbers, which its public promise speaks of; the search goes by `Refusal`, in the same order.
#[tactic(auto, unfolding(crate::specs::Upto::first_refusal))]
pub fn first_refusal(code: u8, place: u32, broken: bool) -> Answer
    ensures { result ≡ first_refusal code place broken }
{
    if code != 0 {
        records::refusal(code, place)
    } else if broken {
        Answer::from(Refusal::Index)
    } else {
        records::refusal(0, 0)
    }
}

// How many events a class has by the index.
fn events_by(index: &[u8], class: u32) -> u64
    requires { length index.now ≡ index_bytes }
    ensures { result ≡ events_by index.now class }
{
    let high = numbers::number8(index, 0);
    let low = numbers::number2(index, 8) as u64;
    match class {
        0 => high >> 51,
        1 => (high >> 38) % 8192,
        2 => (high >> 25) % 8192,
        3 => (high >> 12) % 8192,
        4 => high % 4096 * 2 + (low >> 15),
        5 => (low >> 2) % 8192,
        _ => 0,
    }
}

// The bits of the cores.
fn cores_field(index: &[u8]) -> u64
    requires { length index.now ≡ index_bytes }
    ensures { result ≡ cores_field index.now }
{
    let first = numbers::byte(index, 9) as u64;
    let rest = numbers::number8(index, 10);
    first % 4 * 4611686018427387904 + rest / 4
}

// Whether a core has events by the index.
#[tactic(auto, unfolding(crate::specs::Index::core_by))]
fn core_by(index: &[u8], core: u32) -> bool
    requires { length index.now ≡ index_bytes }
    ensures { result ≡ core_by index.now core }
{
    core <= LAST_CORE && numbers::bit_of(cores_field(index), (LAST_CORE - core) as usize)
}

// Whether no event has this value of the attribute by the index, which tells of core and class alone.
#[tactic(auto, unfolding(crate::specs::Index::lacks))]
fn is_lacking(index: &[u8], attribute: u8, value: u32) -> bool
    requires { length index.now ≡ index_bytes }
    ensures { result ≡ lacks index.now attribute value }
{
    match attribute {
        CORE => !core_by(index, value),
        CLASS => events_by(index, value) == 0,
        _ => false,
    }
}

// Whether by the index no event meets condition i.
#[tactic(auto, unfolding(crate::specs::Index::rules_out, patterns::specs::Checked::condition_at))]
fn is_ruled_out(p: Pattern, i: usize, index: &[u8]) -> bool
    requires { (length index.now ≡ index_bytes) × (i < most_conditions) }
    ensures { result ≡ rules_out index.now (condition_at p i) }
{
    p.forms[i] == WITH_CONSTANT
        && p.operators[i] == EQUAL
        && is_lacking(index, p.attributes[i], p.constants[i])
}

// Whether the pattern cannot match by the index (Rule 12.3).
pub fn cannot_match(p: Pattern, index: &[u8]) -> bool
    requires { (length index.now ≡ index_bytes) × (p.c ≤ most_conditions) }
    ensures { Decided p index.now result }
{
    for i in 0..p.c {
        if is_ruled_out(p, i, index) {
            return true;
        }
    }
    false
}
