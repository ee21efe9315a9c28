// Readings in lent memory.
#![tactic(auto)]

ghost use Rattle.std.specs.Prelude.{◌≡◌, [], ◌++◌, ◌+◌, ◌-◌, ◌*◌, ◌^◌, ◌/◌, ◌%◌, ◌≤◌, ◌<◌, length, take, replicate};
ghost use Rattle.numbers.specs.Numbers.{number, bytes_of, written};
ghost use Rattle.records.specs.Blocks.{most_records};
ghost use Rattle.patterns.specs.Patterns.{most_variables};
ghost use Rattle.rule.specs.Promises.{most_bindings};
ghost use Rattle.slots.specs.Slots.{slot_bytes, count_in, state_in, held_in, grow};
ghost use Rattle.slots.specs.Results.{mark_number, line_numbers};

// The bytes of a slot.
pub const SLOT_BYTES: usize = 80;

pub const MOST_BINDINGS: usize = 32;

// The longest result slice of a C call, which the match program lends too.
pub const MOST_RESULT_BYTES: usize = 65536;

// The mark of a reading that closes, with its number in a report.
#[derive(Clone, Copy, Debug, PartialEq, Eq)]
pub enum Mark {
    Past = 1,
    End = 2,
    // At a gap: a full reading could have taken an event that was lost, or could not.
    Gap = 3,
    GapComplete = 4,
}

impl Mark {
    pub fn number(self) -> u8
        ensures { (result ≡ mark_number self) × (result < 16) }
    {
        self as u8
    }
}

// A binding is a number of 16 bits: the variable, then 12 bits for the record.
const RECORD_NUMBERS: usize = 4096;

// A slot out of lent memory.
pub fn load(part: &[u8]) -> [u8; SLOT_BYTES]
    requires { length part.now ≡ slot_bytes }
    ensures { result ≡ part.now }
{
    let mut slot = [0; SLOT_BYTES];
    slot.copy_from_slice(part);
    slot
}

// A slot into lent memory.
pub fn store(part: &mut [u8], slot: &[u8; SLOT_BYTES])
    requires { length part.old ≡ slot_bytes }
    ensures { part.new ≡ slot.now }
{
    part.copy_from_slice(slot);
}

// The count of a slot's bindings.
pub fn count_of(slot: &[u8]) -> usize
    requires { 2 ≤ length slot.now }
    ensures { result ≡ count_in slot.now }
{
    numbers::number2(slot, 0) as usize
}

// The state of a slot's reading.
pub fn state_of(slot: &[u8]) -> u64
    requires { 4 ≤ length slot.now }
    ensures { result ≡ state_in slot.now }
{
    numbers::number2(slot, 2) as u64
}

// The variable of binding i, counted from the oldest on.
pub fn binding_variable(slot: &[u8], i: usize) -> usize
    requires { 4 + 2 * i + 2 ≤ length slot.now }
    ensures { result ≡ number slot.now (4 + 2 * i) 2 / 2 ^ 12 }
{
    numbers::number2(slot, 4 + 2 * i) as usize / RECORD_NUMBERS
}

// The record of binding i, counted from the oldest on.
pub fn binding_record(slot: &[u8], i: usize) -> usize
    requires { 4 + 2 * i + 2 ≤ length slot.now }
    ensures { result ≡ number slot.now (4 + 2 * i) 2 % 2 ^ 12 }
{
    numbers::number2(slot, 4 + 2 * i) as usize % RECORD_NUMBERS
}

// No bindings: its clause says what the bytes hold.
pub fn empty_slot() -> [u8; SLOT_BYTES]
    ensures { (held_in result ≡ record { state = 0; bindings = [] }) × (length result ≡ slot_bytes) × (count_in result ≡ 0) }
{
    [0u8; SLOT_BYTES]
}

// One binding more: variable v to record i.
pub fn bind(slot: &mut [u8], i: usize, v: usize)
    requires { (length slot.old ≡ slot_bytes) × (count_in slot.old < most_bindings) × (v < most_variables)
        × (i < most_records) }
    ensures { (held_in slot.new ≡ grow i v (held_in slot.old))
        × (length slot.new ≡ slot_bytes) × (count_in slot.new ≡ count_in slot.old + 1) }
{
    let count = count_of(slot);
    let state = numbers::with_bit(numbers::number2(slot, 2) as u64, v);
    let at = 4 + 2 * count;
    let binding = v * RECORD_NUMBERS + i;
    slot[1] = (count + 1) as u8;
    slot[2..4].copy_from_slice(&(state as u16).to_be_bytes());
    slot[at..at + 2].copy_from_slice(&(binding as u16).to_be_bytes());
}

// All bytes from a place on 0.
pub fn clear_from(bytes: &mut [u8], at: usize)
    requires { at ≤ length bytes.old }
    ensures { bytes.new
        ≡ take at bytes.old ++ replicate (length bytes.old - at) 0 }
{
    bytes[at..].fill(0);
}

// One reported reading, from byte `at` on: its head, then its bindings, which stand in a slot as in a result. The mark
// is told by its number, any below 16, as `closings::window_at` and `reach::Start` have it.
pub fn put_line(res: &mut [u8], at: usize, mark: u8, slot: &[u8])
    requires { (mark < 16) × (length slot.now ≡ slot_bytes) × (count_in slot.now ≤ most_bindings)
        × (at + 2 + 2 * count_in slot.now ≤ length res.old) }
    ensures { res.new
        ≡ written res.old at (bytes_of (line_numbers mark (held_in slot.now).bindings)) }
{
    let count = count_of(slot);
    let start = at + 2;
    let end = start + 2 * count;
    let last = 4 + 2 * count;
    res[at] = mark * 16;
    res[at + 1] = count as u8;
    numbers::copy(&mut res[start..end], &slot[4..last]);
}
