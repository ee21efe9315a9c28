// Whether a step fires (Rule 5.2), by a plan, in the parts that a pass settles one by one: the new event's own
// conditions once a record, the rest once a reading.
#![tactic(auto)]

ghost use Rattle.std.specs.Prelude.{ℕ, List, ◌≡◌, not, ◌+◌, ◌*◌, ◌%◌, ◌^◌, ◌<◌, ◌≤◌, pos, length};
ghost use Rattle.numbers.specs.Numbers.{number};
ghost use Rattle.numbers.specs.Bits.{bit};
ghost use Rattle.records.specs.Records.{record_bytes, record_at};
ghost use Rattle.patterns.specs.Patterns.{most_variables, most_conditions, condition_of};
ghost use Rattle.patterns.specs.Comparison.{value, order_of, meets, raise};
ghost use Rattle.slots.specs.Slots.{binding_of, bindings_in, count_in, held_in};
ghost use Rattle.plans.specs.Plan.{both_sides, Tells, Sound, Classed, settled};
ghost use Rattle.firing.specs.Firing.{settled_order, settled_by, Settling, Compares, can_by};
ghost use Rattle.firing.specs.Firing.{leaves_by, later_by, other_of};
ghost use Rattle.firing.specs.Firing.{side_of, pair_meets, joins_by, agrees_by, Fit};

use patterns::{AMOUNT, CORE, Condition, SLOT, TYPE, WAVE};
use plans::{BOTH_SIDES, FIRST_ORDER};
pub use plans::{PLAN_ROOM, Plan, plan_of};

// ## Once a record

// Whether x does not stand to y as the operator of a condition's 64 bits says. The bit looked up is an entry of the
// table of operators (Rule 3.2), which `plans::failing` took out of it once a call.
fn fails(word: u64, x: u64, y: u64) -> bool
    requires { Tells word }
    ensures { result ≡ not (meets (condition_of word).operator (order_of (pos x) (pos y))) }
{
    numbers::bit_of(word, FIRST_ORDER + patterns::order(x, y))
}

// The mask without the variable of a condition where x does not stand to y as its operator says.
fn settle_order(can: u64, word: u64, x: u64, y: u64) -> u64
    requires { Tells word }
    ensures { result ≡ settled_order can (condition_of word) x y }
{
    let variable = patterns::unpack_condition(word).variable;
    let lost = numbers::weight_if(fails(word, x, y), variable as usize);
    can - (can & lost)
}

// The variables of the mask whose conditions of a kind hold of a record, where `sides` gives the two numbers, raised,
// that such a condition compares: a loop over the bits of a mask.
fn settle<F: Fn(Condition) -> (u64, u64)>(
    plan: &Plan,
    n: usize,
    c: usize,
    can: u64,
    kind: u8,
    sides: F,
) -> u64
    requires settling { Sound plan.now × Classed plan.now n c × (n ≤ most_variables) × (c ≤ most_conditions)
        × (can < 2 ^ n) × (kind ≤ both_sides) }
    requires callable { (word : ℕ) → F.pre sides (condition_of word) }
    ensures { (bytes : List ℕ) (i : ℕ)
        → ((word : ℕ) (s : ℕ × ℕ) → Compares kind (condition_of word) → F.post sides (condition_of word) s
        → (m : ℕ) → settled_order m (condition_of word) s.0 s.1 ≡ settled m (condition_of word) (record_at bytes i))
        → (result ≡ settled_by plan.now n c bytes i kind can) × (result < 2 ^ n) }
{
    let mut rest = plan.others(kind);
    let mut left = can;
    while rest != 0 {
        let word = plan.condition(numbers::lowest_bit(rest));
        let (x, y) = sides(patterns::unpack_condition(word));
        left = settle_order(left, word, x, y);
        rest = numbers::without_lowest(rest);
    }
    left
}

// The same of the conditions that compare an attribute with the constant.
fn settle_attribute(
    plan: &Plan,
    n: usize,
    c: usize,
    can: u64,
    attribute: u8,
    block: &[u8],
    i: usize,
) -> u64
    requires { Settling plan.now n c can block.now i × (attribute < both_sides) }
    ensures { (result ≡ settled_by plan.now n c block.now i attribute can) × Settling plan.now n c result block.now i }
{
    if plan.others(attribute) == 0 {
        return can;
    }
    let x = patterns::raised_value(attribute, block, i);
    settle(plan, n, c, can, attribute, |k| {
        (x, patterns::raised_constant(attribute, k.constant))
    })
}

// The same of the conditions with one variable on both sides.
fn settle_both(plan: &Plan, n: usize, c: usize, can: u64, block: &[u8], i: usize) -> u64
    requires { Settling plan.now n c can block.now i }
    ensures { (result ≡ settled_by plan.now n c block.now i both_sides can) × (result < 2 ^ n) }
{
    settle(plan, n, c, can, BOTH_SIDES, |k| {
        (
            patterns::raised_value(k.attribute, block, i),
            patterns::raised_value(k.attribute2, block, i),
        )
    })
}

// The variables whose own conditions hold of record i, by the plan of a pattern of n variables and c conditions. The
// plan has settled those on class, with the class that `records::class` gives for the types of a place (Rule 1.4); the
// others are settled here, kind by kind.
pub fn can_fire(plan: &Plan, n: usize, c: usize, block: &[u8], i: usize) -> u64
    requires { Sound plan.now × Classed plan.now n c × (n ≤ most_variables) × (c ≤ most_conditions)
        × (record_bytes * i + record_bytes ≤ length block.now) }
    ensures { (result ≡ can_by plan.now n c block.now i) × (result < 2 ^ n) }
{
    let by_class = plan.by_type(records::type_at(block, i));
    let by_type = settle_attribute(plan, n, c, by_class, TYPE, block, i);
    if by_type == 0 {
        return 0;
    }
    let by_core = settle_attribute(plan, n, c, by_type, CORE, block, i);
    let by_slot = settle_attribute(plan, n, c, by_core, SLOT, block, i);
    let by_amount = settle_attribute(plan, n, c, by_slot, AMOUNT, block, i);
    let by_wave = settle_attribute(plan, n, c, by_amount, WAVE, block, i);
    settle_both(plan, n, c, by_wave, block, i)
}

// ## Once a reading

// Whether v leaves the state: it loops, or it opens.
#[tactic(auto, unfolding(crate::specs::Firing::leaves_by))]
pub fn leaves(plan: &Plan, state: u64, v: usize) -> bool
    requires { v < most_variables }
    ensures { result ≡ leaves_by plan.now state v }
{
    if numbers::bit_of(state, v) {
        numbers::is_disjoint(state, plan.after(v))
    } else {
        numbers::is_within(plan.before(v), state)
    }
}

// Whether record i is late enough where the step on v has the order mark (Rule 4.3).
pub fn is_later(plan: &Plan, block: &[u8], i: usize, v: usize, slot: &[u8]) -> bool
    requires { Fit plan.now block.now i slot.now × (v < most_variables) }
    ensures { result ≡ later_by plan.now block.now i v (held_in slot.now) }
{
    if !numbers::is_disjoint(slots::state_of(slot), plan.marks(v)) {
        return true;
    }
    let count = slots::count_of(slot);
    count == 0
        || records::time_at(block, slots::binding_record(slot, count - 1))
            < records::time_at(block, i)
}

// The new event's value in a condition that joins v, raised.
fn new_value(k: Condition, v: usize, block: &[u8], i: usize) -> u64
    requires { record_bytes * i + record_bytes ≤ length block.now }
    ensures { result ≡ raise (value (side_of v k) (record_at block.now i)) }
{
    if k.variable as usize == v {
        patterns::raised_value(k.attribute, block, i)
    } else {
        patterns::raised_value(k.attribute2, block, i)
    }
}

// Whether the variable that a condition names beside v is bound.
fn is_bound(k: Condition, v: usize, state: u64) -> bool
    requires { (k.variable < 16) × (k.variable2 < 16) }
    ensures { result ≡ bit state (other_of v k) }
{
    if k.variable as usize == v {
        numbers::bit_of(state, k.variable2 as usize)
    } else {
        numbers::bit_of(state, k.variable as usize)
    }
}

// Whether a condition that joins v, with its 64 bits, holds with binding j, x being the new event's value, raised.
#[tactic(auto, unfolding(crate::specs::Firing::pair_meets))]
fn pair_holds(
    block: &[u8],
    slot: &[u8],
    j: usize,
    word: u64,
    k: Condition,
    v: usize,
    x: u64,
) -> bool
    requires { Tells word × (k ≡ condition_of word) × (4 + 2 * j + 2 ≤ length slot.now)
        × (record_bytes * (number slot.now (4 + 2 * j) 2 % 2 ^ 12) + record_bytes ≤ length block.now) }
    ensures { result ≡ pair_meets block.now x v k (binding_of (number slot.now (4 + 2 * j) 2)) }
{
    let u = slots::binding_variable(slot, j);
    let at = slots::binding_record(slot, j);
    if k.variable as usize == v {
        u != k.variable2 as usize
            || !fails(word, x, patterns::raised_value(k.attribute2, block, at))
    } else {
        u != k.variable as usize || !fails(word, patterns::raised_value(k.attribute, block, at), x)
    }
}

// Whether every condition that joins v holds of record i with each earlier binding of the other variable: all pairs are
// asked (Rule 5.3), until one fails. The project names the form: nested loops that a label leaves.
pub fn joins_hold(plan: &Plan, block: &[u8], i: usize, v: usize, slot: &[u8]) -> bool
    requires { Fit plan.now block.now i slot.now × (v < most_variables) }
    ensures { result ≡ joins_by plan.now block.now i v
        (bindings_in slot.now (count_in slot.now)) }
{
    let mut rest = plan.joins(v);
    if rest == 0 {
        return true;
    }
    let state = slots::state_of(slot);
    let count = slots::count_of(slot);
    let mut hold = true;
    'conditions: while rest != 0 {
        let at = numbers::lowest_bit(rest);
        let word = plan.condition(at);
        let k = patterns::unpack_condition(word);
        rest = numbers::without_lowest(rest);
        if !is_bound(k, v, state) {
            continue;
        }
        let x = new_value(k, v, block, i);
        for j in 0..count {
            if !pair_holds(block, slot, j, word, k, v, x) {
                hold = false;
                break 'conditions;
            }
        }
    }
    hold
}

// Whether record i meets the order mark and every condition that joins v, for the slot's reading.
pub fn agrees(plan: &Plan, block: &[u8], i: usize, v: usize, slot: &[u8]) -> bool
    requires { Fit plan.now block.now i slot.now × (v < most_variables) }
    ensures { result ≡ agrees_by plan.now block.now i v (held_in slot.now) }
{
    is_later(plan, block, i, v, slot) && (plan.joins(v) == 0 || joins_hold(plan, block, i, v, slot))
}
