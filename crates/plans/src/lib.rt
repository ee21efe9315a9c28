// What a pass prepares once a call: the plan of a checked pattern, with its conditions on class settled.
#![tactic(auto)]

ghost use Rattle.std.specs.Prelude.{◌≡◌, ℕ, ◌/◌, ◌<◌, ◌≤◌, List, get_or};
ghost use Rattle.patterns.specs.Patterns.{most_variables, most_conditions, last_operator};
ghost use Rattle.patterns.specs.Checked.{InOrder, condition_at};
ghost use Rattle.plans.specs.Plan.{plan_room, joins, standing, variable_mask, join_mask, on_class, failing_of};
ghost use Rattle.plans.specs.Plan.{settled_on_class, other_own, sample_of, type_places, class_mask, other_mask};
ghost use Rattle.plans.specs.Plan.{before_in, after_in, marks_in, joins_in, class_in, others_in, types_together};
ghost use Rattle.plans.specs.Plan.{IsWord, Placed, IsPlan, mask_number, both_sides};

use patterns::{CLASS, Condition, Pattern, WAVE, WITH_CONSTANT};
use std::marker::Model;

// ## The plan

// The kind of the conditions with one variable on both sides; below it each attribute is the kind of those that compare
// it with the constant. Kinds are numbers because attributes are.
pub const BOTH_SIDES: u8 = WAVE + 1;

// Where a condition's 64 bits tell which orders fail its operator: three of the bits that Rule 2.3 has as 0.
pub const FIRST_ORDER: usize = 43;

const ORDERS_WEIGHT: u64 = 1 << FIRST_ORDER;

// What stands where there is no condition: the operator =, which less and greater fail.
const NO_CONDITION: u64 = 5 * ORDERS_WEIGHT;

// How many event types one after the other share a place of the plan: all of them are of one class.
pub const TYPES_TOGETHER: usize = 16;

const TYPE_PLACES: usize = 256 / TYPES_TOGETHER;

// Where the masks stand: before, after and marks for each variable, then joins; those by class; the others by kind.
pub const FIRST_MASK: usize = patterns::MOST_CONDITIONS;

pub const FIRST_AFTER: usize = FIRST_MASK + patterns::MOST_VARIABLES;

pub const FIRST_MARKS: usize = FIRST_AFTER + patterns::MOST_VARIABLES;

pub const FIRST_JOINS: usize = FIRST_MARKS + patterns::MOST_VARIABLES;

pub const FIRST_CLASS: usize = FIRST_JOINS + patterns::MOST_VARIABLES;

pub const OTHERS: usize = FIRST_CLASS + TYPE_PLACES;

// How many numbers a plan has.
pub const PLAN_ROOM: usize = OTHERS + BOTH_SIDES as usize + 1;

// What a pass prepares once a call: contracts see its numbers.
#[derive(Clone, Copy, Debug, PartialEq, Eq)]
pub struct Plan {
    pub numbers: [u64; PLAN_ROOM],
}

impl Model for Plan {
    ghost Value = { List ℕ };

    ghost view = { λ p. p.numbers };

    ghost inverse = { λ l. record { numbers = l } };
}

impl Plan {
    // Condition i as its 64 bits.
    pub fn condition(&self, i: usize) -> u64
        requires { i < most_conditions }
        ensures { result ≡ get_or self.now i 0 }
    {
        self.numbers[i]
    }

    // What must be bound before v opens.
    pub fn before(&self, v: usize) -> u64
        requires { v < most_variables }
        ensures { result ≡ before_in self.now v }
    {
        self.numbers[FIRST_MASK + v]
    }

    // What must be unbound for v's loop.
    pub fn after(&self, v: usize) -> u64
        requires { v < most_variables }
        ensures { result ≡ after_in self.now v }
    {
        self.numbers[FIRST_AFTER + v]
    }

    // The step on v has the order mark where none of them is bound.
    pub fn marks(&self, v: usize) -> u64
        requires { v < most_variables }
        ensures { result ≡ marks_in self.now v }
    {
        self.numbers[FIRST_MARKS + v]
    }

    // The conditions that join v to another variable.
    pub fn joins(&self, v: usize) -> u64
        requires { v < most_variables }
        ensures { result ≡ joins_in self.now v }
    {
        self.numbers[FIRST_JOINS + v]
    }

    // The variables whose conditions on class hold of an event of a type.
    pub fn by_type(&self, event_type: u8) -> u64
        ensures { result ≡ class_in self.now (event_type / types_together) }
    {
        self.numbers[FIRST_CLASS + event_type as usize / TYPES_TOGETHER]
    }

    // The other conditions of a kind.
    pub fn others(&self, kind: u8) -> u64
        requires { kind ≤ both_sides }
        ensures { result ≡ others_in self.now kind }
    {
        self.numbers[OTHERS + kind as usize]
    }
}

// Which orders fail an operator, a bit for each.
#[tactic(auto, unfolding(crate::specs::Plan::failing_of))]
fn failing(operator: u8) -> u64
    requires { operator ≤ last_operator }
    ensures { result ≡ failing_of operator }
{
    numbers::mask(
        patterns::ORDERS,
        |o| !patterns::order_meets(operator as usize, o),
    )
}

// A condition as its 64 bits, which tell the orders that fail its operator too.
fn word_of(k: Condition) -> u64
    requires { (k.variable < 16) × (k.attribute < 8) × (k.operator ≤ last_operator) × (k.form < 2)
        × (k.variable2 < 16) × (k.attribute2 < 8) }
    ensures { IsWord k result }
{
    let first = (k.variable as u64 * 8 + k.attribute as u64) * 8 + k.operator as u64;
    let second = ((first * 2 + k.form as u64) * 16 + k.variable2 as u64) * 8 + k.attribute2 as u64;
    (second * 8 + failing(k.operator)) * ORDERS_WEIGHT + k.constant as u64
}

// Condition i as its 64 bits.
fn word_at(p: Pattern, i: usize) -> u64
    requires { InOrder p × (i < p.c) }
    ensures { IsWord (condition_at p i) result }
{
    word_of(p.condition(i))
}

// The masks of a variable, but for its joins.
#[derive(Clone, Copy, Debug, PartialEq, Eq)]
enum Mask {
    Before,
    After,
    Marks,
}

// Whether a variable stands in one of the masks of another.
#[tactic(auto, unfolding(crate::specs::Plan::standing))]
fn is_standing(which: Mask, own: u8, set: u8, same: bool, group: bool) -> bool
    ensures { result ≡ standing (mask_number which) own set same group }
{
    match which {
        Mask::Before => set < own,
        Mask::After => own < set || same && !group,
        Mask::Marks => own <= 1 || set == own,
    }
}

// A mask of v.
#[tactic(auto, unfolding(crate::specs::Plan::variable_mask))]
fn variable_mask(p: Pattern, which: Mask, v: usize) -> u64
    requires { (p.n ≤ most_variables) × (v < most_variables) }
    ensures { result ≡ variable_mask p (mask_number which) v }
{
    let own = p.sets[v];
    let group = p.groups[v];
    numbers::mask(p.n, |u| is_standing(which, own, p.sets[u], u == v, group))
}

// Whether a condition joins v to another variable.
#[tactic(auto, unfolding(crate::specs::Plan::joins))]
fn is_join(v: usize, form: u8, variable: u8, variable2: u8) -> bool
    ensures { result ≡ joins v form variable variable2 }
{
    form != WITH_CONSTANT && (variable as usize == v) != (variable2 as usize == v)
}

// The conditions that join v.
#[tactic(auto, unfolding(crate::specs::Plan::join_mask, patterns::specs::Checked::condition_at))]
fn join_mask(p: Pattern, v: usize) -> u64
    requires { p.c ≤ most_conditions }
    ensures { result ≡ join_mask p v }
{
    numbers::mask(
        p.c,
        |i| is_join(v, p.forms[i], p.variables[i], p.variables2[i]),
    )
}

// ## Conditions that look at one event alone

// Whether a condition compares the class of its variable's event with the constant.
#[tactic(auto, unfolding(crate::specs::Plan::on_class))]
fn is_on_class(form: u8, attribute: u8) -> bool
    ensures { result ≡ on_class form attribute }
{
    form == WITH_CONSTANT && attribute == CLASS
}

// The mask without the variable of condition i, if it is on class and fails of the events whose types share place b.
#[tactic(auto, unfolding(crate::specs::Plan::settled_on_class, patterns::specs::Checked::condition_at))]
fn settle_on_class(can: u64, p: Pattern, i: usize, b: usize) -> u64
    requires { InOrder p × (i < p.c) × (b < type_places) }
    ensures { result ≡ settled_on_class can (condition_at p i) (sample_of b) }
{
    if !is_on_class(p.forms[i], p.attributes[i]) {
        return can;
    }
    let x = patterns::raised_class((TYPES_TOGETHER * b) as u8);
    let y = patterns::raised_constant(CLASS, p.constants[i]);
    if patterns::compare(p.operators[i], x, y) {
        return can;
    }
    numbers::without_bit(can, p.variables[i] as usize)
}

// The variables whose conditions on class hold of the events whose types share place b.
fn class_mask(p: Pattern, b: usize) -> u64
    requires { InOrder p × (b < type_places) }
    ensures { result ≡ class_mask (condition_at p) p.n p.c b }
{
    let mut can = numbers::weight(p.n) - 1;
    for i in 0..p.c {
        can = settle_on_class(can, p, i, b);
    }
    can
}

// Whether a condition that looks at one event alone and is not settled by the event's class is of a kind.
#[tactic(auto, unfolding(crate::specs::Plan::other_own))]
fn is_other(kind: u8, form: u8, variable: u8, variable2: u8, attribute: u8) -> bool
    ensures { result ≡ other_own kind form variable variable2 attribute }
{
    if form == WITH_CONSTANT {
        attribute == kind && attribute != CLASS
    } else {
        kind == BOTH_SIDES && variable == variable2
    }
}

// The conditions of a kind.
#[tactic(auto, unfolding(crate::specs::Plan::other_mask, patterns::specs::Checked::condition_at))]
fn other_mask(p: Pattern, kind: u8) -> u64
    requires { p.c ≤ most_conditions }
    ensures { result ≡ other_mask (condition_at p) p.c kind }
{
    numbers::mask(p.c, |i| {
        is_other(
            kind,
            p.forms[i],
            p.variables[i],
            p.variables2[i],
            p.attributes[i],
        )
    })
}

// ## The plan, place by place

// What stands at a place of the plan.
fn place(p: Pattern, at: usize) -> u64
    requires { InOrder p × (at < plan_room) }
    ensures { Placed p at result }
{
    if at < FIRST_MASK {
        if at < p.c {
            word_at(p, at)
        } else {
            NO_CONDITION
        }
    } else if at < FIRST_AFTER {
        variable_mask(p, Mask::Before, at - FIRST_MASK)
    } else if at < FIRST_MARKS {
        variable_mask(p, Mask::After, at - FIRST_AFTER)
    } else if at < FIRST_JOINS {
        variable_mask(p, Mask::Marks, at - FIRST_MARKS)
    } else if at < FIRST_CLASS {
        join_mask(p, at - FIRST_JOINS)
    } else if at < OTHERS {
        class_mask(p, at - FIRST_CLASS)
    } else {
        other_mask(p, (at - OTHERS) as u8)
    }
}

// What a pass prepares once a call.
pub fn plan_of(p: Pattern) -> Plan
    requires { InOrder p }
    ensures { IsPlan p result }
{
    let mut plan = Plan {
        numbers: [0; PLAN_ROOM],
    };
    for (at, number) in plan.numbers.iter_mut().enumerate() {
        *number = place(p, at);
    }
    plan
}
