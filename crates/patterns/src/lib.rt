// What the bytes of a pattern mean, the check of a pattern, and when a condition holds.
#![tactic(auto)]

ghost use Rattle.std.specs.Prelude.{◌≡◌, ◌+◌, ◌*◌, ◌<◌, ◌≤◌, MatchResult, pos, length};
ghost use Rattle.records.specs.Records.{record_bytes, record_at, class_of};
ghost use Rattle.patterns.specs.Patterns.{header_bytes, most_variables, most_conditions, condition_bytes, header};
ghost use Rattle.patterns.specs.Patterns.{header_broken, variable_count, condition_count, set_number, group_flag};
ghost use Rattle.patterns.specs.Patterns.{members, least_set, greatest_set, variable_broken, condition_of};
ghost use Rattle.patterns.specs.Patterns.{condition_word, condition_broken, form_broken, last_operator};
ghost use Rattle.patterns.specs.Checked.{pattern_up_to, with_condition, blank, pattern_answer};
ghost use Rattle.patterns.specs.Checked.{checked_of, condition_at};
ghost use Rattle.patterns.specs.Checked.{first_bad_variable, first_bad_condition};
ghost use Rattle.patterns.specs.Comparison.{signed, value, constant_value, orders, order_of, meets, raise};

use records::Refusal;

const EDITION: u64 = 1;

pub const HEADER_BYTES: usize = 8;

pub const CONDITION_BYTES: usize = 8;

pub const MOST_VARIABLES: usize = 12;

pub const MOST_CONDITIONS: usize = 32;

const MOST_SETS: u8 = 8;

const MOST_IN_SET: usize = 6;

// The attributes by their numbers (Rule 3.1), which the bytes and the checked pattern hold and `value` goes by: an enum
// would be made of a number and turned back into it at each use.
pub const CORE: u8 = 0;

pub const TYPE: u8 = 1;

pub const CLASS: u8 = 2;

pub const SLOT: u8 = 3;

pub const AMOUNT: u8 = 4;

pub const WAVE: u8 = 5;

const LAST_ATTRIBUTE: u8 = WAVE;

const LAST_OPERATOR: u8 = 5;

// The operator = (Rule 3.2), and the form of a condition that compares with its constant (Rule 2.3), by their numbers.
pub const EQUAL: u8 = 0;

pub const WITH_CONSTANT: u8 = 0;

// Rule 2.4: a checked pattern: of each variable its set number and group flag, of each condition its fields, beside the
// counts n and c and the duration. Places that are not used are 0.
#[derive(Clone, Copy)]
pub struct Pattern {
    pub sets: [u8; MOST_VARIABLES],
    pub groups: [bool; MOST_VARIABLES],
    pub variables: [u8; MOST_CONDITIONS],
    pub attributes: [u8; MOST_CONDITIONS],
    pub operators: [u8; MOST_CONDITIONS],
    pub forms: [u8; MOST_CONDITIONS],
    pub variables2: [u8; MOST_CONDITIONS],
    pub attributes2: [u8; MOST_CONDITIONS],
    pub constants: [u32; MOST_CONDITIONS],
    pub n: usize,
    pub c: usize,
    pub duration: u64,
}

impl Pattern {
    // Condition i.
    #[tactic(auto, unfolding(crate::specs::Checked::condition_at))]
    pub fn condition(&self, i: usize) -> Condition
        requires { i < most_conditions }
        ensures { result ≡ condition_at self.now i }
    {
        Condition {
            variable: self.variables[i],
            attribute: self.attributes[i],
            operator: self.operators[i],
            form: self.forms[i],
            variable2: self.variables2[i],
            attribute2: self.attributes2[i],
            constant: self.constants[i],
        }
    }
}

// Rule 2.3: one condition.
#[derive(Clone, Copy)]
pub struct Condition {
    pub variable: u8,
    pub attribute: u8,
    pub operator: u8,
    pub form: u8,
    pub variable2: u8,
    pub attribute2: u8,
    pub constant: u32,
}

// Rule 2.4: the refusal's number and place with a blank pattern, or code 0 with the checked pattern; `read` gives the
// same as a `Result`.
#[derive(Clone, Copy)]
pub struct Checked {
    pub code: u8,
    pub place: u32,
    pub pattern: Pattern,
}

// The header as one number.
#[tactic(auto, unfolding(crate::specs::Patterns::header))]
fn header_word(pattern: &[u8]) -> u64
    requires { header_bytes ≤ length pattern.now }
    ensures { result ≡ header pattern.now }
{
    numbers::number8(pattern, 0)
}

fn count_variables(pattern: &[u8]) -> usize
    requires { header_bytes ≤ length pattern.now }
    ensures { result ≡ variable_count pattern.now }
{
    ((header_word(pattern) >> 56) % 16) as usize
}

fn count_conditions(pattern: &[u8]) -> usize
    requires { header_bytes ≤ length pattern.now }
    ensures { result ≡ condition_count pattern.now }
{
    ((header_word(pattern) >> 48) % 256) as usize
}

// Refusal 2.
#[tactic(auto, unfolding(crate::specs::Patterns::header_broken))]
fn is_header_broken(pattern: &[u8]) -> bool
    requires { header_bytes ≤ length pattern.now }
    ensures { result ≡ header_broken pattern.now }
{
    let head = header_word(pattern);
    let edition = (head >> 60) % 16;
    let n = count_variables(pattern);
    let c = count_conditions(pattern);
    let zero = (head >> 40) % 256;
    edition != EDITION || n < 1 || MOST_VARIABLES < n || MOST_CONDITIONS < c || zero != 0
}

// The set number of variable v.
#[tactic(auto, unfolding(crate::specs::Patterns::set_number))]
fn set_number(pattern: &[u8], v: usize) -> u8
    requires { header_bytes + v < length pattern.now }
    ensures { result ≡ set_number pattern.now v }
{
    (numbers::byte(pattern, HEADER_BYTES + v) >> 4) % 16
}

// Whether variable v is a group variable.
#[tactic(auto, unfolding(crate::specs::Patterns::group_flag))]
fn group_flag(pattern: &[u8], v: usize) -> bool
    requires { header_bytes + v < length pattern.now }
    ensures { result ≡ group_flag pattern.now v }
{
    (numbers::byte(pattern, HEADER_BYTES + v) >> 3) % 2 == 1
}

// How many of the first k variables are in the set.
fn members_of(pattern: &[u8], set: u8, k: usize) -> usize
    requires { header_bytes + k ≤ length pattern.now }
    ensures { result ≡ members pattern.now set k }
{
    numbers::count_that(k, |u| set_number(pattern, u) == set)
}

#[tactic(auto, unfolding(crate::specs::Patterns::least_set))]
fn least_set(pattern: &[u8], v: usize) -> u8
    requires { header_bytes + v < length pattern.now }
    ensures { result ≡ least_set pattern.now v }
{
    if v == 0 {
        1
    } else {
        set_number(pattern, v - 1)
    }
}

#[tactic(auto, unfolding(crate::specs::Patterns::greatest_set, crate::specs::Patterns::set_number))]
fn greatest_set(pattern: &[u8], v: usize) -> u8
    requires { header_bytes + v < length pattern.now }
    ensures { result ≡ greatest_set pattern.now v }
{
    if v == 0 {
        1
    } else {
        set_number(pattern, v - 1) + 1
    }
}

// Refusal 3.
#[tactic(auto, unfolding(crate::specs::Patterns::variable_broken, crate::specs::Patterns::variable_zero))]
fn is_variable_broken(pattern: &[u8], v: usize) -> bool
    requires { header_bytes + v < length pattern.now }
    ensures { result ≡ variable_broken pattern.now v }
{
    let set = set_number(pattern, v);
    set < least_set(pattern, v)
        || greatest_set(pattern, v) < set
        || MOST_SETS < set
        || MOST_IN_SET < members_of(pattern, set, v + 1)
        || numbers::byte(pattern, HEADER_BYTES + v) % 8 != 0
}

// Refusal 3, at the first variable against its rules.
#[tactic(auto, unfolding(crate::specs::Checked::first_bad_variable))]
fn check_variables(pattern: &[u8], n: usize) -> Result<(), Refusal>
    requires { (n ≡ variable_count pattern.now) × (header_bytes + n ≤ length pattern.now) }
    ensures { MatchResult result (λ _. n ≤ first_bad_variable pattern.now)
        (λ e. (first_bad_variable pattern.now < n) × (e ≡ Refusal.Variable (first_bad_variable pattern.now))) }
{
    let first = numbers::first_that(n, |v| is_variable_broken(pattern, v));
    if first < n {
        Err(Refusal::Variable(first as u32))
    } else {
        Ok(())
    }
}

// The fields of a condition's 64 bits: a function of its own name, which `firing` calls, and no `From<u64>`.
#[tactic(auto, unfolding(crate::specs::Patterns::condition_of))]
pub fn unpack_condition(word: u64) -> Condition
    ensures { result ≡ condition_of word }
{
    Condition {
        variable: ((word >> 60) % 16) as u8,
        attribute: ((word >> 57) % 8) as u8,
        operator: ((word >> 54) % 8) as u8,
        form: ((word >> 53) % 2) as u8,
        variable2: ((word >> 49) % 16) as u8,
        attribute2: ((word >> 46) % 8) as u8,
        constant: (word % 4294967296) as u32,
    }
}

#[tactic(auto, unfolding(crate::specs::Patterns::form_broken))]
fn is_form_broken(n: u8, k: Condition) -> bool
    ensures { result ≡ form_broken n k }
{
    if k.form == WITH_CONSTANT {
        k.variable2 != 0 || k.attribute2 != 0
    } else {
        k.constant != 0 || n <= k.variable2 || LAST_ATTRIBUTE < k.attribute2
    }
}

// Refusal 4.
#[tactic(auto, unfolding(crate::specs::Patterns::condition_broken, crate::specs::Patterns::condition_zero))]
fn is_condition_broken(n: u8, word: u64) -> bool
    ensures { result ≡ condition_broken n word }
{
    let k = unpack_condition(word);
    n <= k.variable
        || LAST_ATTRIBUTE < k.attribute
        || LAST_OPERATOR < k.operator
        || (word >> 32) % 16384 != 0
        || is_form_broken(n, k)
}

// The 64 bits of condition i, behind n variables.
#[tactic(auto, unfolding(crate::specs::Patterns::condition_word))]
fn condition_word(pattern: &[u8], n: usize, i: usize) -> u64
    requires { (n ≡ variable_count pattern.now)
        × (header_bytes + n + condition_bytes * (i + 1) ≤ length pattern.now) }
    ensures { result ≡ condition_word pattern.now i }
{
    numbers::number8(pattern, HEADER_BYTES + n + CONDITION_BYTES * i)
}

// Refusal 4, at the first condition that is broken.
#[tactic(auto, unfolding(crate::specs::Checked::first_bad_condition))]
fn check_conditions(pattern: &[u8], n: usize, c: usize) -> Result<(), Refusal>
    requires { (n ≡ variable_count pattern.now) × (c ≡ condition_count pattern.now)
        × (header_bytes + n + condition_bytes * c ≤ length pattern.now) }
    ensures { MatchResult result (λ _. c ≤ first_bad_condition pattern.now)
        (λ e. (first_bad_condition pattern.now < c) × (e ≡ Refusal.Condition (first_bad_condition pattern.now))) }
{
    let first = numbers::first_that(
        c,
        |i| is_condition_broken(n as u8, condition_word(pattern, n, i)),
    );
    if first < c {
        Err(Refusal::Condition(first as u32))
    } else {
        Ok(())
    }
}

#[tactic(auto, unfolding(crate::specs::Checked::blank))]
fn blank_pattern() -> Pattern
    ensures { result ≡ blank }
{
    Pattern {
        sets: [0; MOST_VARIABLES],
        groups: [false; MOST_VARIABLES],
        variables: [0; MOST_CONDITIONS],
        attributes: [0; MOST_CONDITIONS],
        operators: [0; MOST_CONDITIONS],
        forms: [0; MOST_CONDITIONS],
        variables2: [0; MOST_CONDITIONS],
        attributes2: [0; MOST_CONDITIONS],
        constants: [0; MOST_CONDITIONS],
        n: 0,
        c: 0,
        duration: 0,
    }
}

// The pattern with the counts and the duration, and no variable or condition yet.
fn with_counts(pattern: &[u8]) -> Pattern
    requires { header_bytes ≤ length pattern.now }
    ensures { result ≡ pattern_up_to pattern.now 0 0 }
{
    Pattern {
        n: count_variables(pattern),
        c: count_conditions(pattern),
        duration: header_word(pattern) % 1099511627776,
        ..blank_pattern()
    }
}

// The n variables into the pattern.
fn set_variables(pattern: &[u8], n: usize, p: &mut Pattern)
    requires { (n ≤ most_variables) × (header_bytes + n ≤ length pattern.now)
        × (p.old ≡ pattern_up_to pattern.now 0 0) }
    ensures { p.new ≡ pattern_up_to pattern.now n 0 }
{
    for v in 0..n {
        p.sets[v] = set_number(pattern, v);
        p.groups[v] = group_flag(pattern, v);
    }
}

// Condition i into the pattern.
fn set_condition(p: &mut Pattern, i: usize, k: Condition)
    requires { i < most_conditions }
    ensures { p.new ≡ with_condition p.old i k }
{
    p.variables[i] = k.variable;
    p.attributes[i] = k.attribute;
    p.operators[i] = k.operator;
    p.forms[i] = k.form;
    p.variables2[i] = k.variable2;
    p.attributes2[i] = k.attribute2;
    p.constants[i] = k.constant;
}

// The c conditions into the pattern, which has its variables.
fn set_conditions(pattern: &[u8], n: usize, c: usize, p: &mut Pattern)
    requires { (n ≡ variable_count pattern.now) × (c ≤ most_conditions)
        × (header_bytes + n + condition_bytes * c ≤ length pattern.now) × (p.old ≡ pattern_up_to pattern.now n 0) }
    ensures { p.new ≡ pattern_up_to pattern.now n c }
{
    for i in 0..c {
        set_condition(p, i, unpack_condition(condition_word(pattern, n, i)));
    }
}

// The checked pattern, or refusals 1 to 4.
pub fn read(pattern: &[u8]) -> Result<Pattern, Refusal>
    ensures { checked_of result ≡ pattern_answer pattern.now }
{
    if pattern.len() < HEADER_BYTES {
        return Err(Refusal::PatternLength);
    }
    if is_header_broken(pattern) {
        return Err(Refusal::Header);
    }
    let n = count_variables(pattern);
    let c = count_conditions(pattern);
    if pattern.len() != HEADER_BYTES + n + CONDITION_BYTES * c {
        return Err(Refusal::PatternLength);
    }
    check_variables(pattern, n)?;
    check_conditions(pattern, n, c)?;
    let mut p = with_counts(pattern);
    set_variables(pattern, n, &mut p);
    set_conditions(pattern, n, c, &mut p);
    Ok(p)
}

// Rule 2.4: what the check of a pattern answers.
impl From<Result<Pattern, Refusal>> for Checked {
    ghost use Rattle.std.specs.Prelude.{◌≡◌};
    ghost use Rattle.patterns.specs.Checked.{checked_of};

    ghost from_gives = { λ read checked. checked ≡ checked_of read };

    fn from(read: Result<Pattern, Refusal>) -> Checked {
        match read {
            Ok(pattern) => Checked {
                code: 0,
                place: 0,
                pattern,
            },
            Err(refusal) => Checked {
                code: refusal.code(),
                place: refusal.place(),
                pattern: blank_pattern(),
            },
        }
    }
}

// Refusals 1 to 4 with a blank pattern, or the checked pattern.
pub fn check_pattern(pattern: &[u8]) -> Checked
    ensures { result ≡ pattern_answer pattern.now }
{
    Checked::from(read(pattern))
}

// ## When a condition holds

// What a comparison may give: less, equal or greater.
pub const ORDERS: usize = 3;

// Which orders meet an operator: a row for each of = < <= > >= !=, in it less, equal, greater (Rule 3.2).
const OPERATORS: [[bool; ORDERS]; LAST_OPERATOR as usize + 1] = [
    [false, true, false],
    [true, false, false],
    [true, true, false],
    [false, false, true],
    [false, true, true],
    [true, false, true],
];

// Whole numbers are compared as naturals, each raised by 2^31.
const RAISE: u64 = 2147483648;

// 32 bits as two's complement, raised: the sum's lowest 32 bits.
fn raised_signed(word: u32) -> u64
    ensures { result ≡ raise (signed word) }
{
    (word as u64 + RAISE) % 4294967296
}

// The class of an event type, raised.
#[tactic(auto, unfolding(crate::specs::Comparison::raise))]
pub fn raised_class(event_type: u8) -> u64
    ensures { result ≡ raise (pos (class_of event_type)) }
{
    records::class(event_type) as u64 + RAISE
}

// An attribute of record i, raised: the one field that it comes from is fetched, and nothing else of the record.
#[tactic(auto, unfolding(crate::specs::Comparison::value, crate::specs::Comparison::raise))]
pub fn raised_value(attribute: u8, block: &[u8], i: usize) -> u64
    requires { record_bytes * i + record_bytes ≤ length block.now }
    ensures { result ≡ raise (value attribute (record_at block.now i)) }
{
    match attribute {
        CORE => records::core_at(block, i) as u64 + RAISE,
        TYPE => records::type_at(block, i) as u64 + RAISE,
        CLASS => raised_class(records::type_at(block, i)),
        SLOT => records::slot_at(block, i) as u64 + RAISE,
        AMOUNT => raised_signed(records::amount_at(block, i)),
        _ => records::wave_at(block, i) as u64 + RAISE,
    }
}

// A condition's constant, raised: it has a sign where the attribute is amount (Rule 3.1).
#[tactic(auto, unfolding(crate::specs::Comparison::constant_value, crate::specs::Comparison::raise))]
pub fn raised_constant(attribute: u8, constant: u32) -> u64
    ensures { result ≡ raise (constant_value attribute constant) }
{
    if attribute == AMOUNT {
        raised_signed(constant)
    } else {
        constant as u64 + RAISE
    }
}

// What a comparison gives: 0 less, 1 equal, 2 greater: a number, as `order_of` says, which `order_meets` looks up.
pub fn order(x: u64, y: u64) -> usize
    ensures { result ≡ order_of (pos x) (pos y) }
{
    numbers::one_if(y <= x) + numbers::one_if(y < x)
}

// Whether an order meets an operator.
pub fn order_meets(operator: usize, order: usize) -> bool
    requires { (operator ≤ last_operator) × (order < orders) }
    ensures { result ≡ meets operator order }
{
    OPERATORS[operator][order]
}

// Whether x stands to y as the operator says.
pub fn compare(operator: u8, x: u64, y: u64) -> bool
    requires { operator ≤ last_operator }
    ensures { result ≡ meets operator (order_of (pos x) (pos y)) }
{
    order_meets(operator as usize, order(x, y))
}
