// The text of a checked pattern, put into memory that has room for the longest one.
#![tactic(auto)]

ghost use Rattle.std.specs.Prelude.{◌≡◌, ◌+◌, ◌^◌, ◌≤◌, ◌<◌, length};
ghost use mathlib.Core.List.{map, flat_map};
ghost use Rattle.numbers.specs.Numbers.{upto};
ghost use Rattle.numbers.specs.Put.{Put};
ghost use Rattle.patterns.specs.Patterns.{most_variables, last_attribute, last_operator};
ghost use Rattle.patterns.specs.Checked.{InOrder, condition_at};
ghost use Rattle.patterns.specs.Comparison.{constant_value};
ghost use Rattle.form.specs.Form.{attribute_word, integer, operand_word, set_line, when_line, within_line, text_of};
ghost use Rattle.form.specs.Promises.{most_text};
ghost use Rattle.wording.specs.Wording.{begins_set, sets_up_to, when_of, making_of};
ghost use Rattle.wording.specs.Parts.{member_text, set_text, variable_text, side_text, operator_text};

use patterns::{AMOUNT, Pattern, WITH_CONSTANT};

// The longest text of a pattern.
pub const MOST_TEXT: usize = 1017;

const FIRST_LETTER: u8 = b'a';

// The words of the attributes, and those of the operators between two spaces, by their numbers.
const ATTRIBUTES: [&[u8]; 6] = [b"core", b"type", b"class", b"slot", b"amount", b"wave"];

const OPERATORS: [&[u8]; 6] = [b" = ", b" < ", b" <= ", b" > ", b" >= ", b" != "];

// Variable v of a set line, behind a space.
fn put_member(p: Pattern, v: usize, text: &mut [u8], at: usize) -> usize
    requires { (p.n ≤ most_variables) × (v < p.n) × (at + 3 ≤ length text.old) }
    ensures { Put text.old text.new at (member_text p v) result }
{
    text[at] = b' ';
    text[at + 1] = FIRST_LETTER + v as u8;
    if p.groups[v] {
        text[at + 2] = b'+';
        return at + 3;
    }
    at + 2
}

// Whether variable v is the first of its set.
fn begins_set(p: Pattern, v: usize) -> bool
    requires { (p.n ≤ most_variables) × (v < p.n) }
    ensures { result ≡ begins_set p v }
{
    v == 0 || p.sets[v] != p.sets[v - 1]
}

// The beginning of a set line, behind the line before it.
fn put_set(v: usize, text: &mut [u8], at: usize) -> usize
    requires { at + 4 ≤ length text.old }
    ensures { Put text.old text.new at (set_text v) result × (result ≤ at + 4) }
{
    if v == 0 {
        numbers::put_word(text, at, b"set")
    } else {
        numbers::put_word(text, at, b"\nset")
    }
}

// Variable v, in a new line where it begins a set.
fn put_variable(p: Pattern, v: usize, text: &mut [u8], at: usize) -> usize
    requires { (p.n ≤ most_variables) × (v < p.n) × (at + 7 ≤ length text.old) }
    ensures { Put text.old text.new at (variable_text p v) result }
{
    if begins_set(p, v) {
        let middle = put_set(v, text, at);
        put_member(p, v, text, middle)
    } else {
        put_member(p, v, text, at)
    }
}

// The set lines.
fn put_sets(p: Pattern, text: &mut [u8]) -> usize
    requires { InOrder p × (most_text ≤ length text.old) }
    ensures { Put text.old text.new 0 (flat_map set_line (sets_up_to p p.n)) result × (result ≤ 68) }
{
    let mut end = 0;
    for v in 0..p.n {
        end = put_variable(p, v, text, end);
    }
    text[end] = b'\n';
    end + 1
}

// The word of an attribute.
fn put_attribute(attribute: u8, text: &mut [u8], at: usize) -> usize
    requires { (attribute ≤ last_attribute) × (at + 6 ≤ length text.old) }
    ensures { Put text.old text.new at (attribute_word attribute) result × (result ≤ at + 6) }
{
    numbers::put_word(text, at, ATTRIBUTES[attribute as usize])
}

// An operator, between two spaces.
fn put_operator(operator: u8, text: &mut [u8], at: usize) -> usize
    requires { (operator ≤ last_operator) × (at + 4 ≤ length text.old) }
    ensures { Put text.old text.new at (operator_text operator) result × (result ≤ at + 4) }
{
    numbers::put_word(text, at, OPERATORS[operator as usize])
}

// An attribute of a variable.
fn put_side(variable: u8, attribute: u8, text: &mut [u8], at: usize) -> usize
    requires { (variable < most_variables) × (attribute ≤ last_attribute) × (at + 8 ≤ length text.old) }
    ensures { Put text.old text.new at (side_text variable attribute) result
        × (result ≤ at + 8) }
{
    text[at] = FIRST_LETTER + variable;
    text[at + 1] = b'.';
    put_attribute(attribute, text, at + 2)
}

// A constant: behind a minus where it has a sign and is below 0.
fn put_constant(attribute: u8, constant: u32, text: &mut [u8], at: usize) -> usize
    requires { at + 11 ≤ length text.old }
    ensures { Put text.old text.new at (integer (constant_value attribute constant)) result
        × (result ≤ at + 11) }
{
    if attribute != AMOUNT || constant < 2147483648 {
        return numbers::put_number(text, at, constant as u64, 10);
    }
    text[at] = b'-';
    numbers::put_number(text, at + 1, 4294967296 - constant as u64, 10)
}

// Condition i, as a line.
fn put_when(p: Pattern, i: usize, text: &mut [u8], at: usize) -> usize
    requires { InOrder p × (i < p.c) × (at + 29 ≤ length text.old) }
    ensures { Put text.old text.new at (when_line (when_of (condition_at p i))) result
        × (result ≤ at + 29) }
{
    let word = numbers::put_word(text, at, b"when ");
    let left = put_side(p.variables[i], p.attributes[i], text, word);
    let operator = put_operator(p.operators[i], text, left);
    let end = put_operand(p, i, text, operator);
    text[end] = b'\n';
    end + 1
}

// What stands behind the operator of condition i.
fn put_operand(p: Pattern, i: usize, text: &mut [u8], at: usize) -> usize
    requires { InOrder p × (i < p.c) × (at + 11 ≤ length text.old) }
    ensures { Put text.old text.new at (operand_word (when_of (condition_at p i)).right) result
        × (result ≤ at + 11) }
{
    if p.forms[i] == WITH_CONSTANT {
        put_constant(p.attributes[i], p.constants[i], text, at)
    } else {
        put_side(p.variables2[i], p.attributes2[i], text, at)
    }
}

// The when lines.
fn put_whens(p: Pattern, text: &mut [u8], at: usize) -> usize
    requires { InOrder p × (at ≤ 68) × (most_text ≤ length text.old) }
    ensures { Put text.old text.new at
        (flat_map when_line (map (λ i. when_of (condition_at p i)) (upto 0 p.c))) result × (result ≤ 996) }
{
    let mut end = at;
    for i in 0..p.c {
        end = put_when(p, i, text, end);
    }
    end
}

// The last line.
fn put_within(duration: u64, text: &mut [u8], at: usize) -> usize
    requires { (duration < 2 ^ 40) × (at + 21 ≤ length text.old) }
    ensures { Put text.old text.new at (within_line duration) result × (result ≤ at + 21) }
{
    let word = numbers::put_word(text, at, b"within ");
    let end = numbers::put_number(text, word, duration, 13);
    text[end] = b'\n';
    end + 1
}

// The whole text, from the beginning of the memory on.
pub fn put_pattern(p: Pattern, text: &mut [u8]) -> usize
    requires { InOrder p × (p.duration < 2 ^ 40) × (most_text ≤ length text.old) }
    ensures { Put text.old text.new 0 (text_of (making_of p)) result × (result ≤ most_text) }
{
    let sets = put_sets(p, text);
    let whens = put_whens(p, text, sets);
    put_within(p.duration, text, whens)
}
