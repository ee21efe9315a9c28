// A text read line by line: a draft holds what the lines so far have told.
#![tactic(auto)]

ghost use Rattle.std.specs.Prelude.{◌≡◌, List, [], ◌∷◌, ◌++◌, ◌+◌, ◌*◌, ◌-◌};
ghost use Rattle.std.specs.Prelude.{◌^◌, ◌≤◌, ◌↔◌, IsTrue, IfSome, MatchOption};
ghost use Rattle.patterns.specs.Patterns.{last_operator};
ghost use Rattle.form.specs.Form.{IsLetter, space, set_word, when_word, within_word};
ghost use Rattle.form.specs.Items.{Item, start, in_sets, Valid};
ghost use Rattle.drafts.specs.Drafts.{phase_of, Small, DraftOf, LineRead};
ghost use Rattle.drafts.specs.Steps.{WordEnd, PieceOf, with_member, NamedTest, Places, SideRead};
ghost use Rattle.drafts.specs.Steps.{OperandOf, ComparisonOf, ConditionOf};
ghost use Rattle.drafts.specs.Steps.{IsNew, with_variable, with_set, with_condition};

use patterns::{MOST_CONDITIONS, MOST_VARIABLES};
use words::LETTERS;

// Counts stop one above what a pattern may have.
const MANY_VARIABLES: u8 = MOST_VARIABLES as u8 + 1;

const MANY_CONDITIONS: u8 = MOST_CONDITIONS as u8 + 1;

// How far a text is: no line, set lines, when lines, the within line.
#[derive(Clone, Copy, Debug, PartialEq, Eq)]
pub enum Phase {
    Empty,
    Sets,
    Whens,
    Finished,
}

// Of each letter its place among the names, counted from 1, or 0; the bytes of the variables and the 64 bits of the
// conditions as far as a pattern has room for them; counts of names, set lines and when lines; how far the text is;
// the duration.
#[derive(Clone, Copy)]
pub struct Draft {
    pub places: [u8; LETTERS],
    pub variables: [u8; MOST_VARIABLES],
    pub conditions: [u64; MOST_CONDITIONS],
    pub n: u8,
    pub set: u8,
    pub c: u8,
    pub phase: Phase,
    pub duration: u64,
}

// Nothing read yet.
pub fn blank() -> Draft
    ensures { Small result × DraftOf [] result }
{
    Draft {
        places: [0; LETTERS],
        variables: [0; MOST_VARIABLES],
        conditions: [0; MOST_CONDITIONS],
        n: 0,
        set: 0,
        c: 0,
        phase: Phase::Empty,
        duration: 0,
    }
}

// A name and its group flag behind one space, and how many bytes they are.
#[derive(Clone, Copy)]
struct Piece {
    size: usize,
    name: u8,
    group: bool,
}

// The name in front of what is left of a set line.
fn first_member(line: &[u8]) -> Option<Piece>
    ensures { PieceOf line.now result }
{
    match line {
        [b' ', name @ b'a'..=b'z', b'+', ..] => Some(Piece {
            size: 3,
            name: *name,
            group: true,
        }),
        [b' ', name @ b'a'..=b'z', ..] => Some(Piece {
            size: 2,
            name: *name,
            group: false,
        }),
        _ => None,
    }
}

// The byte of the next variable, where a pattern has room for it.
fn with_variable(d: &mut Draft, group: bool)
    requires { Small d.old }
    ensures { d.new ≡ with_variable d.old group }
{
    let at = d.n as usize;
    if at < MOST_VARIABLES {
        d.variables[at] = d.set * 16 + u8::from(group) * 8;
    }
}

// One name more in the last set line, unless it has a place already.
fn with_member(d: &mut Draft, name: u8, group: bool) -> Option<()>
    requires { Small d.old × IsLetter name }
    ensures { MatchOption result (¬ IsNew d.old name)
        (λ _. IsNew d.old name × (d.new ≡ with_member d.old name group)) }
{
    let at = (name - words::FIRST_LETTER) as usize;
    if d.places[at] != 0 {
        return None;
    }
    with_variable(d, group);
    d.n = (d.n + 1).min(MANY_VARIABLES);
    d.places[at] = d.n;
    Some(())
}

// One set line more, with no name yet.
fn with_set(d: &mut Draft)
    requires { Small d.old }
    ensures { d.new ≡ with_set d.old }
{
    d.phase = Phase::Sets;
    d.set = (d.set + 1).min(MANY_VARIABLES);
}

// Whether set lines may follow.
fn is_open(phase: Phase) -> bool
    ensures { IsTrue result ↔ phase_of phase ≤ in_sets }
{
    matches!(phase, Phase::Empty | Phase::Sets)
}

// A set line: its names, from behind the first word on. A step is as long as a name with its flag.
fn read_set(line: &[u8], mut d: Draft) -> Option<Draft>
    requires { Small d }
    ensures small { IfSome result Small }
    ensures line { (l : List Item) → Valid start l → DraftOf l d → LineRead l (set_word ++ line.now) result }
{
    if !is_open(d.phase) || line.is_empty() {
        return None;
    }
    with_set(&mut d);
    let mut at = 0;
    while at < line.len() {
        let piece = first_member(&line[at..])?;
        with_member(&mut d, piece.name, piece.group)?;
        at += piece.size;
    }
    Some(d)
}

// The place of the first space.
fn word_end(line: &[u8]) -> Option<usize>
    ensures { WordEnd line.now result }
{
    line.iter().position(|&glyph| glyph == b' ')
}

// Whether when lines and the within line may follow.
fn is_named(phase: Phase) -> bool
    ensures { NamedTest phase result }
{
    matches!(phase, Phase::Sets | Phase::Whens)
}

// One condition more, where a pattern has room for it.
fn with_condition(d: &mut Draft, word: u64)
    requires { Small d.old }
    ensures { d.new ≡ with_condition d.old word }
{
    let at = d.c as usize;
    if at < MOST_CONDITIONS {
        d.conditions[at] = word;
    }
    d.phase = Phase::Whens;
    d.c = (d.c + 1).min(MANY_CONDITIONS);
}

// The 64 bits of a condition with a constant.
fn constant_bits(left: words::Sided, operator: u8, constant: u32) -> u64
    requires { SideRead left × (operator ≤ last_operator) }
    ensures { result ≡ (left.place - 1) * 2 ^ 60 + left.attribute * 2 ^ 57 + operator * 2 ^ 54 + constant }
{
    (left.place - 1) as u64 * 1152921504606846976
        + left.attribute as u64 * 144115188075855872
        + operator as u64 * 18014398509481984
        + constant as u64
}

// The 64 bits of a condition between two attributes.
fn join_bits(left: words::Sided, operator: u8, right: words::Sided) -> u64
    requires { SideRead left × (operator ≤ last_operator) × SideRead right }
    ensures { result ≡ (left.place - 1) * 2 ^ 60 + left.attribute * 2 ^ 57 + operator * 2 ^ 54
        + (2 ^ 53 + (right.place - 1) * 2 ^ 49 + right.attribute * 2 ^ 46) }
{
    (left.place - 1) as u64 * 1152921504606846976
        + left.attribute as u64 * 144115188075855872
        + operator as u64 * 18014398509481984
        + 9007199254740992
        + (right.place - 1) as u64 * 562949953421312
        + right.attribute as u64 * 70368744177664
}

// The 64 bits of a condition by its last word.
fn operand(places: &[u8; LETTERS], left: words::Sided, operator: u8, word: &[u8]) -> Option<u64>
    requires { Places places.now × SideRead left × (operator ≤ last_operator) }
    ensures { OperandOf places.now left operator word.now result }
{
    match words::side(places, word) {
        Some(right) => Some(join_bits(left, operator, right)),
        None => Some(constant_bits(left, operator, words::constant(left.attribute, word)?)),
    }
}

// The 64 bits of a condition, from behind its first word and the space after it on.
fn comparison(places: &[u8; LETTERS], left: words::Sided, line: &[u8]) -> Option<u64>
    requires { Places places.now × SideRead left }
    ensures { ComparisonOf places.now left line.now result }
{
    let end = word_end(line)?;
    let operator = words::operator_of(&line[..end])?;
    operand(places, left, operator, &line[end + 1..])
}

// The 64 bits of a condition by its three words.
fn condition(places: &[u8; LETTERS], line: &[u8]) -> Option<u64>
    requires { Places places.now }
    ensures { ConditionOf places.now line.now result }
{
    let end = word_end(line)?;
    let left = words::side(places, &line[..end])?;
    comparison(places, left, &line[end + 1..])
}

// A condition, from behind the line's first word and its space on.
fn read_when(line: &[u8], mut d: Draft) -> Option<Draft>
    requires { Small d }
    ensures small { IfSome result Small }
    ensures line { (l : List Item) → Valid start l → DraftOf l d
        → LineRead l (when_word ++ (space ∷ line.now)) result }
{
    if !is_named(d.phase) {
        return None;
    }
    let word = condition(&d.places, line)?;
    with_condition(&mut d, word);
    Some(d)
}

// The duration, from behind the first word and its space on.
fn read_within(line: &[u8], mut d: Draft) -> Option<Draft>
    requires { Small d }
    ensures small { IfSome result Small }
    ensures line { (l : List Item) → Valid start l → DraftOf l d
        → LineRead l (within_word ++ (space ∷ line.now)) result }
{
    if !is_named(d.phase) {
        return None;
    }
    d.duration = words::natural(line)?;
    d.phase = Phase::Finished;
    Some(d)
}

// One line more, its line feed not among its bytes; no draft where the line is bad.
pub fn read_line(line: &[u8], d: Draft) -> Option<Draft>
    requires { Small d }
    ensures small { IfSome result Small }
    ensures line { (l : List Item) → Valid start l → DraftOf l d → LineRead l line.now result }
{
    if let Some(rest) = line.strip_prefix(b"set") {
        return read_set(rest, d);
    }
    if let Some(rest) = line.strip_prefix(b"when ") {
        return read_when(rest, d);
    }
    let rest = line.strip_prefix(b"within ")?;
    read_within(rest, d)
}
