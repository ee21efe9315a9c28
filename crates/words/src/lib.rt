// The words of a text: attributes, operators, numbers, and an attribute of a named variable.
#![tactic(auto)]

ghost use Rattle.std.specs.Prelude.{◌≡◌, ◌+◌, ◌*◌, ◌<◌, ◌≤◌, min, map};
ghost use Rattle.form.specs.Form.{attribute_words, operator_words};
ghost use Rattle.words.specs.Words.{RowOf, large, NaturalOf, ConstantOf, SideOf, BelowZero, PlaceRead};

use patterns::AMOUNT;

pub const FIRST_LETTER: u8 = b'a';

pub const LETTERS: usize = 26;

// From here on a number is too large for every field of a pattern.
pub const LARGE: u64 = 1099511627776;

// The place of a name, counted from 1, and an attribute.
#[derive(Clone, Copy, Debug, PartialEq, Eq)]
pub struct Sided {
    pub place: u8,
    pub attribute: u8,
}

// The words of the attributes and of the operators, by their numbers.
const ATTRIBUTES: [&[u8]; 6] = [b"core", b"type", b"class", b"slot", b"amount", b"wave"];

const OPERATORS: [&[u8]; 6] = [b"=", b"<", b"<=", b">", b">=", b"!="];

// The row of a table that a word is, if it is one. Both tables have six; `wording` has its own, with the operators
// between spaces, since reader and writer stand apart.
fn row_of(rows: &[&[u8]; 6], word: &[u8]) -> Option<u8>
    ensures { RowOf (map (λ row. row.now) rows.now) word.now result }
{
    for (i, row) in rows.iter().enumerate() {
        if word == *row {
            return Some(i as u8);
        }
    }
    None
}

// The attribute that a word names, if it names one.
pub fn attribute_of(word: &[u8]) -> Option<u8>
    ensures { RowOf attribute_words word.now result }
{
    row_of(&ATTRIBUTES, word)
}

// The operator that a word is, if it is one.
pub fn operator_of(word: &[u8]) -> Option<u8>
    ensures { RowOf operator_words word.now result }
{
    row_of(&OPERATORS, word)
}

// A number with one digit more; from LARGE on it stays LARGE.
fn with_digit(value: u64, digit: u8) -> u64
    requires { (value ≤ large) × (digit < 10) }
    ensures { result ≡ min (10 * value + digit) large }
{
    (10 * value + u64::from(digit)).min(LARGE)
}

// The number that a word is, if it is one: decimal digits, with no 0 in front of others. LARGE stands for larger ones
// too.
pub fn natural(word: &[u8]) -> Option<u64>
    ensures { NaturalOf word.now result }
{
    if let [] | [b'0', _, ..] = word {
        return None;
    }
    let mut value = 0;
    for &glyph in word {
        match glyph {
            b'0'..=b'9' => value = with_digit(value, glyph - b'0'),
            _ => return None,
        }
    }
    Some(value)
}

// A constant behind a minus, which stands beside amount alone: from 1 to 2^31.
fn below_zero(attribute: u8, digits: &[u8]) -> Option<u32>
    ensures { BelowZero attribute digits.now result }
{
    if attribute != AMOUNT {
        return None;
    }
    match natural(digits)? {
        value @ 1..=2147483648 => Some((4294967296 - value) as u32),
        _ => None,
    }
}

// The 32 bits of the constant beside an attribute that a word is, if it is one.
pub fn constant(attribute: u8, word: &[u8]) -> Option<u32>
    ensures { ConstantOf attribute word.now result }
{
    if let [b'-', digits @ ..] = word {
        return below_zero(attribute, digits);
    }
    let value = natural(word)?;
    let most = if attribute == AMOUNT {
        2147483647
    } else {
        4294967295
    };
    if most < value {
        return None;
    }
    Some(value as u32)
}

// The place of a name in a table of places by letters, if it has one.
pub fn place_of(places: &[u8; LETTERS], name: u8) -> Option<u8>
    ensures { PlaceRead places.now name result }
{
    match name {
        b'a'..=b'z' => match places[(name - FIRST_LETTER) as usize] {
            0 => None,
            place => Some(place),
        },
        _ => None,
    }
}

// Name and attribute, with a dot between, if a word is that.
pub fn side(places: &[u8; LETTERS], word: &[u8]) -> Option<Sided>
    ensures { SideOf places.now word.now result }
{
    match word {
        [name, b'.', attribute @ ..] => Some(Sided {
            place: place_of(places, *name)?,
            attribute: attribute_of(attribute)?,
        }),
        _ => None,
    }
}
