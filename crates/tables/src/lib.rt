// Rows of a table of text, for the test programs: their words, numbers and hex digits, and an answer as text. How every
// program reads standard input.
#![tactic(auto)]

ghost use Rattle.std.specs.Prelude.{◌<◌, ◌≤◌, IfOk, IfSome, Some, length, take};
ghost use Rattle.std.specs.Fn.{CalledAt};
ghost use Rattle.std.specs.Io.KnownBytes.{Consumes, IsAtEnd};
ghost use Rattle.tables.specs.Rows.{large, FirstFrom, Behind, EachRow, space};
ghost use Rattle.tables.specs.Answers.{answer_numbers};

use records::Answer;
use std::io::Read;
use std::{fmt, io};

// Room for the bytes that a row's hex digits make.
pub const ROOM: usize = 4096;

// More than any number of a table.
const LARGE: usize = 100000;

// Reads until the room is full or the input ends, and answers how many bytes there are. A step is as long as what a
// read gave.
pub fn read_full<R: Read>(input: &mut R, room: &mut [u8]) -> io::Result<usize>
    ensures within { IfOk result (λ n. n ≤ length room.new) }
    ensures bytes { IfOk result (λ n. Consumes (R.remaining input.old) (R.remaining input.new) (take n room.new)) }
    ensures end { IfOk result (λ n. n < length room.new → IsAtEnd (R.remaining input.new)) }
{
    let mut done = 0;
    while done < room.len() {
        let n = input.read(&mut room[done..])?;
        if n == 0 {
            return Ok(done);
        }
        done += n;
    }
    Ok(done)
}

// Calls `row` with each row of a table, in order, until one fails. A line feed ends a row, and so does the end of
// the table, unless it stands right behind a line feed.
pub fn rows<F: FnMut(&[u8]) -> io::Result<()>>(table: &[u8], mut row: F) -> io::Result<()>
    requires { F.IsAlwaysCallable row }
    ensures { EachRow (λ f line r g. CalledAt F.FnMut f line r g) row table.now result }
{
    let mut rest = table;

    // no `for`: `split` of std gives a row more behind a line feed that ends the table
    while !rest.is_empty() {
        let end = first_from(rest, b'\n', 0);
        row(&rest[..end])?;
        rest = &rest[(end + 1).min(rest.len())..];
    }
    Ok(())
}

// The first place from `at` on that has the byte; the end where there is none, as `FirstFrom` says.
pub fn first_from(text: &[u8], byte: u8, at: usize) -> usize
    requires { at ≤ length text.now }
    ensures { FirstFrom text.now byte at result }
{
    for i in at..text.len() {
        if text[i] == byte {
            return i;
        }
    }
    text.len()
}

// Where the next word begins, or the row's end.
pub fn next_word(row: &[u8], at: usize) -> usize
    requires { at ≤ length row.now }
    ensures { Behind row.now space at result × (at ≤ result) × (result ≤ length row.now) }
{
    (first_from(row, b' ', at) + 1).min(row.len())
}

// The decimal number at a place.
pub fn number(row: &[u8], at: usize) -> usize
    ensures { result < large }
{
    let mut value = 0;
    for glyph in &row[at.min(row.len())..] {
        let Some(d) = char::from(*glyph).to_digit(10) else {
            break;
        };
        value = (10 * value + d as usize) % LARGE;
    }
    value
}

// The value of a hex digit.
fn digit(glyph: u8) -> Option<u8>
    ensures { IfSome result (λ d. d < 16) }
{
    match glyph {
        b'0'..=b'9' => Some(glyph - b'0'),
        b'a'..=b'f' => Some(glyph - b'a' + 10),
        _ => None,
    }
}

// Puts the bytes that the hex digits of a text make into bytes, which are 0, and answers how many there are.
pub fn hex_bytes(text: &[u8], bytes: &mut [u8]) -> usize
    ensures { result ≤ length bytes.new }
{
    let mut digits = 0;
    for glyph in text {
        if let Some(d) = digit(*glyph)
            && digits / 2 < bytes.len()
        {
            let byte = &mut bytes[digits / 2];
            *byte = *byte % 16 * 16 + d;
            digits += 1;
        }
    }
    digits / 2
}

// An answer as its numbers: code, place, used, readings, peak.
#[derive(Clone, Copy)]
pub struct Numbers(pub Answer);

impl fmt::Display for Numbers {
    ghost output = { λ n. Some (answer_numbers n.0) };

    fn fmt<W: fmt::Write>(&self, f: &mut fmt::Formatter<W>) -> fmt::Result {
        let Answer {
            code,
            place,
            used,
            readings,
            peak,
        } = self.0;
        write!(f, "{code} {place} {used} {readings} {peak}")
    }
}
