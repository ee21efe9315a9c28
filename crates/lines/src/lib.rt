// The text of an answer and of the result beside it.
#![tactic(auto)]

ghost use Rattle.std.specs.Prelude.{◌≡◌, ◌+◌, ◌*◌, ◌^◌, ◌≤◌, ◌<◌, length, take};
ghost use Rattle.lines.specs.Text.{after, binding_text, reading_text, line_text, report_text};
ghost use Rattle.lines.specs.Text.{ok_text, refused_text, answer_text, number_room, last_room, text_room};
ghost use Rattle.lines.specs.Results.{count_at, binding_of, bindings_at, line_at, behind, place_of, lines_in};
ghost use Rattle.numbers.specs.Put.{Put};

use records::Answer;

// A binding and a line's head are numbers of 16 bits: 4 for the variable or the mark, then 12.
const LOW_NUMBERS: u16 = 4096;

// The count of a line's bindings is the head's last 6 bits.
const COUNT_NUMBERS: u16 = 64;

// The most text of a number of a result, and of the last line.
pub const NUMBER_ROOM: usize = 8;

pub const LAST_ROOM: usize = 70;

// The digits of a variable or a mark, of a record, and of any number.
const HIGH_DIGITS: usize = 2;

const LOW_DIGITS: usize = 4;

const MOST_DIGITS: usize = 20;

// A number after a sign.
fn put_after(text: &mut [u8], at: usize, sign: u8, n: u64, places: usize) -> usize
    requires { (1 ≤ places) × (n < 10 ^ places) × (at + 1 + places ≤ length text.old) }
    ensures { Put text.old text.new at (after sign n) result × (result ≤ at + 1 + places) }
{
    text[at] = sign;
    numbers::put_number(text, at + 1, n, places)
}

// variable@record, after a space.
fn put_binding(text: &mut [u8], at: usize, binding: u16) -> usize
    requires { at + number_room ≤ length text.old }
    ensures { Put text.old text.new at (binding_text (binding_of binding)) result
        × (result ≤ at + number_room) }
{
    let middle = put_after(text, at, b' ', (binding / LOW_NUMBERS) as u64, HIGH_DIGITS);
    put_after(
        text,
        middle,
        b'@',
        (binding % LOW_NUMBERS) as u64,
        LOW_DIGITS,
    )
}

// The bindings from a number of the result on.
fn put_bindings(res: &[u8], first: usize, count: usize, text: &mut [u8], at: usize) -> usize
    requires { (2 * (first + count) ≤ length res.now) × (at + number_room * count ≤ length text.old) }
    ensures { Put text.old text.new at
        (reading_text (bindings_at res.now first count)) result × (result ≤ at + number_room * count) }
{
    let mut end = at;
    for i in 0..count {
        let binding = numbers::number2(res, 2 * (first + i));
        end = put_binding(text, end, binding);
    }
    end
}

// The line whose head is the number at a place of the result.
fn put_line(res: &[u8], at: usize, text: &mut [u8], from: usize) -> usize
    requires { (2 * behind res.now at ≤ length res.now)
        × (from + number_room * (1 + count_at res.now at) ≤ length text.old) }
    ensures { Put text.old text.new from (line_text (line_at res.now at)) result
        × (result ≤ from + number_room * (1 + count_at res.now at)) }
{
    let head = numbers::number2(res, 2 * at);
    let count = (head % COUNT_NUMBERS) as usize;
    let middle = numbers::put_number(text, from, (head / LOW_NUMBERS) as u64, HIGH_DIGITS);
    let end = put_bindings(res, at + 1, count, text, middle);
    text[end] = b'\n';
    end + 1
}

// Where the line behind a line stands.
fn next_line(res: &[u8], at: usize) -> usize
    requires { 2 * at + 2 ≤ length res.now }
    ensures { result ≡ behind res.now at }
{
    at + 1 + (numbers::number2(res, 2 * at) % COUNT_NUMBERS) as usize
}

// The first lines of the result, so many.
fn put_lines(res: &[u8], count: usize, text: &mut [u8]) -> usize
    requires { (2 * place_of res.now count ≤ length res.now)
        × (number_room * place_of res.now count ≤ length text.old) }
    ensures { Put text.old text.new 0 (report_text (lines_in res.now count)) result
        × (result ≤ number_room * place_of res.now count) }
{
    let mut end = 0;
    let mut at = 0;
    for _ in 0..count {
        end = put_line(res, at, text, end);
        at = next_line(res, at);
    }
    end
}

// The last line of a report.
fn put_ok(text: &mut [u8], at: usize, answer: Answer) -> usize
    requires { at + last_room ≤ length text.old }
    ensures { Put text.old text.new at (ok_text answer) result × (result ≤ at + last_room) }
{
    let word = numbers::put_word(text, at, b"ok");
    let readings = put_after(text, word, b' ', answer.readings, MOST_DIGITS);
    let used = put_after(text, readings, b' ', answer.used, MOST_DIGITS);
    let peak = put_after(text, used, b' ', answer.peak as u64, MOST_DIGITS);
    text[peak] = b'\n';
    peak + 1
}

// The one line of a refusal.
fn put_refused(text: &mut [u8], answer: Answer) -> usize
    requires { last_room ≤ length text.old }
    ensures { Put text.old text.new 0 (refused_text answer) result × (result ≤ last_room) }
{
    let word = numbers::put_word(text, 0, b"refused");
    let code = put_after(text, word, b' ', answer.code as u64, MOST_DIGITS);
    let place = put_after(text, code, b' ', answer.place as u64, MOST_DIGITS);
    text[place] = b'\n';
    place + 1
}

// All that is written of an answer and of the result beside it; answers how many bytes that is. An answer has its code
// as a number (Rule 7.2).
pub fn put_answer(answer: Answer, res: &[u8], text: &mut [u8]) -> usize
    requires { (answer.code ≡ 0 → 2 * place_of res.now answer.readings ≤ length res.now)
        × (text_room (length res.now) ≤ length text.old) }
    ensures { (take result text.new ≡ answer_text answer (lines_in res.now answer.readings))
        × (result ≤ length text.new) }
{
    if answer.code != 0 {
        return put_refused(text, answer);
    }
    let end = put_lines(res, answer.readings as usize, text);
    put_ok(text, end, answer)
}
