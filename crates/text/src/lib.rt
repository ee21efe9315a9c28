// The text form of patterns: texts read into pattern bytes, and written from them.
#![tactic(auto)]

ghost use Rattle.std.specs.Prelude.{◌≡◌, ◌+◌, ◌*◌, ◌^◌, ◌≤◌, ◌<◌, min, length, take};
ghost use mathlib.Core.List.{flat_map};
ghost use Rattle.numbers.specs.Put.{Put};
ghost use Rattle.numbers.specs.Bytes.{word_bytes};
ghost use Rattle.records.specs.Refusals.{judged_as};
ghost use Rattle.patterns.specs.Patterns.{header_bytes, most_variables, condition_bytes, most_conditions};
ghost use Rattle.patterns.specs.Checked.{InOrder};
ghost use Rattle.form.specs.Form.{text_of};
ghost use Rattle.form.specs.Packed.{header_bits, most_bytes};
ghost use Rattle.form.specs.Promises.{ReadPromise, WritePromise, most_place};
ghost use Rattle.drafts.specs.Drafts.{Small};
ghost use Rattle.wording.specs.Wording.{making_of};
ghost use Rattle.text.specs.LineEnds.{LineEnd};
ghost use Rattle.text.specs.Texts.{TextRead, draft_bytes};
ghost use Rattle.text.specs.Fitting.{DraftFits, Measured};
ghost use Rattle.text.specs.Given.{Given, Judged, left};

use drafts::{Draft, Phase};
use patterns::Pattern;
use records::{Answer, Refusal};

// The longest pattern.
const MOST_BYTES: usize = patterns::HEADER_BYTES
    + patterns::MOST_VARIABLES
    + patterns::CONDITION_BYTES * patterns::MOST_CONDITIONS;

// The first line feed from a place on.
fn line_end(text: &[u8], from: usize) -> Option<usize>
    requires { from ≤ length text.now }
    ensures { LineEnd text.now from result }
{
    for at in from..text.len() {
        if text[at] == b'\n' {
            return Some(at);
        }
    }
    None
}

// What the lines of a text tell, or the first bad or missing line. A step is as long as a line.
// It has a frame of its own, which does not stand while the pattern is checked.
#[inline(never)]
fn read_lines(text: &[u8]) -> Result<Draft, usize>
    ensures { TextRead text.now result }
{
    let mut draft = drafts::blank();
    let mut line = 0;
    let mut at = 0;
    while at < text.len() {
        let Some(end) = line_end(text, at) else {
            return Err(line);
        };
        let Some(more) = drafts::read_line(&text[at..end], draft) else {
            return Err(line);
        };
        draft = more;
        line += 1;
        at = end + 1;
    }
    match draft.phase {
        Phase::Finished => Ok(draft),
        _ => Err(line),
    }
}

// The header of a draft that fits a pattern.
fn header_bits(d: &Draft) -> u64
    requires { DraftFits d.now }
    ensures { result ≡ header_bits d.now.n d.now.c d.now.duration }
{
    1152921504606846976 + d.n as u64 * 72057594037927936 + d.c as u64 * 281474976710656 + d.duration
}

// The bytes of the variables.
fn put_variables(d: &Draft, bytes: &mut [u8]) -> usize
    requires { (d.now.n ≤ most_variables) × (most_bytes ≤ length bytes.old) }
    ensures { Put bytes.old bytes.new header_bytes (take d.now.n d.now.variables) result }
{
    let n = d.n as usize;
    let end = patterns::HEADER_BYTES + n;
    bytes[patterns::HEADER_BYTES..end].copy_from_slice(&d.variables[..n]);
    end
}

// The bytes of the conditions.
fn put_conditions(d: &Draft, bytes: &mut [u8], at: usize) -> usize
    requires { (d.now.c ≤ most_conditions) × (at + condition_bytes * most_conditions ≤ length bytes.old) }
    ensures { Put bytes.old bytes.new at
        (flat_map word_bytes (take d.now.c d.now.conditions)) result }
{
    let mut end = at;
    for i in 0..d.c as usize {
        numbers::store_word(bytes, end, d.conditions[i]);
        end += patterns::CONDITION_BYTES;
    }
    end
}

// The pattern of a draft, from the beginning of the memory on.
fn put_draft(d: &Draft, bytes: &mut [u8]) -> usize
    requires { Small d.now × DraftFits d.now × (most_bytes ≤ length bytes.old) }
    ensures { Put bytes.old bytes.new 0 (draft_bytes d.now) result × (result ≤ most_bytes) }
{
    numbers::store_word(bytes, 0, header_bits(d));
    let variables = put_variables(d, bytes);
    put_conditions(d, bytes, variables)
}

// Whether a pattern has no fields for it.
fn is_too_large(d: &Draft) -> bool
    ensures { Measured d.now result }
{
    patterns::MOST_VARIABLES < d.n as usize
        || patterns::MOST_CONDITIONS < d.c as usize
        || words::LARGE <= d.duration
}

// A line's number as a place.
fn place(line: usize) -> u32
    ensures { result ≡ min line most_place }
{
    u32::try_from(line).unwrap_or(u32::MAX)
}

// Bytes for the caller, with 0 behind them, and how many they are; refusal 12 where they do not fit.
fn give(memory: &mut [u8], bytes: &[u8]) -> Result<usize, Refusal>
    ensures { Given bytes.now (length memory.old) (judged_as result) (left result memory.new) }
{
    if memory.len() < bytes.len() {
        return Err(Refusal::SliceRoom);
    }
    let end = numbers::put_word(memory, 0, bytes);
    memory[end..].fill(0);
    Ok(end)
}

// The pattern of a draft for the caller, if the check of patterns accepts it.
fn give_draft(d: &Draft, pattern: &mut [u8]) -> Result<usize, Refusal>
    requires { Small d.now × DraftFits d.now }
    ensures { Judged (draft_bytes d.now) (length pattern.old) (judged_as result) (left result pattern.new) }
{
    let mut bytes = [0; MOST_BYTES];
    let used = put_draft(d, &mut bytes);
    patterns::read(&bytes[..used])?;
    give(pattern, &bytes[..used])
}

// A text's pattern for the caller, or refusal 14, 2, 3 or 12. The draft is lent where it was read: a copy of it would
// stand beside it.
fn read(text: &[u8], pattern: &mut [u8]) -> Result<usize, Refusal>
    ensures { ReadPromise text.now (length pattern.old) (judged_as result) (left result pattern.new) }
{
    match &read_lines(text) {
        Ok(draft) => {
            if is_too_large(draft) {
                return Err(Refusal::Header);
            }
            give_draft(draft, pattern)
        }
        Err(line) => Err(Refusal::Line(place(*line))),
    }
}

// The text of a checked pattern for the caller.
// It has a frame of its own, which does not stand while the pattern is checked.
#[inline(never)]
fn give_text(p: Pattern, text: &mut [u8]) -> Result<usize, Refusal>
    requires { InOrder p × (p.duration < 2 ^ 40) }
    ensures { Given (text_of (making_of p)) (length text.old) (judged_as result) (left result text.new) }
{
    let mut room = [0; wording::MOST_TEXT];
    let used = wording::put_pattern(p, &mut room);
    give(text, &room[..used])
}

// A pattern's text for the caller, or refusals 1 to 4, or 12.
fn write(pattern: &[u8], text: &mut [u8]) -> Result<usize, Refusal>
    ensures { WritePromise pattern.now (length text.old) (judged_as result) (left result text.new) }
{
    give_text(patterns::read(pattern)?, text)
}

// The answer of a call, whose refusal leaves the slice all 0.
fn answered(outcome: Result<usize, Refusal>, memory: &mut [u8]) -> Answer
    ensures { (result ≡ judged_as outcome) × (memory.new ≡ left outcome memory.old) }
{
    if outcome.is_err() {
        memory.fill(0);
    }
    Answer::from(outcome)
}

// Reads a text into the bytes of a pattern.
pub fn read_text(text: &[u8], pattern: &mut [u8]) -> Answer
    ensures { ReadPromise text.now (length pattern.old) result pattern.new }
{
    answered(read(text, pattern), pattern)
}

// Writes the text of a pattern.
pub fn write_text(pattern: &[u8], text: &mut [u8]) -> Answer
    ensures { WritePromise pattern.now (length text.old) result text.new }
{
    answered(write(pattern, text), text)
}
