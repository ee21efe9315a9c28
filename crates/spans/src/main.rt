// The match program: the forward pass over a pattern and a block from standard input (Rule 9.1), and its report as
// lines of text (Rule 9.2).
#![tactic(auto)]

ghost use Rattle.std.specs.Prelude.{◌≡◌, ◌≤◌, length, take};
ghost use Rattle.spans.specs.Program.{input_room, Answered, Program};

use records::{Answer, Refusal};
use std::io;

const LENGTH_BYTES: usize = 2;

// The longest pattern that two bytes can announce.
const MOST_ANNOUNCED: usize = 65535;

// The length, the longest pattern, and one byte more than a block may have: input that does not fit has too long a
// block even so.
const INPUT_ROOM: usize = LENGTH_BYTES
    + MOST_ANNOUNCED
    + records::RECORD_BYTES * records::MOST_RECORDS
    + 1;

const LIMIT: u32 = forward::MOST_LIVE;

const WORK_ROOM: usize = forward::WORK_PER_READING * LIMIT as usize;

const RESULT_ROOM: usize = slots::MOST_RESULT_BYTES;

const TEXT_ROOM: usize = lines::NUMBER_ROOM * (RESULT_ROOM / 2) + lines::LAST_ROOM;

fn main(rt: HostRuntime) -> io::Result<()> {
    let mut input = input_room();
    let n = tables::read_full(&mut rt.stdin(), &mut input)?;
    let mut work = [0; WORK_ROOM];
    let mut result = [0; RESULT_ROOM];
    let mut text = [0; TEXT_ROOM];
    let end = put_text(&input[..n], &mut work, &mut result, &mut text);
    rt.write_all(&text[..end])
}

// The clause holds the room to what the theorem `cut` says of input that does not fit.
fn input_room() -> [u8; INPUT_ROOM]
    ensures { input_room ≡ length result }
{
    [0; INPUT_ROOM]
}

// Puts all that is written of an input at the start of text, and answers how many bytes that is.
fn put_text(
    input: &[u8],
    work: &mut [u8; WORK_ROOM],
    res: &mut [u8; RESULT_ROOM],
    text: &mut [u8; TEXT_ROOM],
) -> usize
    ensures { Program input.now (take result text.new) × (result ≤ length text.new) }
{
    let answer = answer_to(input, work, res);
    lines::put_answer(answer, res, text)
}

fn answer_to(input: &[u8], work: &mut [u8; WORK_ROOM], res: &mut [u8; RESULT_ROOM]) -> Answer
    ensures { Answered input.now result res.new }
{
    if input.len() < LENGTH_BYTES {
        return Refusal::PatternLength.into();
    }
    let end = LENGTH_BYTES + numbers::number2(input, 0) as usize;
    if input.len() < end {
        return Refusal::PatternLength.into();
    }
    forward::forward(&input[LENGTH_BYTES..end], &input[end..], LIMIT, work, res)
}
