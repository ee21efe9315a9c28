// One case, a line of each call. What is written: the call's name, before it is made; then code, place, used, readings
// and peak; of a pass every number of the result, and its left-over byte where there is one; of the forward pass how
// many bytes of working memory are not 0 before the call, and how many after it.
use records::Answer;
use std::io;
use tables::{Numbers, ROOM};

// What a byte of lent memory is before the call.
const UNTOUCHED: u8 = 170;

// The room for working memory: more than a limit of 256 needs.
const WORK_ROOM: usize = 65536;

pub(crate) fn case_row(out: &impl Print, row: &[u8]) -> io::Result<()> {
    let work_at = tables::next_word(row, 0);
    let lent_at = tables::next_word(row, work_at);
    let pattern_at = tables::next_word(row, lent_at);
    let block_at = tables::next_word(row, pattern_at);
    let mut pattern = [0; ROOM];
    let mut block = [0; ROOM];
    let mut work = [0; WORK_ROOM];
    let mut result = [0; ROOM];
    let n = tables::hex_bytes(&row[pattern_at..block_at], &mut pattern);
    let m = tables::hex_bytes(&row[block_at..], &mut block);
    let lent_work = tables::number(row, work_at).min(WORK_ROOM);
    let lent = tables::number(row, lent_at).min(ROOM);
    let (pattern, block) = (&pattern[..n], &block[..m]);
    let (work, res) = (&mut work[..lent_work], &mut result[..lent]);
    work.fill(UNTOUCHED);
    res.fill(UNTOUCHED);
    let before = count_set(work);
    print!(out; "forward ")?;
    let answer = forward::forward(pattern, block, tables::number(row, 0) as u32, work, res);
    put_pass(out, answer, res)?;
    println!(out; " | work {before} {}", count_set(work))?;
    res.fill(UNTOUCHED);
    print!(out; "start by start ")?;
    let answer = starts::start_by_start(pattern, block, res);
    put_pass(out, answer, res)?;
    println!(out)?;
    print!(out; "measure ")?;
    println!(out; "{}", Numbers(starts::measure(pattern, block)))
}

// How many bytes are not 0.
fn count_set(memory: &[u8]) -> usize {
    numbers::count_that(memory.len(), |i| memory[i] != 0)
}

fn put_pass(out: &impl Print, answer: Answer, res: &[u8]) -> io::Result<()> {
    print!(out; "{} |", Numbers(answer))?;
    for i in 0..res.len() / 2 {
        print!(out; " {}", numbers::number2(res, 2 * i))?;
    }
    if res.len() % 2 == 1 {
        print!(out; " left {}", res[res.len() - 1])?;
    }
    Ok(())
}
