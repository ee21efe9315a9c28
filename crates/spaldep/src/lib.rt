// The C calls. Each hands the host's bytes straight through and packs the answer into one number.
#![tactic(auto)]

ghost use Rattle.std.specs.Prelude.{◌≡◌, true, length};
ghost use Rattle.records.specs.Blocks.{block_answer, refused};
ghost use Rattle.patterns.specs.Checked.{pattern_answer};
ghost use Rattle.spaldep.specs.Packed.{place_or_used, packed_answer};
ghost use Rattle.spaldep.specs.Host.{Fitness, unfit_of, unfit_answer, StartByStartHost, ForwardHost, ListingHost};
ghost use Rattle.spaldep.specs.Host.{ReadHost, WriteHost, MakeHost, SearchHost, unfit_search};

use records::{Answer, Refusal};

// What a call says of an answer beside its code, which is a number (Rule 7.2).
#[tactic(auto, unfolding(crate::specs::Packed::place_or_used))]
fn place_or_used(a: Answer) -> u64
    ensures { result ≡ place_or_used a }
{
    if a.code == 0 {
        a.used
    } else {
        u64::from(a.place)
    }
}

// The answer as one number (Rule 7.8): from the high end 8 bits for the code, 24 for place or used, then twice 16.
#[tactic(auto, unfolding(crate::specs::Packed::packed_answer))]
fn pack(a: Answer) -> u64
    ensures { result ≡ packed_answer a }
{
    let code = u64::from(a.code);
    let place = place_or_used(a).min(16777215);
    let readings = a.readings.min(65535);
    let peak = u64::from(a.peak).min(65535);
    code * 72057594037927936 + place * 4294967296 + readings * 65536 + peak
}

#[unsafe(no_mangle)]
pub extern "C" fn spaldep_check_pattern(pattern: &[u8]) -> u64
    ensures { result ≡ packed_answer
        (refused (pattern_answer pattern.now).code (pattern_answer pattern.now).place) }
{
    pack(Answer::from(patterns::read(pattern).map(|_| 0)))
}

#[unsafe(no_mangle)]
pub extern "C" fn spaldep_check_block(block: &[u8]) -> u64
    ensures { result ≡ packed_answer (block_answer block.now) }
{
    pack(records::check_block(block))
}

// Whether a result slice of so many bytes is unfit for a C call (Rule 7.8).
fn is_unfit(lent: usize) -> bool
    ensures { Fitness lent result }
{
    lent % 2 != 0 || slots::MOST_RESULT_BYTES < lent
}

// What pattern and block are refused by, if they are.
fn judge_input(pattern: &[u8], block: &[u8]) -> Result<usize, Refusal>
    ensures { unfit_of result ≡ unfit_answer pattern.now block.now }
{
    patterns::read(pattern)?;
    records::judge(block)
}

// The same of a search: an index is judged behind the pattern (Rule 8.20).
fn judge_search(pattern: &[u8], index: &[u8], block: &[u8]) -> Result<usize, Refusal>
    ensures { unfit_of result ≡ unfit_search pattern.now index.now block.now }
{
    patterns::read(pattern)?;
    if index::is_broken(index) {
        return Err(Refusal::Index);
    }
    records::judge(block)
}

// The answer where the result slice is unfit: what the input is refused by, else 8.
fn unfit_answer(judged: Result<usize, Refusal>) -> Answer
    ensures { result ≡ unfit_of judged }
{
    match judged {
        Ok(_) => Answer::from(Refusal::Limit),
        Err(refusal) => Answer::from(refusal),
    }
}

#[unsafe(no_mangle)]
pub extern "C" fn spaldep_list_automaton(pattern: &[u8], listing: &mut [u8]) -> u64
    ensures { ListingHost pattern.now (length listing.old) result listing.new }
{
    pack(automaton::list_automaton(pattern, listing))
}

#[unsafe(no_mangle)]
pub extern "C" fn spaldep_forward(
    pattern: &[u8],
    block: &[u8],
    limit: u32,
    work: &mut [u8],
    res: &mut [u8],
) -> u64
    ensures { ForwardHost pattern.now block.now limit (length work.old)
        (length res.old) result work.new res.new }
{
    if is_unfit(res.len()) {
        numbers::clear(work);
        numbers::clear(res);
        return pack(unfit_answer(judge_input(pattern, block)));
    }
    pack(forward::forward(pattern, block, limit, work, res))
}

#[unsafe(no_mangle)]
pub extern "C" fn spaldep_start_by_start(pattern: &[u8], block: &[u8], res: &mut [u8]) -> u64
    ensures { StartByStartHost pattern.now block.now (length res.old) result
        res.new }
{
    if is_unfit(res.len()) {
        numbers::clear(res);
        return pack(unfit_answer(judge_input(pattern, block)));
    }
    pack(starts::start_by_start(pattern, block, res))
}

#[unsafe(no_mangle)]
pub extern "C" fn spaldep_read_text(text: &[u8], pattern: &mut [u8]) -> u64
    ensures { ReadHost text.now (length pattern.old) result pattern.new }
{
    pack(text::read_text(text, pattern))
}

#[unsafe(no_mangle)]
pub extern "C" fn spaldep_write_text(pattern: &[u8], text: &mut [u8]) -> u64
    ensures { WriteHost pattern.now (length text.old) result text.new }
{
    pack(text::write_text(pattern, text))
}

#[unsafe(no_mangle)]
pub extern "C" fn spaldep_make_index(block: &[u8], index: &mut [u8]) -> u64
    ensures { MakeHost block.now (length index.old) result index.new }
{
    pack(index::make_index(block, index))
}

#[unsafe(no_mangle)]
pub extern "C" fn spaldep_search(
    pattern: &[u8],
    index: &[u8],
    block: &[u8],
    limit: u32,
    work: &mut [u8],
    res: &mut [u8],
) -> u64
    ensures { SearchHost pattern.now index.now block.now limit
        (length work.old) (length res.old) result work.new res.new }
{
    if is_unfit(res.len()) {
        let answer = unfit_answer(judge_search(pattern, index, block));
        return pack(search::cleared(answer, work, res));
    }
    pack(search::search(pattern, index, block, limit, work, res))
}
