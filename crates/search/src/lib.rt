// The search: the forward pass, but for blocks that cannot match by their index.
#![tactic(auto)]

ghost use Rattle.std.specs.Prelude.{◌≡◌, length, replicate};
ghost use Rattle.records.specs.Blocks.{block_answer};
ghost use Rattle.records.specs.Refusals.{judged_as};
ghost use Rattle.index.specs.Promises.{SearchCall};
ghost use Rattle.search.specs.Judged.{Judged};

use records::{Answer, Refusal};

// Clears all lent memory, and gives the answer on.
pub fn cleared(answer: Answer, work: &mut [u8], res: &mut [u8]) -> Answer
    ensures { (result ≡ answer) × (work.new ≡ replicate (length work.old) 0)
        × (res.new ≡ replicate (length res.old) 0) }
{
    numbers::clear(work);
    numbers::clear(res);
    answer
}

// The check of the block, as the function below asks it. Not inlined there, where the compiler would take its loop for
// one that seldom runs, and place it so.
#[inline(never)]
fn judge(block: &[u8]) -> Result<usize, Refusal>
    ensures { judged_as result ≡ block_answer block.now }
{
    records::judge(block)
}

// Whether the pattern cannot match the block, whatever is in it, by the index. Only where it cannot, the block and the
// limit are judged here: else the pass judges them.
// It has a frame of its own, with the pattern, which does not stand while the pass is made.
#[inline(never)]
fn is_passed_over(
    pattern: &[u8],
    index: &[u8],
    block: &[u8],
    limit: u32,
    lent: usize,
) -> Result<bool, Refusal>
    ensures { Judged pattern.now index.now block.now limit lent result }
{
    let p = patterns::read(pattern)?;
    if index::is_broken(index) {
        return Err(Refusal::Index);
    }
    if !index::cannot_match(p, index) {
        return Ok(false);
    }
    judge(block)?;
    if forward::is_limit_broken(limit, lent) {
        return Err(Refusal::Limit);
    }
    Ok(true)
}

// The search (Rule 7.11).
pub fn search(
    pattern: &[u8],
    index: &[u8],
    block: &[u8],
    limit: u32,
    work: &mut [u8],
    res: &mut [u8],
) -> Answer
    ensures { SearchCall pattern.now index.now block.now limit
        (length work.old) (length res.old) result work.new res.new }
{
    match is_passed_over(pattern, index, block, limit, work.len()) {
        Ok(true) => {
            // nothing is reported
            cleared(Answer::from(Ok(0)), work, res)
        }
        Ok(false) => forward::forward(pattern, block, limit, work, res),
        Err(refusal) => cleared(Answer::from(refusal), work, res),
    }
}
