// The C calls as a static library: each hands on to the call of the same name in `spaldep`, whose promise it keeps.
#![tactic(auto)]

ghost use Rattle.std.specs.Prelude.{◌≡◌, length};
ghost use Rattle.records.specs.Blocks.{block_answer, refused};
ghost use Rattle.patterns.specs.Checked.{pattern_answer};
ghost use Rattle.spaldep.specs.Packed.{packed_answer};
ghost use Rattle.spaldep.specs.Host.{StartByStartHost, ForwardHost, ListingHost};
ghost use Rattle.spaldep.specs.Host.{ReadHost, WriteHost, MakeHost, SearchHost};

#[unsafe(no_mangle)]
pub extern "C" fn spaldep_check_pattern(pattern: &[u8]) -> u64
    ensures { result ≡ packed_answer
        (refused (pattern_answer pattern.now).code (pattern_answer pattern.now).place) }
{
    spaldep::spaldep_check_pattern(pattern)
}

#[unsafe(no_mangle)]
pub extern "C" fn spaldep_check_block(block: &[u8]) -> u64
    ensures { result ≡ packed_answer (block_answer block.now) }
{
    spaldep::spaldep_check_block(block)
}

#[unsafe(no_mangle)]
pub extern "C" fn spaldep_list_automaton(pattern: &[u8], listing: &mut [u8]) -> u64
    ensures { ListingHost pattern.now (length listing.old) result listing.new }
{
    spaldep::spaldep_list_automaton(pattern, listing)
}

#[unsafe(no_mangle)]
pub extern "C" fn spaldep_forward(
    pattern: &[u8],
    block: &[u8],
    limit: u32,
    work: &mut [u8],
    res: &mut [u8],
) -> u64
    ensures { ForwardHost pattern.now block.now limit (length work.old)
        (length res.old) result work.new res.new }
{
    spaldep::spaldep_forward(pattern, block, limit, work, res)
}

#[unsafe(no_mangle)]
pub extern "C" fn spaldep_start_by_start(pattern: &[u8], block: &[u8], res: &mut [u8]) -> u64
    ensures { StartByStartHost pattern.now block.now (length res.old) result
        res.new }
{
    spaldep::spaldep_start_by_start(pattern, block, res)
}

#[unsafe(no_mangle)]
pub extern "C" fn spaldep_read_text(text: &[u8], pattern: &mut [u8]) -> u64
    ensures { ReadHost text.now (length pattern.old) result pattern.new }
{
    spaldep::spaldep_read_text(text, pattern)
}

#[unsafe(no_mangle)]
pub extern "C" fn spaldep_write_text(pattern: &[u8], text: &mut [u8]) -> u64
    ensures { WriteHost pattern.now (length text.old) result text.new }
{
    spaldep::spaldep_write_text(pattern, text)
}

#[unsafe(no_mangle)]
pub extern "C" fn spaldep_make_index(block: &[u8], index: &mut [u8]) -> u64
    ensures { MakeHost block.now (length index.old) result index.new }
{
    spaldep::spaldep_make_index(block, index)
}

#[unsafe(no_mangle)]
pub extern "C" fn spaldep_search(
    pattern: &[u8],
    index: &[u8],
    block: &[u8],
    limit: u32,
    work: &mut [u8],
    res: &mut [u8],
) -> u64
    ensures { SearchHost pattern.now index.now block.now limit
        (length work.old) (length res.old) result work.new res.new }
{
    spaldep::spaldep_search(pattern, index, block, limit, work, res)
}
