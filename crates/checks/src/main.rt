// Checks the blocks and patterns of a table, and writes what the checks answer.
//
// Standard input is the table, a case to a row:
//   block HEX..                  a block of these bytes
//   events N EXTRA PLACE BYTE    a block of N events at the times 1, 2, .., then EXTRA bytes of 0, and BYTE set at
//                                PLACE (a number that is left out is 0)
//   pattern HEX..                a pattern of these bytes
// Any other row, as one that begins with #, is written as it is.
#![tactic(auto)]

mod block_rows;
mod pattern_rows;

use std::io;

// The room for a table.
const TABLE_ROOM: usize = 65536;

fn main(rt: HostRuntime) -> io::Result<()> {
    let mut table = [0; TABLE_ROOM];
    let n = tables::read_full(&mut rt.stdin(), &mut table)?;
    tables::rows(&table[..n], |line| row(&rt, line))
}

fn row(out: &impl Print, row: &[u8]) -> io::Result<()> {
    match row {
        [b'b', ..] => block_rows::block_row(out, row)?,
        [b'e', ..] => block_rows::events_row(out, row)?,
        [b'p', ..] => pattern_rows::pattern_row(out, row)?,
        _ => out.write_all(row)?,
    }
    println!(out)
}
