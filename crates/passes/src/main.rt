// Runs the forward pass, the start-by-start pass and measure on the cases of a table, and writes what they answer.
//
// Standard input is the table, a case to a row:
//   LIMIT WORK LENT PATTERN BLOCK    the limit, and how many bytes of working memory and of the result are lent, as
//                                    numbers; then the bytes of pattern and block in hex digits
// A row that begins with # is written as it is.
#![tactic(auto)]

mod cases;

use std::io;

// The room for a table.
const TABLE_ROOM: usize = 131072;

fn main(rt: HostRuntime) -> io::Result<()> {
    let mut table = [0; TABLE_ROOM];
    let n = tables::read_full(&mut rt.stdin(), &mut table)?;
    tables::rows(&table[..n], |line| row(&rt, line))
}

fn row(out: &impl Print, row: &[u8]) -> io::Result<()> {
    match row {
        [b'#', ..] => {
            out.write_all(row)?;
            println!(out)
        }
        _ => cases::case_row(out, row),
    }
}
