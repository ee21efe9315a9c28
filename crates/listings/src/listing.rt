// What is written of the listing of a pattern.
ghost use Rattle.std.specs.Prelude.{◌≤◌};

use automaton::STEP_BYTES;
use std::io;
use tables::Numbers;

// More than the longest listing has.
const ROOM: usize = 6400;

// Longer slices are written as their checksum alone.
const SHORT: usize = 256;

const PRIME: u64 = 65521;

// Lists a pattern's automaton into a slice of so many bytes.
pub(crate) fn list(out: &impl Print, title: &str, pattern: &[u8], lent: usize) -> io::Result<()>
    requires { lent ≤ ROOM }
{
    let mut room = [255; ROOM];
    let slice = &mut room[..lent];
    let answer = automaton::list_automaton(pattern, slice);
    println!(out; "{title}")?;
    println!(out; "{}", Numbers(answer))?;
    println!(out; "checksum {}", checksum(slice))?;
    if slice.len() <= SHORT {
        put_slice(out, slice)?;
    }
    Ok(())
}

fn checksum(slice: &[u8]) -> u64 {
    let mut sum = 0;
    for byte in slice {
        sum = (sum * 31 + *byte as u64) % PRIME;
    }
    sum
}

// The slice's numbers, and its left-over bytes.
fn put_slice(out: &impl Print, slice: &[u8]) -> io::Result<()> {
    let count = slice.len() / STEP_BYTES;
    for i in 0..count {
        println!(out; "{:016x}", numbers::number8(slice, STEP_BYTES * i))?;
    }
    for byte in &slice[STEP_BYTES * count..] {
        println!(out; "{byte}")?;
    }
    Ok(())
}
