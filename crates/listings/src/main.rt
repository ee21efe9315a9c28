// Lists the automata of a few patterns, and writes of each the answer and what the slice holds after the call.
//
// A case's lines: its title; code, place, used, readings, peak; the checksum of the slice's bytes; and of a slice of at
// most 256 bytes each eight bytes as one number in hex, and then the left-over bytes in decimal. Every byte of the
// slice is 255 before the call. tests/listings_model.py has the same cases, and says what must be written.
#![tactic(auto)]

mod cases;
mod listing;

use listing::list;
use std::io;

fn main(rt: HostRuntime) -> io::Result<()> {
    bench(&rt)?;
    paper(&rt)?;
    sets(&rt)?;
    refused(&rt)
}

// The example pattern of the rules (Rule 10.1): seven steps.
fn bench(out: &impl Print) -> io::Result<()> {
    list(out, "bench: room for its seven steps", cases::BENCH, 56)?;
    list(out, "bench: four left-over bytes", cases::BENCH, 60)?;
    list(
        out,
        "bench: one number more, and seven bytes",
        cases::BENCH,
        71,
    )?;
    list(out, "bench: one byte too short", cases::BENCH, 55)?;
    list(out, "bench: room for six", cases::BENCH, 48)?;
    list(out, "bench: no room", cases::BENCH, 0)
}

// The paper's example: 17 steps.
fn paper(out: &impl Print) -> io::Result<()> {
    list(out, "paper: c, p+, d, then b", cases::PAPER, 136)?;
    list(out, "paper: one too short", cases::PAPER, 135)
}

fn sets(out: &impl Print) -> io::Result<()> {
    list(out, "one variable, no condition", cases::ONE, 16)?;
    list(
        out,
        "two sets of one, a condition of one variable twice",
        cases::TWO_SETS,
        40,
    )?;
    list(
        out,
        "two sets of one, three conditions on waves",
        cases::WAVES,
        24,
    )?;
    list(
        out,
        "two sets of one, three conditions with not equal",
        cases::DIFFERENT,
        24,
    )?;
    let largest = cases::full(cases::LARGEST);
    list(
        out,
        "largest: two sets of six group variables",
        &largest,
        6144,
    )?;
    list(out, "largest: longer slice", &largest, 6151)?;
    list(out, "largest: one too short", &largest, 6143)?;
    let eight_sets = cases::full(cases::EIGHT_SETS);
    list(out, "eight sets", &eight_sets, 400)?;
    list(out, "eight sets: a short slice", &eight_sets, 100)
}

fn refused(out: &impl Print) -> io::Result<()> {
    list(out, "refused 1: no bytes", b"", 20)?;
    list(out, "refused 1: seven bytes", &cases::BENCH[..7], 20)?;
    let mut longer = [0; 52];
    longer[..51].copy_from_slice(cases::BENCH);
    list(
        out,
        "refused 1: a byte more than the counts say",
        &longer,
        20,
    )?;
    list(out, "refused 2: edition 2", cases::EDITION_2, 20)?;
    list(
        out,
        "refused 2 before 1: thirteen variables",
        cases::THIRTEEN,
        20,
    )?;
    list(
        out,
        "refused 3: the second set is missing",
        cases::SET_MISSING,
        20,
    )?;
    list(out, "refused 3: a set of seven", cases::SET_OF_SEVEN, 20)?;
    list(out, "refused 4: operator 6", cases::OPERATOR, 20)?;
    list(out, "refused 4: attribute 6", cases::ATTRIBUTE, 20)?;
    list(
        out,
        "refused 4: second attribute 6",
        cases::SECOND_ATTRIBUTE,
        20,
    )?;
    list(
        out,
        "refused 4 before 12: no such variable",
        cases::SECOND_VARIABLE,
        3,
    )
}
