// How readings close: the mark that a gap gives, and where the readings of a start close.
#![tactic(auto)]

ghost use Rattle.std.specs.Prelude.{◌≡◌, ◌≤◌, ◌<◌};
ghost use Rattle.records.specs.Records.{record_count};
ghost use Rattle.patterns.specs.Patterns.{most_variables};
ghost use Rattle.slots.specs.Results.{mark_number};
ghost use Rattle.closings.specs.Closings.{gap_mark_by, OpenTo, WindowIs};

use plans::Plan;
use slots::Mark;

// Where the readings of a start close, and their mark.
#[derive(Clone, Copy, Debug, PartialEq, Eq)]
pub struct Window {
    pub until: usize,
    pub mark: u8,
}

// The mark of what closes at a gap (Rule 5.8): whether a step leaves the state in which all n variables are bound.
#[tactic(auto, unfolding(crate::specs::Closings::gap_mark_by))]
pub fn gap_mark(plan: &Plan, n: usize) -> Mark
    requires { n ≤ most_variables }
    ensures { mark_number result ≡ gap_mark_by plan.now n }
{
    let full = numbers::weight(n) - 1;
    if numbers::all(n, |v| !firing::leaves(plan, full, v)) {
        Mark::GapComplete
    } else {
        Mark::Gap
    }
}

// What record i fixes as the first of a reading, where a gap gives the mark `gap`; no record before `opened` closes it.
// Its promise is of any mark below 16, where `Mark` has four.
pub fn window_at(block: &[u8], duration: u64, i: usize, opened: usize, gap: u8) -> Window
    requires { (i < record_count block.now) × (opened ≤ record_count block.now)
        × (OpenTo block.now duration i opened) × (gap < 16) }
    ensures { WindowIs block.now duration gap i result }
{
    let first = records::time_at(block, i);
    let count = block.len() / records::RECORD_BYTES;
    for k in opened.max(i + 1)..count {
        if records::kind_at(block, k) != records::EVENT {
            return Window {
                until: k,
                mark: gap,
            };
        }
        if duration < records::time_at(block, k).saturating_sub(first) {
            return Window {
                until: k,
                mark: Mark::Past.number(),
            };
        }
    }
    Window {
        until: count,
        mark: Mark::End.number(),
    }
}
