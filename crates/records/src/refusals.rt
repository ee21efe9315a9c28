// Why a call refuses what it is given (section 8 of docs/RULES.md).

ghost use Rattle.std.specs.Prelude.{◌≡◌};
ghost use Rattle.records.specs.Refusals.{code_of, place_of};

use crate::Answer;

// Serves rules 7.2 and 8.14: a refusal, with its place where the rules name one. No code gives 13: the records of a
// reading rise, so that none is bound again.
#[derive(Clone, Copy, Debug, PartialEq, Eq)]
pub enum Refusal {
    PatternLength,
    Header,
    Variable(u32),
    Condition(u32),
    BlockLength,
    Record(u32),
    Time(u32),
    Limit,
    Bindings(u32),
    Live(u32),
    ResultRoom,
    SliceRoom,
    Line(u32),
    Index,
}

impl Refusal {
    // The number that the rules give it.
    pub fn code(self) -> u8
        ensures { result ≡ code_of self }
    {
        match self {
            Refusal::PatternLength => 1,
            Refusal::Header => 2,
            Refusal::Variable(_) => 3,
            Refusal::Condition(_) => 4,
            Refusal::BlockLength => 5,
            Refusal::Record(_) => 6,
            Refusal::Time(_) => 7,
            Refusal::Limit => 8,
            Refusal::Bindings(_) => 9,
            Refusal::Live(_) => 10,
            Refusal::ResultRoom => 11,
            Refusal::SliceRoom => 12,
            Refusal::Line(_) => 14,
            Refusal::Index => 15,
        }
    }

    // The place that it names; 0 where it names none.
    pub fn place(self) -> u32
        ensures { result ≡ place_of self }
    {
        match self {
            Refusal::Variable(place)
            | Refusal::Condition(place)
            | Refusal::Record(place)
            | Refusal::Time(place)
            | Refusal::Bindings(place)
            | Refusal::Live(place)
            | Refusal::Line(place) => place,
            Refusal::PatternLength
            | Refusal::Header
            | Refusal::BlockLength
            | Refusal::Limit
            | Refusal::ResultRoom
            | Refusal::SliceRoom
            | Refusal::Index => 0,
        }
    }
}

// Rule 7.2: the answer of a call that refuses.
impl From<Refusal> for Answer {
    ghost use Rattle.std.specs.Prelude.{◌≡◌};
    ghost use Rattle.records.specs.Blocks.{refused};
    ghost use Rattle.records.specs.Refusals.{code_of, place_of};

    ghost from_gives = { λ r a. a ≡ refused (code_of r) (place_of r) };

    fn from(refusal: Refusal) -> Answer {
        crate::refusal(refusal.code(), refusal.place())
    }
}

// Rule 7.2: the answer of the check of a block, which counts the records as `used`.
impl From<Result<usize, Refusal>> for Answer {
    ghost use Rattle.std.specs.Prelude.{◌≡◌};
    ghost use Rattle.records.specs.Refusals.{judged_as};

    ghost from_gives = { λ judged a. a ≡ judged_as judged };

    fn from(judged: Result<usize, Refusal>) -> Answer {
        match judged {
            Ok(count) => Answer {
                code: 0,
                place: 0,
                used: count as u64,
                readings: 0,
                peak: 0,
            },
            Err(refusal) => Answer::from(refusal),
        }
    }
}
