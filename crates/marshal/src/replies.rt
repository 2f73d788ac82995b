// What a caller in C is told of an answer: four numbers for each case of it.
ghost use Rattle.std.specs.Prelude.{◌≡◌};
ghost use Rattle.refusal.specs.Numbers.{reply_of, reply_with};
ghost use Rattle.frames.specs.Paper.{paper_looked, paper_faulted, paper_active};
ghost use Rattle.marshal.specs.Replies.{Tells, itself, nothing, number_in, second_in};

use frames::{ActiveColours, Faulted};
use refusal::Refusal;

// Kept: numbers, since a caller in C is told nothing else.
// The number and row of a refusal, 0 where a call answers, and two numbers of the answer, 0 on a refusal.
#[derive(Clone, Copy, Debug, PartialEq, Eq)]
pub struct ReplyNumbers {
    pub number: u32,
    pub row: u32,
    pub value: u32,
    pub second: u32,
}

fn answered(value: u32, second: u32) -> ReplyNumbers
    ensures { (result.number ≡ 0) × (result.row ≡ 0) × (result.value ≡ value) × (result.second ≡ second) }
{
    ReplyNumbers {
        number: 0,
        row: 0,
        value,
        second,
    }
}

fn refused(refusal: Refusal) -> ReplyNumbers
    ensures { Tells itself nothing (reply_of (Err refusal)) result }
{
    ReplyNumbers {
        number: refusal.number(),
        row: refusal.row(),
        value: 0,
        second: 0,
    }
}

// An answer that is one number.
impl From<Result<u32, Refusal>> for ReplyNumbers {
    ghost from_gives = { λ answer told. Tells itself nothing (reply_of answer) told };

    fn from(answer: Result<u32, Refusal>) -> ReplyNumbers {
        match answer {
            Ok(number) => answered(number, 0),
            Err(refusal) => refused(refusal),
        }
    }
}

// One that has no number.
impl From<Result<(), Refusal>> for ReplyNumbers {
    ghost from_gives = { λ answer told. Tells nothing nothing (reply_of answer) told };

    fn from(answer: Result<(), Refusal>) -> ReplyNumbers {
        match answer {
            Ok(()) => answered(0, 0),
            Err(refusal) => refused(refusal),
        }
    }
}

impl From<Result<Option<u32>, Refusal>> for ReplyNumbers {
    ghost from_gives = { λ answer told. Tells number_in second_in (reply_with paper_looked answer) told };

    fn from(answer: Result<Option<u32>, Refusal>) -> ReplyNumbers {
        match answer {
            Ok(Some(frame)) => answered(frame, 1),
            Ok(None) => answered(0, 0),
            Err(refusal) => refused(refusal),
        }
    }
}

impl From<Result<Faulted, Refusal>> for ReplyNumbers {
    ghost from_gives = { λ answer told. Tells number_in second_in (reply_with paper_faulted answer) told };

    fn from(answer: Result<Faulted, Refusal>) -> ReplyNumbers {
        match answer {
            Ok(Faulted::Old(frame)) => answered(frame, 0),
            Ok(Faulted::New(frame)) => answered(frame, 1),
            Err(refusal) => refused(refusal),
        }
    }
}

impl From<Result<ActiveColours, Refusal>> for ReplyNumbers {
    ghost from_gives = { λ answer told. Tells number_in second_in (reply_with paper_active answer) told };

    fn from(answer: Result<ActiveColours, Refusal>) -> ReplyNumbers {
        match answer {
            Ok(colours) => answered(colours.set, colours.quota),
            Err(refusal) => refused(refusal),
        }
    }
}
