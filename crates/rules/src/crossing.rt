// What crosses to another language or lies in a list: a call as four numbers, and an answer as two, in both directions.
ghost use Rattle.std.specs.Prelude.{◌≡◌};
ghost use Rattle.rules.specs.Calls.{numbers_for};
ghost use Rattle.rules.specs.Refusals.{number_of, numbered};
ghost use Rattle.rules.specs.declared.Answer.TheVariants.{Refused};
ghost use Rattle.rules.specs.Answers.{numbers_of, pair_of, answer_of, done_numbers_of, told_numbers_of};

use crate::{Answer, Call, KIND_DONE, KIND_NO_ROUTE, KIND_ROUTE, Numbers, Operation, Refusal};

// The kinds of answers. The first is 0 to C, and each of the others one more.
#[derive(Clone, Copy, Debug, PartialEq, Eq)]
pub enum Kind {
    Nothing,
    Figure,
    Yes,
    No,
    Refused,
}

// The two numbers of an answer.
#[repr(C)]
#[derive(Clone, Copy)]
pub struct Numbered {
    pub kind: u32,
    pub value: u32,
}

impl From<Answer> for Numbered {
    ghost from_gives = { λ answer n. pair_of n ≡ numbers_of answer };

    fn from(answer: Answer) -> Numbered {
        let (kind, value) = match answer {
            Answer::Nothing => (Kind::Nothing, 0),
            Answer::Figure(figure) => (Kind::Figure, figure),
            Answer::Yes => (Kind::Yes, 0),
            Answer::No => (Kind::No, 0),
            Answer::Refused(refusal) => (Kind::Refused, refusal),
        };
        Numbered {
            kind: kind as u32,
            value,
        }
    }
}

// A refused call's answer.
impl From<Refusal> for Answer {
    ghost from_gives = { λ refusal answer. answer ≡ Refused (number_of refusal) };

    fn from(refusal: Refusal) -> Answer {
        Answer::Refused(refusal.number())
    }
}

// The answer that two numbers stand for; "nothing" for any other kind. By `Kind`'s numbers: a TryFrom for it would be asked here alone, and its
// error let go.
impl From<Numbered> for Answer {
    ghost from_gives = { λ n answer. answer ≡ answer_of (pair_of n) };

    fn from(n: Numbered) -> Answer {
        match n.kind {
            1 => Answer::Figure(n.value),
            2 => Answer::Yes,
            3 => Answer::No,
            4 => Answer::Refused(n.value),
            _ => Answer::Nothing,
        }
    }
}

// How many were done: the calls of a list that was run or a text that was read, the numbers of a grid that was filled.
impl From<Result<u32, Refusal>> for Numbered {
    ghost from_gives = { λ done n. pair_of n ≡ done_numbers_of (numbered done) };

    fn from(done: Result<u32, Refusal>) -> Numbered {
        let (kind, value) = match done {
            Ok(count) => (KIND_DONE, count),
            Err(refusal) => (Kind::Refused as u32, refusal.number()),
        };
        Numbered { kind, value }
    }
}

// What a report tells: nothing to show, or the number of the calls that show it.
impl From<Result<Option<u32>, Refusal>> for Numbered {
    ghost from_gives = { λ told n. pair_of n ≡ told_numbers_of (numbered told) };

    fn from(told: Result<Option<u32>, Refusal>) -> Numbered {
        let (kind, value) = match told {
            Ok(None) => (KIND_NO_ROUTE, 0),
            Ok(Some(calls)) => (KIND_ROUTE, calls),
            Err(refusal) => (Kind::Refused as u32, refusal.number()),
        };
        Numbered { kind, value }
    }
}

impl From<Call> for Numbers {
    ghost from_gives = { λ call n. n ≡ numbers_for call };

    fn from(call: Call) -> Numbers {
        let (operation, process, file, extra) = match call {
            Call::Read(p, f) => (Operation::Read, p, f, 0),
            Call::Write(p, f, x) => (Operation::Write, p, f, x),
            Call::Lock(p, f) => (Operation::Lock, p, f, 0),
            Call::Unlock(p, f) => (Operation::Unlock, p, f, 0),
            Call::Open(p, f) => (Operation::Open, p, f, 0),
            Call::Close(p, f) => (Operation::Close, p, f, 0),
            Call::Testlock(p, f) => (Operation::Testlock, p, f, 0),
            Call::Copy(p, f, x) => (Operation::Copy, p, f, x),
        };
        Numbers {
            operation: operation.code(),
            process,
            file,
            extra,
        }
    }
}
