// What a program in another language is handed: an answer as two numbers, and beside it the next store.
#![tactic(auto)]

pub mod by_value;
pub mod lent;
pub mod texts;

ghost use Rattle.std.specs.Prelude.{◌≡◌};
ghost use Rattle.rules.specs.Calls.{numbers};
ghost use Rattle.rules.specs.Answers.{numbers_of, pair_of, done_numbers_of};
ghost use Rattle.rules.specs.Refusals.{numbered};
ghost use Rattle.rules.specs.Entries.{called};

use calling::entry::call;
use lists::Listed;
use rules::{Called, Numbered, Numbers, Setup, Store};

// What a call answers, as two numbers, and the next store.
#[repr(C)]
#[derive(Clone, Copy)]
pub struct Outcome {
    pub numbered: Numbered,
    pub store: Store,
}

impl From<Called> for Outcome {
    ghost from_gives = { λ called outcome. (pair_of outcome.numbered ≡ numbers_of called.answer) × (outcome.store ≡ called.store) };

    fn from(called: Called) -> Outcome {
        Outcome {
            numbered: called.answer.into(),
            store: called.store,
        }
    }
}

impl From<Listed> for Outcome {
    ghost from_gives = { λ listed outcome. (pair_of outcome.numbered ≡ done_numbers_of (numbered listed.answer)) × (outcome.store ≡ listed.store) };

    fn from(listed: Listed) -> Outcome {
        Outcome {
            numbered: listed.answer.into(),
            store: listed.store,
        }
    }
}

// One call by value, from plain numbers, as they cross from C: a call in place has only to put the store back.
pub fn call_numbered(setup: Setup, store: Store, op: u32, p: u32, f: u32, x: u32) -> Outcome
    ensures { let c = called setup store (numbers op p f x) in
        (pair_of result.numbered ≡ numbers_of c.answer) × (result.store ≡ c.store) }
{
    let n = Numbers {
        operation: op,
        process: p,
        file: f,
        extra: x,
    };
    Outcome::from(call(setup, store, n))
}
