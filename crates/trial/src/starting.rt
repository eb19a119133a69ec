// What the cases start from: setup Q and case 8's setup with a fresh store, and Q with a store that is in use.
ghost use Rattle.std.specs.Prelude.{◌≡◌, IsOk};
ghost use Rattle.rules.specs.Entries.{acceptance};
ghost use Rattle.judging.specs.Given.{bytes_of};
ghost use Rattle.views.specs.Case8.{setup8};
ghost use Rattle.trial.specs.Trials.{setup_q};
ghost use Rattle.trial.specs.Starts.{fresh_on, q_in_use};

use check::expect;
use judging::accepting::{SetupBytes, accept};
use judging::fitting::fresh;
use rules::{Refusal, Setup, Store};

// What a case starts from: a setup, and a store that fits it.
#[derive(Clone, Copy)]
pub struct Start {
    pub setup: Setup,
    pub store: Store,
}

// What an entry gives. That it refuses nothing is proved, and looked at when the program runs.
fn given<T>(answer: Result<T, Refusal>) -> T
    requires { IsOk answer }
    ensures { answer ≡ Ok result }
{
    expect(answer.is_ok());
    answer.unwrap()
}

impl Start {
    // A setup that is accepted, with its fresh store.
    #[tactic(auto, using(crate::proofs::Unrefused::setup_given, crate::proofs::Unrefused::setup_accepted, crate::proofs::Unrefused::store_given, crate::proofs::Unrefused::store_is_fresh))]
    fn fresh_on(bytes: SetupBytes<'_>) -> Start
        requires { (acceptance (bytes_of bytes)).refusal ≡ 0 }
        ensures { result ≡ fresh_on (bytes_of bytes.entry) }
    {
        let setup = given(accept(bytes));
        let store = given(fresh(&setup));
        Start { setup, store }
    }

    #[tactic(auto, using(crate::proofs::Twelve::q_unrefused))]
    pub fn q() -> Start
        ensures { result ≡ fresh_on setup_q }
    {
        Start::fresh_on(SetupBytes {
            desks: 3,
            classes: 2,
            processes: 3,
            files: 2,
            rights: &[2, 0, 1, 2, 0, 1],
            desk: &[0, 1, 2],
            class: &[0, 1],
        })
    }

    #[tactic(auto, using(crate::proofs::Twelve::eight_unrefused))]
    pub fn eight() -> Start
        ensures { result ≡ fresh_on setup8 }
    {
        Start::fresh_on(SetupBytes {
            desks: 2,
            classes: 1,
            processes: 2,
            files: 1,
            rights: &[1, 3],
            desk: &[0, 1],
            class: &[0],
        })
    }

    // Q with a store that is not fresh: process 0 locks file 0, writes 5, unlocks; process 1 opens; process 0 locks.
    #[tactic(auto, using(crate::proofs::Twelve::in_use_left), unfolding(crate::specs::Trials::Leaves))]
    pub fn q_in_use() -> Start
        ensures { result ≡ q_in_use }
    {
        let q = Start::q();
        let store = q.left_by(&[3, 0, 0, 0, 2, 0, 0, 5, 4, 0, 0, 0, 5, 1, 0, 0, 3, 0, 0, 0]);
        Start { store, ..q }
    }
}
