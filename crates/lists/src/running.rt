// Running a list of calls: the refusals of the list as a whole, the loop, and the entry.
ghost use Rattle.std.specs.Prelude.{◌≡◌, true, ◌++◌, ◌+◌, ◌*◌, ◌≤◌, length, set, drop};
ghost use Rattle.rules.specs.Setups.{accepted};
ghost use Rattle.rules.specs.Calls.{calls_in, calls_of};
ghost use Rattle.rules.specs.Answers.{kind_of, value_of, done_numbers_of};
ghost use Rattle.rules.specs.Refusals.{refusal_of, numbered};
ghost use Rattle.lists.specs.Lists.{answer_width, end_of, answers_over, in_numbers, list_refusal, listed, answers_after};

use crate::{ANSWER_WIDTH, Listed};
use calling::entry::run_one;
use judging::fitting::judge;
use rules::{Answer, CALL_WIDTH, CALLS, Numbered, Numbers, Refusal, Setup, Store};

// The answer to call i, as two numbers at its place.
fn put(answers: &mut [u32], i: usize, answer: Answer)
    requires { i * answer_width + answer_width ≤ length answers.old }
    ensures { answers.new ≡ set (set answers.old (i * answer_width) (kind_of answer)) (i * answer_width + 1) (value_of answer) }
{
    let at = i * ANSWER_WIDTH;
    let n = Numbered::from(answer);
    answers[at] = n.kind;
    answers[at + 1] = n.value;
}

// Runs every call of a list in order, on one store that each call changes in one place. A refused call gets its answer, and the
// list goes on.
fn run_all(setup: &Setup, store: &mut Store, calls: &[u32], answers: &mut [u32])
    requires { (accepted setup.now ≡ true) × (calls_in calls.now * answer_width ≤ length answers.old) }
    ensures ends { store.new ≡ end_of setup.now store.old (calls_of calls.now) }
    ensures answered { answers.new ≡ in_numbers (answers_over setup.now store.old (calls_of calls.now)) ++ drop (calls_in calls.now * answer_width) answers.old }
{
    let (quads, _) = calls.as_chunks::<CALL_WIDTH>();
    for (i, &[operation, process, file, extra]) in quads.iter().enumerate() {
        let n = Numbers {
            operation,
            process,
            file,
            extra,
        };
        let answer = run_one(setup, store, n);
        put(answers, i, answer);
    }
}

// What is held against a list as a whole: the order is 15, 16, 10, 11.
#[tactic(auto, using(crate::proofs::Lists::list_judged, crate::proofs::Lists::list_unjudged, crate::proofs::Lists::refused_not_0))]
fn list_refusal(setup: &Setup, store: &Store, numbers: usize, room: usize) -> Result<(), Refusal>
    ensures { refusal_of result ≡ list_refusal setup.now store.now numbers room }
{
    judge(setup, store)?;
    if numbers % CALL_WIDTH != 0 {
        return Err(Refusal::WrongLength);
    }
    if CALLS * CALL_WIDTH < numbers {
        return Err(Refusal::WrongLength);
    }
    if room < numbers / CALL_WIDTH * ANSWER_WIDTH {
        return Err(Refusal::TooLittleRoom);
    }
    Ok(())
}

// Runs a list on the store; a refused list runs nothing and writes nothing. The number of calls run.
#[tactic(auto, using(crate::proofs::Lists::list_sound, crate::proofs::Lists::refused_not_0, crate::proofs::Lists::listed_stops, crate::proofs::Lists::room_stops, crate::proofs::Lists::listed_runs, crate::proofs::Lists::room_runs))]
fn run_on(
    setup: &Setup,
    store: &mut Store,
    calls: &[u32],
    answers: &mut [u32],
) -> Result<u32, Refusal>
    ensures value { (numbered result, store.new) ≡ listed setup.now store.old calls.now answers.old }
    ensures room { answers.new ≡ answers_after setup.now store.old calls.now answers.old }
{
    list_refusal(setup, store, calls.len(), answers.len())?;
    run_all(setup, store, calls, answers);
    Ok((calls.len() / CALL_WIDTH) as u32)
}

// Entry: runs a list. The setup and the store are judged once.
pub fn run(setup: Setup, mut store: Store, calls: &[u32], answers: &mut [u32]) -> Listed
    ensures value { (numbered result.answer, result.store) ≡ listed setup store calls.now answers.old }
    ensures room { answers.new ≡ answers_after setup store calls.now answers.old }
    ensures numbers { done_numbers_of (numbered result.answer) ≡ done_numbers_of (listed setup store calls.now answers.old).0 }
{
    let answer = run_on(&setup, &mut store, calls, answers);
    Listed { answer, store }
}
