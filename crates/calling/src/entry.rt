// The entry: one call on a setup and a store that are judged first.
ghost use Rattle.std.specs.Prelude.{◌≡◌, ◌<◌, true};
ghost use Rattle.rules.specs.Sizes.{most_processes, most_files};
ghost use Rattle.rules.specs.Setups.{accepted};
ghost use Rattle.rules.specs.Stores.{is_open};
ghost use Rattle.rules.specs.Calls.{answer_to, next_store};
ghost use Rattle.rules.specs.Parts.{process_of, file_of, changeable};
ghost use Rattle.rules.specs.Answers.{numbers_of};
ghost use Rattle.calling.specs.Looking.{right_in, looks_on, looks_at};
ghost use Rattle.rules.specs.Entries.{called, ran};

use crate::decoding::decode;
use crate::stepping::step;
use crate::{Looks, Meeting};
use judging::fitting::judge;
use judging::rights::{entry_at, has_r, has_w};
use rules::{Answer, CLASSES, Call, Called, Numbers, Setup, Store};

#[tactic(auto, using(rules::proofs::Codes::numbers_process))]
pub fn process_of(call: Call) -> u32
    ensures { result ≡ process_of call }
{
    Numbers::from(call).process
}

#[tactic(auto, using(rules::proofs::Codes::numbers_file))]
pub fn file_of(call: Call) -> u32
    ensures { result ≡ file_of call }
{
    Numbers::from(call).file
}

// The one file that a call can change.
pub fn changeable(call: Call) -> u32
    ensures { result ≡ changeable call }
{
    match call {
        Call::Copy(_, _, x) => x,
        _ => file_of(call),
    }
}

fn is_open(mark: u8) -> bool
    ensures { result ≡ is_open mark }
{
    mark == 1
}

// The right of a process's desk on a file's class, from a setup's three tables.
fn right_in(rights: &[u8], desk: &[u8], class: &[u8], p: usize, f: usize) -> u8
    ensures { result ≡ right_in rights.now desk.now class.now p f }
{
    let d = entry_at(desk, p) as usize;
    let t = entry_at(class, f) as usize;
    entry_at(rights, d * CLASSES + t)
}

// What a call looks at, of any tables and meetings; the tables are lent, so that none is copied for a call.
pub fn look_on(
    rights: &[u8],
    desk: &[u8],
    class: &[u8],
    call: Call,
    source: Meeting,
    target: Meeting,
) -> Looks
    ensures { result ≡ looks_on rights.now desk.now class.now call source target }
{
    let p = process_of(call) as usize;
    let f = file_of(call) as usize;
    let x = changeable(call) as usize;
    let own = right_in(rights, desk, class, p, f);
    // It is looked up anew only where the file that the call can change is another.
    let other = if x == f {
        own
    } else {
        right_in(rights, desk, class, p, x)
    };
    Looks {
        r: has_r(own),
        w: has_w(other),
        opened: is_open(source.mark),
        holder: source.holder,
        content: source.content,
        target,
    }
}

// The setup and the store are lent, so that neither is copied for a call.
// That the call's numbers are in range is asked by clauses, here and below: a Call is any call, and so the laws of rules and views have it.
fn look_at(setup: &Setup, store: &Store, call: Call) -> Looks
    requires { (process_of call < most_processes) × (file_of call < most_files) × (changeable call < most_files) }
    ensures { result ≡ looks_at setup.now store.now call }
{
    let p = process_of(call) as usize;
    let source = Meeting::of(store, p, file_of(call) as usize);
    let target = Meeting::of(store, p, changeable(call) as usize);
    look_on(
        &setup.rights,
        &setup.desk,
        &setup.class,
        call,
        source,
        target,
    )
}

// A call that exists, on a setup and a store that were judged: its answer, and the next store in the place of the store.
#[inline]
#[tactic(auto, using(crate::proofs::Turns::turned))]
fn make(setup: &Setup, store: &mut Store, call: Call) -> Answer
    requires { (process_of call < most_processes) × (file_of call < most_files) × (changeable call < most_files) }
    ensures answer { result ≡ answer_to setup.now store.old call }
    ensures next { store.new ≡ next_store setup.now store.old call }
{
    let look = look_at(setup, store, call);
    let turn = step(call, look);
    let meeting = turn.meeting;
    meeting.put(store, process_of(call) as usize, changeable(call) as usize);
    turn.answer
}

// A call's numbers, on a setup and a store that were judged; a refused call leaves the store as it is.
// A list of refused calls takes about half the time where this is inlined, which `inline` alone leaves open.
#[inline(always)]
#[tactic(auto, using(crate::proofs::Ranges::process_lt, crate::proofs::Ranges::file_lt, crate::proofs::Ranges::changed_lt, rules::proofs::Decodes::ran_is, crate::proofs::Ran::ran_refused))]
pub fn run_one(setup: &Setup, store: &mut Store, n: Numbers) -> Answer
    requires { accepted setup.now ≡ true }
    ensures answer { result ≡ (ran setup.now store.old n).answer }
    ensures next { store.new ≡ (ran setup.now store.old n).store }
{
    match decode(setup, n) {
        Ok(call) => make(setup, store, call),
        Err(refusal) => refusal.into(),
    }
}

// Entry: one call. The setup and the store are judged first; a refused call hands the store back as it was.
#[tactic(auto, using(crate::proofs::Ran::accepted_by, crate::proofs::Ran::called_ran, crate::proofs::Ran::called_refused_by))]
pub fn call(setup: Setup, mut store: Store, n: Numbers) -> Called
    ensures value { result ≡ called setup store n }
    ensures numbers { numbers_of result.answer ≡ numbers_of (called setup store n).answer }
{
    let answer = match judge(&setup, &store) {
        Ok(()) => run_one(&setup, &mut store, n),
        Err(refusal) => refusal.into(),
    };
    Called { answer, store }
}
