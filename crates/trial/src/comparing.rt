// What a case's check compares: what an entry answers and leaves, and what is to come out.
ghost use Rattle.std.specs.Prelude.{◌≡◌, true, ◌↔◌, ◌≤◌, ◌==◌, length};
ghost use Rattle.std.specs.List.{list_all};
ghost use Rattle.rules.specs.Refusals.{numbered};
ghost use Rattle.lists.specs.Lists.{listed};
ghost use Rattle.routes.specs.Reports.{most_route_numbers};
ghost use Rattle.trial.specs.Trials.{untouched, room_of, answers_room, written_into, Answers, Leaves, Reports};

use crate::starting::Start;
use lists::running::run;
use routes::ROUTE_NUMBERS;
use routes::report::report;
use rules::{CALL_WIDTH, Numbered, Refusal, Store};

// What a lent room holds before it is written to.
const UNTOUCHED: u32 = u32::MAX;

fn is_untouched(room: &[u32]) -> bool
    ensures { result ≡ list_all (λ n. n == untouched) room.now }
{
    room.iter().all(|n| *n == UNTOUCHED)
}

// Whether the front is written into the room, and nothing past it.
fn holds(room: &[u32], front: &[u32]) -> bool
    ensures { (result ≡ true) ↔ (room.now ≡ written_into front.now (room_of (length room.now))) }
{
    room.strip_prefix(front).is_some_and(is_untouched)
}

impl Start {
    // Whether the list is run and answers so.
    pub fn answers(&self, calls: &[u32], expected: &[u32]) -> bool
        ensures { (result ≡ true) ↔ Answers self.now.setup self.now.store calls.now expected.now }
    {
        let mut room = [UNTOUCHED; ROUTE_NUMBERS];
        let listed = run(self.setup, self.store, calls, &mut room);
        let ran = listed
            .answer
            .is_ok_and(|n| n as usize == calls.len() / CALL_WIDTH);
        ran & holds(&room, expected)
    }

    // The store that the list leaves.
    pub fn left_by(&self, calls: &[u32]) -> Store
        ensures { result ≡ (listed self.now.setup self.now.store calls.now answers_room).1 }
    {
        let mut room = [UNTOUCHED; ROUTE_NUMBERS];
        run(self.setup, self.store, calls, &mut room).store
    }

    // Whether the list leaves that store.
    pub fn leaves(&self, calls: &[u32], left: Store) -> bool
        ensures { (result ≡ true) ↔ Leaves self.now.setup self.now.store calls.now left }
    {
        self.left_by(calls) == left
    }

    // Whether the report, lent an untouched room for n numbers, answers so, as a Result and as two numbers, and writes the list.
    pub fn reports(
        &self,
        a: u32,
        b: u32,
        n: usize,
        expected: Result<Option<u32>, Refusal>,
        kind: u32,
        value: u32,
        list: &[u32],
    ) -> bool
        requires { n ≤ most_route_numbers }
        ensures { (result ≡ true) ↔ Reports self.now.setup a b n (numbered expected) (kind, value) list.now }
    {
        let mut room = [UNTOUCHED; ROUTE_NUMBERS];
        let lent = &mut room[..n];
        let answer = report(self.setup, a, b, lent);
        let told = Numbered::from(answer);
        let numbers = (told.kind == kind) & (told.value == value);
        numbers & (answer == expected) & holds(lent, list)
    }
}
