// The twelve sheets of trial, run through the entries. That every check passes is proved from the table's one claim. Calls and answers
// are numbers here, as the table has them and as the entry for a list is lent them.
#![tactic(auto)]

mod comparing;
mod starting;

use crate::starting::Start;
use check::expect;
use routes::ROUTE_NUMBERS;
use rules::{CALL_WIDTH, Refusal};

// A room one number short of what every list fits into.
const SHORT_ROOM: usize = ROUTE_NUMBERS - 1;

// The six calls of case 7.
const SEVEN: [u32; 6 * CALL_WIDTH] = [
    5, 1, 0, 0, 3, 0, 0, 0, 1, 1, 0, 0, 2, 0, 0, 6, 4, 0, 0, 0, 1, 1, 0, 0,
];

// The nine calls of the program case.
const NINE: [u32; 9 * CALL_WIDTH] = [
    3, 0, 0, 0, 2, 0, 0, 1, 4, 0, 0, 0, 5, 1, 0, 0, 3, 1, 1, 0, 8, 1, 0, 1, 4, 1, 1, 0, 5, 2, 1, 0,
    1, 2, 1, 0,
];

// How many numbers the first three of them take.
const THREE: usize = 3 * CALL_WIDTH;

fn cases_1_to_7() {
    let q = Start::q();
    // 1: OPEN and READ of an unwritten file: nothing.
    expect(q.answers(&[5, 1, 0, 0, 1, 1, 0, 0], &[0, 0, 0, 0]));
    // 2: WRITE with no lock, OPEN, READ: nothing.
    expect(q.answers(&[2, 0, 0, 5, 5, 1, 0, 0, 1, 1, 0, 0], &[0, 0, 0, 0, 0, 0]));
    // 3: LOCK, TESTLOCK with no R: nothing.
    expect(q.answers(&[3, 0, 0, 0, 7, 0, 0, 0], &[0, 0, 0, 0]));
    // 4: READ by process 3: refusal 6; READ of an unopened file: nothing.
    expect(q.answers(&[1, 3, 0, 0], &[4, 6]));
    expect(q.answers(&[1, 2, 1, 0], &[0, 0]));
    // 5: operation 9 by process 9: refusal 5.
    expect(q.answers(&[9, 9, 0, 0], &[4, 5]));
    // 6: OPEN, LOCK by another, READ: nothing.
    expect(q.answers(&[5, 1, 0, 0, 3, 0, 0, 0, 1, 1, 0, 0], &[0, 0, 0, 0, 0, 0]));
    // 7: the same, WRITE of 6, UNLOCK, READ with no second OPEN: figure 6.
    expect(q.answers(&SEVEN, &[0, 0, 0, 0, 0, 0, 0, 0, 0, 0, 1, 6]));
}

// OPEN by desk 0, LOCK and TESTLOCK by desk 1: yes; and yes without desk 0's call.
fn case_8() {
    let eight = Start::eight();
    expect(eight.answers(&[5, 0, 0, 0, 3, 1, 0, 0, 7, 1, 0, 0], &[0, 0, 0, 0, 2, 0]));
    expect(eight.answers(&[3, 1, 0, 0, 7, 1, 0, 0], &[0, 0, 2, 0]));
    expect(eight.reports(0, 1, ROUTE_NUMBERS, Ok(None), 0, 0, &[]));
}

// The report's list, its answers, and its answers with the first three calls removed.
fn case_9() {
    let q = Start::q();
    expect(q.reports(0, 2, ROUTE_NUMBERS, Ok(Some(9)), 1, 9, &NINE));
    expect(q.answers(
        &NINE,
        &[0, 0, 0, 0, 0, 0, 0, 0, 0, 0, 0, 0, 0, 0, 0, 0, 1, 1],
    ));
    expect(q.answers(&NINE[THREE..], &[0, 0, 0, 0, 0, 0, 0, 0, 0, 0, 0, 0]));
}

fn cases_10_and_11() {
    let q = Start::q();
    // 10: 0 to 1 is 5 calls; 2 to 0 is no route.
    expect(q.reports(
        0,
        1,
        ROUTE_NUMBERS,
        Ok(Some(5)),
        1,
        5,
        &[3, 0, 0, 0, 2, 0, 0, 1, 4, 0, 0, 0, 5, 1, 0, 0, 1, 1, 0, 0],
    ));
    expect(q.reports(2, 0, ROUTE_NUMBERS, Ok(None), 0, 0, &[]));
    // 11: two equal desks: refusal 13; a room of 243: refusal 11.
    expect(q.reports(1, 1, ROUTE_NUMBERS, Err(Refusal::SameDesk), 4, 13, &[]));
    expect(q.reports(0, 2, SHORT_ROOM, Err(Refusal::TooLittleRoom), 4, 11, &[]));
}

fn cases_in_use() {
    let used = Start::q_in_use();
    // 12: no answers, and the same store.
    expect(used.answers(&[], &[]));
    expect(used.leaves(&[], used.store));
    // READ of a written file: nothing while another has it locked, figure 5, and nothing once it is closed.
    expect(used.answers(
        &[1, 1, 0, 0, 4, 0, 0, 0, 1, 1, 0, 0, 6, 1, 0, 0, 1, 1, 0, 0],
        &[0, 0, 0, 0, 1, 5, 0, 0, 0, 0],
    ));
}

fn main() {
    cases_1_to_7();
    case_8();
    case_9();
    cases_10_and_11();
    cases_in_use();
}
