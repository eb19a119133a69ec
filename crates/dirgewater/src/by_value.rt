// The entries over structs by value, for C: each is the proved entry of a crate below, under a name that C links.
ghost use Rattle.std.specs.Prelude.{◌≡◌, length};
ghost use Rattle.rules.specs.Setups.{setup_bytes};
ghost use Rattle.rules.specs.Calls.{numbers};
ghost use Rattle.rules.specs.Answers.{numbers_of, pair_of, done_numbers_of, told_numbers_of};
ghost use Rattle.rules.specs.Refusals.{judge_refusal};
ghost use Rattle.rules.specs.Entries.{acceptance, freshness, called};
ghost use Rattle.lists.specs.Lists.{listed, answers_after};
ghost use Rattle.routes.specs.Reports.{routed};
ghost use Rattle.routes.specs.Reports as route;
ghost use Rattle.routes.specs.Demand3.{Demand3};
ghost use Rattle.gates.specs.Gates.{gated, GateTells};
ghost use Rattle.gates.specs.Gates as gate;
ghost use Rattle.grids.specs.Grids.{gridded, GridTells};
ghost use Rattle.grids.specs.Grids as grid;

use crate::{Outcome, call_numbered};
use gates::gate::gate;
use grids::grid::grid;
use judging::accepting::{SetupBytes, accept};
use judging::fitting::{fresh, judge};
use lists::running::run;
use routes::report::report;
use rules::{GivenSetup, GivenStore, Numbered, Refusal, Setup, Store};

// Entry: the setup that the counts and the slices give, or their refusal.
#[unsafe(no_mangle)]
pub extern "C" fn dw_accept(
    desks: u32,
    classes: u32,
    processes: u32,
    files: u32,
    rights: &[u8],
    desk: &[u8],
    class: &[u8],
) -> GivenSetup
    ensures { result ≡ acceptance (setup_bytes desks classes processes files rights.now desk.now class.now) }
{
    let given = SetupBytes {
        desks,
        classes,
        processes,
        files,
        rights,
        desk,
        class,
    };
    accept(given).into()
}

// Entry: a fresh store for the setup, or its refusal.
#[unsafe(no_mangle)]
pub extern "C" fn dw_fresh(setup: Setup) -> GivenStore
    ensures { result ≡ freshness setup }
{
    fresh(&setup).into()
}

// Entry: 0 where the setup could have been accepted and the store fits it, else 15 or 16.
#[unsafe(no_mangle)]
pub extern "C" fn dw_judge(setup: Setup, store: Store) -> u32
    ensures { result ≡ judge_refusal setup store }
{
    judge(&setup, &store).err().map_or(0, Refusal::number)
}

// Entry: one call by value.
#[unsafe(no_mangle)]
pub extern "C" fn dw_call(setup: Setup, store: Store, op: u32, p: u32, f: u32, x: u32) -> Outcome
    ensures { let c = called setup store (numbers op p f x) in
        (pair_of result.numbered ≡ numbers_of c.answer) × (result.store ≡ c.store) }
{
    call_numbered(setup, store, op, p, f, x)
}

// Entry: a list of calls, four numbers each, answered two numbers each.
#[unsafe(no_mangle)]
pub extern "C" fn dw_run(setup: Setup, store: Store, calls: &[u32], answers: &mut [u32]) -> Outcome
    ensures fact { let l = listed setup store calls.now answers.old in
        (pair_of result.numbered ≡ done_numbers_of l.0) × (result.store ≡ l.1) }
    ensures room { answers.new ≡ answers_after setup store calls.now answers.old }
{
    run(setup, store, calls, answers).into()
}

// Entry: whether desk a can be heard by desk b, and the list of calls that shows it.
#[unsafe(no_mangle)]
pub extern "C" fn dw_route(setup: Setup, a: u32, b: u32, room: &mut [u32]) -> Numbered
    ensures fact { pair_of result ≡ told_numbers_of (routed setup a b (length room.old)) }
    ensures room { room.new ≡ route.room_after setup a b room.old }
    ensures demand3 { Demand3 setup a b (routed setup a b (length room.old)) room.new }
{
    report(setup, a, b, room).into()
}

// Entry: whether all that desk b can hear of desk a passes the gate desk, and else the list of calls that goes around it.
#[unsafe(no_mangle)]
pub extern "C" fn dw_gate(setup: Setup, a: u32, b: u32, c: u32, room: &mut [u32]) -> Numbered
    ensures fact { pair_of result ≡ told_numbers_of (gated setup a b c (length room.old)) }
    ensures room { room.new ≡ gate.room_after setup a b c room.old }
    ensures guarded { GateTells setup a b c (gated setup a b c (length room.old)) room.new }
{
    gate(setup, a, b, c, room).into()
}

// Entry: the number of links from every desk to every desk at once.
#[unsafe(no_mangle)]
pub extern "C" fn dw_grid(setup: Setup, room: &mut [u32]) -> Numbered
    ensures fact { pair_of result ≡ done_numbers_of (gridded setup (length room.old)) }
    ensures room { room.new ≡ grid.room_after setup room.old }
    ensures demand3 { GridTells setup (gridded setup (length room.old)) room.new }
{
    grid(setup, room).into()
}
