// The gate report: its refusals and its entry.
ghost use Rattle.std.specs.Prelude.{◌≡◌, length};
ghost use Rattle.rules.specs.Refusals.{refusal_of, numbered};
ghost use Rattle.rules.specs.Answers.{told_numbers_of};
ghost use Rattle.gates.specs.Gates.{gate_refusal, gated, room_after, GateTells};

use judging::fitting::accepted;
use reaching::linking::{links_of, take_out};
use routes::ROUTE_NUMBERS;
use routes::showing::show_route;
use rules::{Refusal, Setup};

// The order is 15, 12, 13, 11, as a route's. No one function over [u32; N]: 13 would search all pairs, where two and three desks say it in a line.
#[tactic(auto, unfolding(crate::specs::Gates::gate_refusal))]
fn gate_refusal(setup: &Setup, a: u32, b: u32, c: u32, room: usize) -> Result<(), Refusal>
    ensures { refusal_of result ≡ gate_refusal setup.now a b c room }
{
    if !accepted(setup) {
        return Err(Refusal::NotAccepted);
    }
    let desks = setup.desks;
    if (desks <= a) | (desks <= b) | (desks <= c) {
        return Err(Refusal::NoSuchRouteDesk);
    }
    if (a == b) | (a == c) | (b == c) {
        return Err(Refusal::SameDesk);
    }
    if room < ROUTE_NUMBERS {
        return Err(Refusal::TooLittleRoom);
    }
    Ok(())
}

// Entry: whether desk b can hear desk a though desk c makes no call, and the list of calls that shows it; the answer is how many they are, and
// none where desk c guards. "Guarded" and a refusal write nothing.
#[tactic(auto, using(crate::proofs::Whole::refused_told, crate::proofs::Whole::refused_numbers))]
pub fn gate(setup: Setup, a: u32, b: u32, c: u32, room: &mut [u32]) -> Result<Option<u32>, Refusal>
    ensures value { numbered result ≡ gated setup a b c (length room.old) }
    ensures room { room.new ≡ room_after setup a b c room.old }
    ensures guarded { GateTells setup a b c (numbered result) room.new }
    ensures numbers { told_numbers_of (numbered result) ≡ told_numbers_of (gated setup a b c (length room.old)) }
{
    gate_refusal(&setup, a, b, c, room.len())?;
    let mut links = links_of(&setup);
    take_out(&mut links, c as usize);
    let calls = show_route(&setup, &links, a as usize, b as usize, room);
    Ok(calls)
}
