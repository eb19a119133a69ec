// The route report: its refusals and its entry.
ghost use Rattle.std.specs.Prelude.{◌≡◌, length};
ghost use Rattle.rules.specs.Refusals.{refusal_of, numbered};
ghost use Rattle.rules.specs.Answers.{told_numbers_of};
ghost use Rattle.routes.specs.Reports.{route_refusal, routed, room_after};
ghost use Rattle.routes.specs.Demand3.{Demand3};

use crate::ROUTE_NUMBERS;
use crate::showing::show_route;
use judging::fitting::accepted;
use reaching::linking::links_of;
use rules::{Refusal, Setup};

// The order is 15, 12, 13, 11.
#[tactic(auto, unfolding(crate::specs::Reports::route_refusal))]
fn route_refusal(setup: &Setup, a: u32, b: u32, room: usize) -> Result<(), Refusal>
    ensures { refusal_of result ≡ route_refusal setup.now a b room }
{
    if !accepted(setup) {
        return Err(Refusal::NotAccepted);
    }
    if setup.desks <= a {
        return Err(Refusal::NoSuchRouteDesk);
    }
    if setup.desks <= b {
        return Err(Refusal::NoSuchRouteDesk);
    }
    if a == b {
        return Err(Refusal::SameDesk);
    }
    if room < ROUTE_NUMBERS {
        return Err(Refusal::TooLittleRoom);
    }
    Ok(())
}

// Entry: whether desk a can be heard by desk b, and the list of calls that shows it; the answer is how many they are, and none where there is
// no route. A refused route writes nothing.
#[tactic(auto, using(crate::proofs::Reports::refused_told, crate::proofs::Reports::refused_numbers))]
pub fn report(setup: Setup, a: u32, b: u32, room: &mut [u32]) -> Result<Option<u32>, Refusal>
    ensures value { numbered result ≡ routed setup a b (length room.old) }
    ensures room { room.new ≡ room_after setup a b room.old }
    ensures demand3 { Demand3 setup a b (numbered result) room.new }
    ensures numbers { told_numbers_of (numbered result) ≡ told_numbers_of (routed setup a b (length room.old)) }
{
    route_refusal(&setup, a, b, room.len())?;
    let links = links_of(&setup);
    let calls = show_route(&setup, &links, a as usize, b as usize, room);
    Ok(calls)
}
