// The grid: its refusals and its entry.
ghost use Rattle.std.specs.Prelude.{◌≡◌, length};
ghost use Rattle.rules.specs.Refusals.{refusal_of, numbered};
ghost use Rattle.rules.specs.Answers.{done_numbers_of};
ghost use Rattle.grids.specs.Grids.{grid_refusal, gridded, room_after, GridTells};

use crate::filling::fill;
use judging::fitting::accepted;
use reaching::linking::links_of;
use rules::{Refusal, Setup};

// The order is 15, 11.
#[tactic(auto, unfolding(crate::specs::Grids::grid_refusal))]
fn grid_refusal(setup: &Setup, room: usize) -> Result<(), Refusal>
    ensures { refusal_of result ≡ grid_refusal setup.now room }
{
    if !accepted(setup) {
        return Err(Refusal::NotAccepted);
    }
    let desks = setup.desks as usize;
    if room < desks * desks {
        return Err(Refusal::TooLittleRoom);
    }
    Ok(())
}

// Entry: the number of links from every desk to every desk, into the front of the room; the answer is how many numbers that are. A refused grid
// writes nothing.
#[tactic(auto, using(crate::proofs::Whole::refused_told, crate::proofs::Whole::refused_numbers))]
pub fn grid(setup: Setup, room: &mut [u32]) -> Result<u32, Refusal>
    ensures value { numbered result ≡ gridded setup (length room.old) }
    ensures room { room.new ≡ room_after setup room.old }
    ensures demand3 { GridTells setup (numbered result) room.new }
    ensures numbers { done_numbers_of (numbered result) ≡ done_numbers_of (gridded setup (length room.old)) }
{
    grid_refusal(&setup, room.len())?;
    let desks = setup.desks as usize;
    let links = links_of(&setup);
    fill(&links, desks, room);
    let count = (desks * desks) as u32;
    Ok(count)
}
