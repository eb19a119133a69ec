// The entries that read a text.
ghost use Rattle.std.specs.Prelude.{◌≡◌, length};
ghost use Rattle.lines.specs.Entries.{faulted, read_alone, read_with_calls, room_read, text_numbers_of};

use crate::calls::call_lines;
use crate::fault;
use crate::setups::read_setup;
use fields::shapes::calls_at;
use lines::{Fault, GivenText};
use rules::{CALL_WIDTH, CALLS, Refusal};

// Entry: a setup text read alone.
#[tactic(auto, unfolding(lines::specs::Entries::read_alone))]
pub fn read_alone(text: &[u8]) -> Result<GivenText, Fault>
    ensures value { faulted result ≡ read_alone text.now }
    ensures numbers { text_numbers_of (faulted result) ≡ text_numbers_of (read_alone text.now) }
{
    let (end, setup) = read_setup(text)?;
    // a further line
    if end < text.len() {
        return Err(fault(Refusal::BreaksRules, end));
    }
    Ok(GivenText { setup, calls: 0 })
}

// Entry: a setup text and the call text that follows it. The calls are read into a run of their own, so that a refusal
// leaves the room as it was.
#[tactic(auto, using(lines::proofs::Entries::reached_no_room, lines::proofs::Entries::reached_room), unfolding(lines::specs::Entries::read_with_calls, lines::specs::Entries::room_read, lines::specs::Entries::calls_read, rules::specs::Calls::in_quads))]
pub fn read_with_calls(text: &[u8], room: &mut [u32]) -> Result<GivenText, Fault>
    ensures value { faulted result ≡ read_with_calls text.now (length room.old) }
    ensures room { room.new ≡ room_read text.now room.old }
    ensures numbers { text_numbers_of (faulted result) ≡ text_numbers_of (read_with_calls text.now (length room.old)) }
{
    if room.len() < CALLS * CALL_WIDTH {
        return Err(fault(Refusal::TooLittleRoom, 0));
    }
    let (end, setup) = read_setup(text)?;
    let first = calls_at(text, end).ok_or(fault(Refusal::BreaksRules, end))?;
    let mut calls = [0u32; CALLS * CALL_WIDTH];
    let count = call_lines(text, first, &mut calls)?;
    let n = count * CALL_WIDTH;
    room[..n].copy_from_slice(&calls[..n]);
    let calls = count as u32;
    Ok(GivenText { setup, calls })
}
