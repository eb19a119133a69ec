// Reading call lines into a run of numbers.
ghost use Rattle.std.specs.Prelude.{◌*◌, ◌≤◌, length};
ghost use Rattle.rules.specs.Sizes.{most_calls};
ghost use Rattle.rules.specs.Calls.{call_width};
ghost use Rattle.text.specs.Stages.{CallsEnd};

use crate::fault;
use fields::shapes::call_at;
use lines::Fault;
use lists::writing::put_call;
use rules::{CALLS, Refusal};

// The call lines to the end of the text, as numbers at the front of a run that has room for the most; their number is handed out.
#[tactic(auto, using(crate::proofs::Gathered::gathered_none, crate::proofs::ReadOn::line_past, crate::proofs::Gathered::gathered_more))]
pub fn call_lines(text: &[u8], start: usize, calls: &mut [u32]) -> Result<usize, Fault>
    requires { most_calls * call_width ≤ length calls.old }
    ensures { CallsEnd text.now start result calls.old calls.new }
{
    let mut at = start;
    // Counted by hand: each line says where the next begins, and the text's end stops the loop; a `for` over the places of calls would have to
    // look for it once more after them.
    let mut count = 0;
    while at < text.len() {
        if CALLS <= count {
            return Err(fault(Refusal::BreaksRules, at));
        }
        let (next, numbers) = call_at(text, at).ok_or(fault(Refusal::BreaksRules, at))?;
        put_call(calls, count, numbers);
        at = next;
        count += 1;
    }
    Ok(count)
}
