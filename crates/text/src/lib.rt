// Reading texts by the line rules.
#![tactic(auto)]

mod calls;
pub mod reading;
mod setups;

ghost use Rattle.std.specs.Prelude.{◌≡◌};
ghost use Rattle.text.specs.Stages.{fault};

use lines::Fault;
use rules::Refusal;

fn fault(refusal: Refusal, at: usize) -> Fault
    ensures { result ≡ fault refusal at }
{
    Fault { refusal, at }
}
