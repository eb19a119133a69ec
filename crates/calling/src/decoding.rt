// A call's numbers as a call, or their refusal.
ghost use Rattle.std.specs.Prelude.{◌≡◌};
ghost use Rattle.rules.specs.Refusals.{numbered};
ghost use Rattle.rules.specs.Entries.{decoded};

use rules::{Call, Numbers, Operation, Refusal, Setup};

// The numbers are refused in the order 5, 6, 7, 8, 9.
#[tactic(auto, unfolding(rules::specs::Entries::decoded, rules::specs::Refusals::numbers_refusal, rules::specs::Calls::call_of))]
pub fn decode(setup: &Setup, n: Numbers) -> Result<Call, Refusal>
    ensures { numbered result ≡ decoded setup.now n }
{
    let operation = Operation::try_from(n.operation)?;
    let (p, f, x) = (n.process, n.file, n.extra);
    if setup.processes <= p {
        return Err(Refusal::NoSuchProcess);
    }
    if setup.files <= f {
        return Err(Refusal::NoSuchFile);
    }
    // Asked by `if`: as arms of a match they cost a list a sixth of its time.
    if operation == Operation::Copy {
        if setup.files <= x {
            return Err(Refusal::NoSuchFile);
        }
        if x == f {
            return Err(Refusal::CopyOntoItself);
        }
    } else if operation != Operation::Write && x != 0 {
        return Err(Refusal::ExtraGiven);
    }
    Ok(match operation {
        Operation::Read => Call::Read(p, f),
        Operation::Write => Call::Write(p, f, x),
        Operation::Lock => Call::Lock(p, f),
        Operation::Unlock => Call::Unlock(p, f),
        Operation::Open => Call::Open(p, f),
        Operation::Close => Call::Close(p, f),
        Operation::Testlock => Call::Testlock(p, f),
        Operation::Copy => Call::Copy(p, f, x),
    })
}
