// The lowest process of a desk, and the lowest file that serves a link. Clauses of this crate ask that a desk is one of the desks and a setup
// accepted, and no type does: docs/ names the functions, and a type would ask more of who calls them.
ghost use Rattle.std.specs.Prelude.{◌≡◌, true, ◌<◌};
ghost use Rattle.rules.specs.Sizes.{most_desks};
ghost use Rattle.rules.specs.Setups.{accepted};
ghost use Rattle.rules.specs.Links.{serves};
ghost use Rattle.chains.specs.Chains.{process_at, file_for};

use crate::searching::lowest;
use judging::rights::{entry_at, has_r, has_w, right};
use rules::Setup;

// The lowest process that sits at desk d, below the number of processes, and that number where none does.
// No Option: docs/DECISIONS.md names it, it could not fail before and still cannot, and its clause is `process_at` of chains, which is that number.
#[tactic(auto, using(crate::proofs::Linked::processes_le))]
pub fn lowest_process(setup: &Setup, d: usize) -> usize
    requires { (accepted setup.now ≡ true) × (d < most_desks) }
    ensures { result ≡ process_at setup.now d }
{
    lowest(setup.processes as usize, |p| setup.desk[p] as usize == d)
}

// Desk d writes and desk e reads the class of file f.
fn serves(setup: &Setup, d: usize, e: usize, f: usize) -> bool
    requires { (d < most_desks) × (e < most_desks) }
    ensures { result ≡ serves setup.now d e f }
{
    let t = entry_at(&setup.class, f);
    has_w(right(setup, d as u8, t)) && has_r(right(setup, e as u8, t))
}

// The lowest file that serves, below the number of files, and that number where none does.
// No Option: docs/DECISIONS.md names it too, it could not fail before and still cannot, and its clause is `file_for` of chains, with that number.
pub fn file_for(setup: &Setup, d: usize, e: usize) -> usize
    requires { (d < most_desks) × (e < most_desks) }
    ensures { result ≡ file_for setup.now d e }
{
    lowest(setup.files as usize, |f| serves(setup, d, e, f))
}
