// Accepting a setup that is handed in as four counts and three slices.
ghost use Rattle.std.specs.Prelude.{◌≡◌, ◌<◌, ◌≤◌, get_or};
ghost use Rattle.rules.specs.Sizes.{most_desks, most_classes, table};
ghost use Rattle.rules.specs.Setups.{given_right, given_rights, setup_from};
ghost use Rattle.rules.specs.Refusals.{refusal_of, slices_match, some_from, setup_refusal};
ghost use Rattle.rules.specs.Entries.{given_setup, acceptance};
ghost use Rattle.judging.specs.Given.{bytes_of};

use crate::fitting::within_sizes;
use crate::rights::entry_at;
use rules::{BOTH, CLASSES, FILES, PROCESSES, RIGHTS, Refusal, Setup};
use std::array;

// A setup handed in as bytes: the four counts, as numbers, and three slices.
#[derive(Clone, Copy)]
pub struct SetupBytes<'a> {
    pub desks: u32,
    pub classes: u32,
    pub processes: u32,
    pub files: u32,
    // The rights row by desk, the desk of each process, and the class of each file.
    pub rights: &'a [u8],
    pub desk: &'a [u8],
    pub class: &'a [u8],
}

// The right that rights given row by desk have for a desk and a class; past the counts there is none. That the counts lie inside their sizes
// is asked by clauses, here and below: a SetupBytes is any that a caller hands in.
#[tactic(auto, unfolding(rules::specs::Setups::given_right))]
fn given_right(rights: &[u8], classes: usize, d: usize, t: usize) -> u8
    requires { (classes ≤ most_classes) × (d < most_desks) }
    ensures { result ≡ given_right rights.now classes d t }
{
    if t < classes {
        entry_at(rights, d * classes + t)
    } else {
        0
    }
}

fn given_rights(rights: &[u8], classes: usize) -> [u8; RIGHTS]
    requires { classes ≤ most_classes }
    ensures { result ≡ given_rights rights.now classes }
{
    array::from_fn(|i| given_right(rights, classes, i / CLASSES, i % CLASSES))
}

// The entries at the front, and 0 past them.
fn laid_out<const N: usize>(entries: &[u8]) -> [u8; N]
    ensures { result ≡ table N (λ i. get_or entries.now i 0) }
{
    array::from_fn(|i| entry_at(entries, i))
}

#[tactic(auto, unfolding(rules::specs::Refusals::slices_match))]
fn slices_match(given: SetupBytes<'_>) -> bool
    requires { (given.desks ≤ most_desks) × (given.classes ≤ most_classes) }
    ensures { result ≡ slices_match (bytes_of given.entry) }
{
    (given.rights.len() == given.desks as usize * given.classes as usize)
        & (given.desk.len() == given.processes as usize)
        & (given.class.len() == given.files as usize)
}

// Some entry is the bound or more.
fn some_from(entries: &[u8], bound: usize) -> bool
    ensures { result ≡ some_from bound entries.now }
{
    entries.iter().any(|entry| *entry as usize >= bound)
}

// The order of refusals is 1, 10, 2, 3, 4, and no product is made before 1 is ruled out.
#[tactic(auto, unfolding(rules::specs::Refusals::setup_refusal))]
fn setup_refusal(given: SetupBytes<'_>) -> Result<(), Refusal>
    ensures { refusal_of result ≡ setup_refusal (bytes_of given.entry) }
{
    if !within_sizes(given.desks, given.classes, given.processes, given.files) {
        return Err(Refusal::CountOutside);
    }
    if !slices_match(given) {
        return Err(Refusal::WrongLength);
    }
    if some_from(given.rights, BOTH as usize + 1) {
        return Err(Refusal::RightAbove);
    }
    if some_from(given.desk, given.desks as usize) {
        return Err(Refusal::NoSuchDesk);
    }
    if some_from(given.class, given.classes as usize) {
        return Err(Refusal::NoSuchClass);
    }
    Ok(())
}

#[tactic(auto, unfolding(rules::specs::Setups::setup_from))]
fn setup_from(given: SetupBytes<'_>) -> Setup
    requires { given.classes ≤ most_classes }
    ensures { result ≡ setup_from (bytes_of given.entry) }
{
    Setup {
        desks: given.desks,
        classes: given.classes,
        processes: given.processes,
        files: given.files,
        rights: given_rights(given.rights, given.classes as usize),
        desk: laid_out(given.desk),
        class: laid_out(given.class),
    }
}

// Entry: the setup that the counts and the slices give, or their refusal.
#[tactic(auto, using(crate::proofs::Acceptances::bytes_refused, crate::proofs::Acceptances::bytes_taken, crate::proofs::Acceptances::classes_inside))]
pub fn accept(given: SetupBytes<'_>) -> Result<Setup, Refusal>
    ensures { given_setup result ≡ acceptance (bytes_of given.entry) }
{
    setup_refusal(given)?;
    Ok(setup_from(given))
}
