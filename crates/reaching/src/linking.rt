// The table of links, desks by desks: made once a report or a grid, so that whether a link runs is asked of it; which file serves it, of the setup.
// And a desk is taken out of it.
ghost use Rattle.std.specs.Prelude.{◌≡◌, true, ℕ, ◌<◌, length, get_or};
ghost use Rattle.rules.specs.Sizes.{most_desks};
ghost use Rattle.rules.specs.Setups.{accepted};
ghost use Rattle.rules.specs.Links.{linked};
ghost use Rattle.chains.specs.Chains.{others, links_among};
ghost use Rattle.reaching.specs.Tables.{mark, marks_of, is_served, linked_by, most_pairs, pairs_of, links_in};

use judging::rights::{has_r, has_w};
use rules::{CLASSES, DESKS, RIGHTS, Setup};
use std::array;

// A mark for each desk and desk, 1 where a link runs.
// Lent as &[u8], no &[bool; PAIRS]: docs/DECISIONS.md names take_out, reach, links_of; two take any numbers of that length, and would ask more.
pub const PAIRS: usize = DESKS * DESKS;

// Marks each number below N that stands among the entries.
fn marks_of<const N: usize>(entries: &[u8]) -> [bool; N]
    requires { (i : ℕ) → i < length entries.now → get_or entries.now i 0 < N }
    ensures { result ≡ marks_of N entries.now }
{
    let mut marks = [false; N];
    for at in entries {
        marks[*at as usize] = true;
    }
    marks
}

// What a setup's links are told by: the rights, the desks that have a process, and the classes that have a file.
#[derive(Drop)]
struct Tables<'a> {
    rights: &'a [u8; RIGHTS],
    seats: [bool; DESKS],
    filed: [bool; CLASSES],
}

impl Tables<'_> {
    // Some class that has a file is one that desk d may write and desk e may read. No `any`: it was slower (see `leads_on`).
    #[tactic(auto, using(crate::proofs::Marked::some_none, crate::proofs::Marked::some_more))]
    fn is_served(&self, d: usize, e: usize) -> bool
        requires { (d < most_desks) × (e < most_desks) }
        ensures { result ≡ is_served self.now.rights.now self.now.filed d e }
    {
        let mut some = false;
        for t in 0..CLASSES {
            some |= self.filed[t]
                & has_w(self.rights[d * CLASSES + t])
                & has_r(self.rights[e * CLASSES + t]);
        }
        some
    }

    // Each of the two desks has a process, and some class serves.
    fn mark_of(&self, d: usize, e: usize) -> u8
        requires { (d < most_desks) × (e < most_desks) }
        ensures { result ≡ mark (linked_by self.now.rights.now self.now.seats self.now.filed d e) }
    {
        u8::from(self.seats[d] && self.seats[e] && self.is_served(d, e))
    }

    fn pairs(&self) -> [u8; PAIRS]
        ensures { result ≡ pairs_of (linked_by self.now.rights.now self.now.seats self.now.filed) }
    {
        array::from_fn(|i| self.mark_of(i / DESKS, i % DESKS))
    }
}

// The links of a setup.
#[tactic(auto, using(crate::proofs::Linked::processes_le, crate::proofs::Linked::files_le))]
pub fn links_of(setup: &Setup) -> [u8; PAIRS]
    requires { accepted setup.now ≡ true }
    ensures { links_in result ≡ linked setup.now }
{
    let desks = &setup.desk[..setup.processes as usize];
    let classes = &setup.class[..setup.files as usize];
    let tables = Tables {
        rights: &setup.rights,
        seats: marks_of(desks),
        filed: marks_of(classes),
    };
    tables.pairs()
}

// Takes desk c out: of the links none runs from it any more, and none to it. One loop over places: a row by `fill` and a column by `step_by` are two.
pub fn take_out(links: &mut [u8], c: usize)
    requires { (length links.old ≡ most_pairs) × (c < most_desks) }
    ensures { links_in links.new ≡ links_among (others c) (links_in links.old) }
{
    for d in 0..DESKS {
        links[c * DESKS + d] = 0;
        links[d * DESKS + c] = 0;
    }
}
