// In how few links each desk reaches a desk.
ghost use Rattle.std.specs.Prelude.{◌≡◌, ◌<◌, ◌≤◌, eqb, length, get_or};
ghost use Rattle.rules.specs.Sizes.{most_desks, some_below, table};
ghost use Rattle.chains.specs.Chains.{most_links, nearer, reach};
ghost use Rattle.reaching.specs.Tables.{most_pairs, links_in};

use crate::leading::leads_on;
use rules::DESKS;
use std::array;

// The most links that a chain needs.
pub const LINKS: usize = DESKS - 1;

// A number past every number of links that a chain needs.
// No Option where there is none: docs/DECISIONS.md names `reach`, and its clause is `reach` of chains, which holds that number there.
pub const FAR: u8 = DESKS as u8;

// The number that stood at d, and where none did one more than n if a link leads to a desk that stands n links from the end.
#[tactic(auto, using(crate::proofs::Nearer::nearer_was, crate::proofs::Nearer::nearer_one, crate::proofs::Nearer::nearer_none))]
fn nearer_at(links: &[u8], before: &[u8; DESKS], n: usize, d: usize) -> u8
    requires { (length links.now ≡ most_pairs) × (n < most_links) × (d < most_desks) }
    ensures { result ≡ nearer (links_in links.now) before.now n d }
{
    let was = before[d];
    if was < FAR {
        return was;
    }
    let level = n as u8;
    if leads_on(links, before, d, level) {
        level + 1
    } else {
        FAR
    }
}

fn nearer(links: &[u8], before: &[u8; DESKS], n: usize) -> [u8; DESKS]
    requires { (length links.now ≡ most_pairs) × (n < most_links) }
    ensures { result ≡ table most_desks (nearer (links_in links.now) before.now n) }
{
    array::from_fn(|d| nearer_at(links, before, n, d))
}

// Some desk stands k links from the end.
fn stands(to: &[u8], k: u8) -> bool
    ensures { result ≡ some_below (length to.now) (λ e. eqb (get_or to.now e 0) k) }
{
    to.contains(&k)
}

// Answers for all desks at once: a call of itself for each desk would be as many calls a level as there are desks.
pub fn reach(links: &[u8], b: usize, n: usize) -> [u8; DESKS]
    requires { (length links.now ≡ most_pairs) × (b < most_desks) × (n ≤ most_links) }
    ensures { result ≡ reach (links_in links.now) b n }
{
    if n == 0 {
        let mut to = [FAR; DESKS];
        to[b] = 0;
        return to;
    }
    let less = n - 1;
    let before = reach(links, b, less);
    // No link leads to a desk that stands there if none does.
    if !stands(&before, less as u8) {
        return before;
    }
    nearer(links, &before, less)
}
