// The links that lead from a desk to one that stands nearer to the end of a chain.
ghost use Rattle.std.specs.Prelude.{◌≡◌, ◌<◌, length};
ghost use Rattle.rules.specs.Sizes.{most_desks, some_below};
ghost use Rattle.chains.specs.Chains.{leads, next_desk};
ghost use Rattle.reaching.specs.Tables.{most_pairs, links_in};

use crate::searching::lowest;
use rules::DESKS;

// The lowest desk that has a link from d and stands k links from the end, and the number of desks where there is none.
// No Option: docs/DECISIONS.md names it, it could not fail before and still cannot, and its clause is `next_desk` of chains, which is that number.
pub fn next_desk(links: &[u8], to: &[u8], d: usize, k: usize) -> usize
    requires { (length links.now ≡ most_pairs) × (length to.now ≡ most_desks) × (d < most_desks) }
    ensures { result ≡ next_desk (links_in links.now) to.now d k }
{
    lowest(
        DESKS,
        |e| (links[d * DESKS + e] == 1) & (to[e] as usize == k),
    )
}

// Some desk has a link from d and stands k links from the end. No `any`: with one in both loops that ask so, a grid of desks in a line
// took 8.8 times the peer, past its ceiling of 8, and takes 2.5 with none; the other is `is_served`.
#[tactic(auto, using(crate::proofs::Marked::some_none, crate::proofs::Marked::some_more, crate::proofs::Linked::leads_told))]
pub fn leads_on(links: &[u8], to: &[u8], d: usize, k: u8) -> bool
    requires { (length links.now ≡ most_pairs) × (length to.now ≡ most_desks) × (d < most_desks) }
    ensures { result ≡ some_below most_desks (leads (links_in links.now) to.now d k) }
{
    let mut some = false;
    for e in 0..DESKS {
        some |= (links[d * DESKS + e] == 1) & (to[e] == k);
    }
    some
}
