// Showing a way by a table of links: a setup's, or those with a desk taken out.
ghost use Rattle.std.specs.Prelude.{◌≡◌};
ghost use Rattle.reaching.specs.Tables.{links_in};
ghost use Rattle.routes.specs.Reports.{with_route};
ghost use Rattle.routes.specs.Writers.{calls_along, Asked};

use crate::writing::write_route;
use reaching::nearing::{FAR, LINKS, reach};
use rules::Setup;

// Writes the list along the chain from desk a to desk b, and answers its number of calls; none, and nothing written, where there is no chain.
pub fn show_route(setup: &Setup, links: &[u8], a: usize, b: usize, room: &mut [u32]) -> Option<u32>
    requires { Asked setup.now links.now a b room.old }
    ensures value { result ≡ calls_along (links_in links.now) a b }
    ensures room { room.new ≡ with_route setup.now (links_in links.now) a b room.old }
{
    let to = reach(links, b, LINKS);
    if FAR <= to[a] {
        return None;
    }
    let calls = write_route(setup, links, &to, a, room);
    Some(calls as u32)
}
