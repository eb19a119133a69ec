// Filling the grid of a table of links, a column for each desk that hears: one search finds how far every desk stands from it.
ghost use Rattle.std.specs.Prelude.{◌≡◌, ◌++◌, ◌*◌, ◌<◌, ◌≤◌, length, drop};
ghost use Rattle.rules.specs.Sizes.{most_desks};
ghost use Rattle.reaching.specs.Tables.{most_pairs, links_in};
ghost use Rattle.grids.specs.Grids.{links_or_none, grid_place, grid_over};
ghost use Rattle.grids.specs.Columns.{column_of, with_column};

use reaching::nearing::{FAR, LINKS, reach};

// The number of links, and 0 for FAR, which is no route. No Option: the room that C lends holds 0 there, as `links_or_none` of specs/ says.
fn links_or_none(count: u8) -> u32
    ensures { result ≡ links_or_none count }
{
    if count < FAR { count as u32 } else { 0 }
}

// Where the number for desks a and b lies: row by the desk that is heard from.
fn place_of(desks: usize, a: usize, b: usize) -> usize
    requires { (desks ≤ most_desks) × (a < desks) × (b < desks) }
    ensures value { result ≡ grid_place desks a b }
    ensures inside { result < desks * desks }
{
    a * desks + b
}

// Column b: the number of every desk, each in its row; there are as many desks as numbers of links.
#[tactic(auto, unfolding(crate::specs::Columns::with_column))]
fn put_column(room: &mut [u32], to: &[u8], b: usize)
    requires { (length to.now ≤ most_desks) × (b < length to.now) × (length to.now * length to.now ≤ length room.old) }
    ensures { room.new ≡ with_column (length to.now) b (column_of to.now) (length to.now) room.old }
{
    for (a, &count) in to.iter().enumerate() {
        room[place_of(to.len(), a, b)] = links_or_none(count);
    }
}

pub fn fill(links: &[u8], desks: usize, room: &mut [u32])
    requires { (length links.now ≡ most_pairs) × (desks ≤ most_desks) × (desks * desks ≤ length room.old) }
    ensures { room.new ≡ grid_over (links_in links.now) desks ++ drop (desks * desks) room.old }
{
    for b in 0..desks {
        let to = reach(links, b, LINKS);
        put_column(room, &to[..desks], b);
    }
}
