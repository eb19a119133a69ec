// Writing the list that shows a route into a lent room.
ghost use Rattle.std.specs.Prelude.{◌≡◌, ◌++◌, ◌+◌, ◌*◌, ◌≤◌, length, get_or, drop, map};
ghost use Rattle.rules.specs.Calls.{call_width, in_quads, numbers_for};
ghost use Rattle.demand.specs.Routes.{route_calls, calls_for};
ghost use Rattle.routes.specs.Writers.{walked, Ready, Put};

use lists::writing::put_call;
use reaching::acts::{file_for, lowest_process};
use reaching::leading::next_desk;
use rules::{Call, Setup};

// The figure that desk A writes.
const SHOWN: u32 = 1;

// The room of a list, and how many calls stand at its front. It is lent whole, since what lies past them keeps its values.
#[derive(Drop)]
struct CallList<'a> {
    room: &'a mut [u32],
    calls: usize,
}

impl CallList<'_> {
    // Puts calls after those of the list.
    fn put(&mut self, calls: &[Call])
        requires { (self.old.calls + length calls.now) * call_width ≤ length self.old.room.now }
        ensures { Put self.old (map numbers_for calls.now) self.new }
    {
        for &call in calls {
            put_call(self.room, self.calls, call.into());
            self.calls += 1;
        }
    }
}

// The list along the chain from desk a, and its number of calls.
#[tactic(auto, using(crate::proofs::Written::process_le))]
pub fn write_route(setup: &Setup, links: &[u8], to: &[u8], a: usize, room: &mut [u32]) -> usize
    requires { Ready setup.now links.now to.now a room.old }
    ensures value { result ≡ calls_for (get_or to.now a 0) }
    ensures room { room.new ≡ in_quads (route_calls setup.now a (walked links.now to.now a)) ++ drop (calls_for (get_or to.now a 0) * call_width) room.old }
{
    let mut list = CallList { room, calls: 0 };
    let k = to[a] as usize - 1;
    let mut d = next_desk(links, to, a, k);
    let mut f = file_for(setup, a, d) as u32;
    let p = lowest_process(setup, a) as u32;
    // Desk A writes into the first link's file.
    list.put(&[
        Call::Lock(p, f),
        Call::Write(p, f, SHOWN),
        Call::Unlock(p, f),
    ]);
    for left in (0..k).rev() {
        let e = next_desk(links, to, d, left);
        let g = file_for(setup, d, e) as u32;
        let p = lowest_process(setup, d) as u32;
        // A middle desk copies the file before it into the next.
        list.put(&[
            Call::Open(p, f),
            Call::Lock(p, g),
            Call::Copy(p, f, g),
            Call::Unlock(p, g),
        ]);
        d = e;
        f = g;
    }
    let p = lowest_process(setup, d) as u32;
    // Desk B reads the last link's file.
    list.put(&[Call::Open(p, f), Call::Read(p, f)]);
    list.calls
}
