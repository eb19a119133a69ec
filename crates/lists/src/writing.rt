// Writing calls into a lent run of numbers.
ghost use Rattle.std.specs.Prelude.{◌≡◌, [], ◌∷◌, ◌+◌, ◌*◌, ◌≤◌, length};
ghost use Rattle.rules.specs.Calls.{call_width};
ghost use Rattle.lists.specs.Writers.{with_calls};

use rules::{CALL_WIDTH, Numbers};

// Call i of the list, as its numbers at its place. The run and the place are no struct here: who reads a list counts its calls for itself
// (text), and who writes one has a struct (`CallList` of routes).
#[tactic(auto, unfolding(crate::specs::Writers::with_calls, rules::specs::Calls::in_quads))]
pub fn put_call(room: &mut [u32], i: usize, n: Numbers)
    requires { i * call_width + call_width ≤ length room.old }
    ensures { room.new ≡ with_calls room.old i (n ∷ []) }
{
    let at = i * CALL_WIDTH;
    room[at..at + CALL_WIDTH].copy_from_slice(&[n.operation, n.process, n.file, n.extra]);
}
