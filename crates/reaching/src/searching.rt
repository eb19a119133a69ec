// The lowest number of which something is so: the search that the lowest process, the lowest file and the next desk share.
ghost use Rattle.std.specs.Prelude.{ℕ, true, false, ◌<◌, ◌≤◌};

// The lowest number below n of which it is so, and n where there is none. No `find`: 01 asks of links and files a loop left by a label or a `break`
// with a value, and 02's Req 03 of processes a search from 0 upward that stops at the first match.
pub(crate) fn lowest<F: Fn(usize) -> bool>(n: usize, is: F) -> usize
    requires { (i : ℕ) → i < n → F.pre is i }
    ensures within { result ≤ n }
    ensures none_below { (i : ℕ) → i < result → F.post is i false }
    ensures found { result < n → F.post is result true }
{
    'lowest: {
        for i in 0..n {
            if is(i) {
                break 'lowest i;
            }
        }
        n
    }
}
