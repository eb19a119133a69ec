// The right of a process's desk on a file's class.
ghost use Rattle.std.specs.Prelude.{◌≡◌, get_or};
ghost use Rattle.rules.specs.Setups.{has_r, has_w, desk_of, class_of, right_of, may_write};

use rules::{BOTH, CLASSES, R, Setup, W};

// An entry of a table, and 0 past its end.
pub fn entry_at(entries: &[u8], at: usize) -> u8
    ensures { result ≡ get_or entries.now at 0 }
{
    entries.get(at).copied().unwrap_or(0)
}

// The right of desk d on class t; as bytes, since a place of any two numbers could overflow.
pub fn right(setup: &Setup, d: u8, t: u8) -> u8
    ensures { result ≡ right_of setup.now d t }
{
    entry_at(&setup.rights, d as usize * CLASSES + t as usize)
}

pub fn right_of(setup: &Setup, p: usize, f: usize) -> u8
    ensures { result ≡ right_of setup.now (desk_of setup.now p) (class_of setup.now f) }
{
    right(setup, entry_at(&setup.desk, p), entry_at(&setup.class, f))
}

// R and W by a function each: one over both would be called with the constant, which says no more. A right past BOTH is neither.
pub fn has_r(right: u8) -> bool
    ensures { result ≡ has_r right }
{
    (right == R) | (right == BOTH)
}

pub fn has_w(right: u8) -> bool
    ensures { result ≡ has_w right }
{
    (right == W) | (right == BOTH)
}

#[tactic(auto, unfolding(rules::specs::Setups::may_write))]
pub fn may_write(setup: &Setup, p: usize, f: usize) -> bool
    ensures { result ≡ may_write setup.now p f }
{
    has_w(right_of(setup, p, f))
}
