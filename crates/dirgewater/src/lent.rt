// The store lent in place: one call on the store that lies in the host's memory.
ghost use Rattle.std.specs.Prelude.{◌≡◌};
ghost use Rattle.rules.specs.Calls.{numbers};
ghost use Rattle.rules.specs.Answers.{numbers_of, pair_of};
ghost use Rattle.rules.specs.Entries.{called};

use crate::call_numbered;
use rules::{Numbered, Setup, Store};

// Entry: one call in place. The store is copied out, the call made by value, and the next store put where the old one lay.
#[unsafe(no_mangle)]
pub extern "C" fn dw_call_in_place(
    setup: Setup,
    store: &mut Store,
    op: u32,
    p: u32,
    f: u32,
    x: u32,
) -> Numbered
    ensures { let c = called setup store.old (numbers op p f x) in
        (pair_of result ≡ numbers_of c.answer) × (store.new ≡ c.store) }
{
    let outcome = call_numbered(setup, *store, op, p, f, x);
    *store = outcome.store;
    outcome.numbered
}
