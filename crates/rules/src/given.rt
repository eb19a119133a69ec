// The stores and the setup that are made of nothing, and an entry's result as C is handed it, which has no Result.
ghost use Rattle.std.specs.Prelude.{◌≡◌};
ghost use Rattle.rules.specs.Setups.{blank_setup};
ghost use Rattle.rules.specs.Stores.{store_of, fresh_store, misfit};
ghost use Rattle.rules.specs.Entries.{given_setup, given_store};

use crate::{
    FILES, GivenSetup, GivenStore, MARKS, PROCESSES, RIGHTS, Refusal, Setup, Store, UNWRITTEN,
};

// An open mark is 0 or 1, so a store with this one throughout fits no setup.
const NO_MARK: u8 = 2;

impl Setup {
    // No count lies inside its sizes.
    #[tactic(auto, unfolding(crate::specs::Setups::blank_setup))]
    pub fn blank() -> Setup
        ensures { result ≡ blank_setup }
    {
        Setup {
            desks: 0,
            classes: 0,
            processes: 0,
            files: 0,
            rights: [0; RIGHTS],
            desk: [0; PROCESSES],
            class: [0; FILES],
        }
    }
}

impl Store {
    #[tactic(auto, unfolding(crate::specs::Stores::fresh_store))]
    pub fn fresh() -> Store
        ensures { result ≡ fresh_store }
    {
        Store::of(0)
    }

    #[tactic(auto, unfolding(crate::specs::Stores::misfit))]
    fn misfit() -> Store
        ensures { result ≡ misfit }
    {
        Store::of(NO_MARK)
    }

    // Nothing locked, nothing written, and one open mark throughout.
    fn of(mark: u8) -> Store
        ensures { result ≡ store_of mark }
    {
        Store {
            holders: [0; FILES],
            cells: [UNWRITTEN; FILES],
            marks: [mark; MARKS],
        }
    }
}

impl From<Result<Setup, Refusal>> for GivenSetup {
    ghost from_gives = { λ accepted given. given ≡ given_setup accepted };

    fn from(accepted: Result<Setup, Refusal>) -> GivenSetup {
        match accepted {
            Ok(setup) => GivenSetup { refusal: 0, setup },
            Err(refusal) => GivenSetup {
                refusal: refusal.number(),
                setup: Setup::blank(),
            },
        }
    }
}

impl From<Result<Store, Refusal>> for GivenStore {
    ghost from_gives = { λ fresh given. given ≡ given_store fresh };

    fn from(fresh: Result<Store, Refusal>) -> GivenStore {
        match fresh {
            Ok(store) => GivenStore { refusal: 0, store },
            Err(refusal) => GivenStore {
                refusal: refusal.number(),
                store: Store::misfit(),
            },
        }
    }
}
