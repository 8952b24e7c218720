//! The rule of the region, and what its steps tell.
use atomic_region::{Play, RegionRule};
use atomic_table::Split;

/// The key is how many words the lock is over.
pub struct Law;

impl RegionRule<bool, usize> for Law {
    ghost use Rattle.std.specs.Prelude.{false};
    ghost use Rattle.region_tests.specs.Lock.{Holds};

    ghost holds = { λ n s. Holds n s };

    ghost first = { λ _. false };
}

/// The word 0 becomes 1 where it was as expected, and the others are taken.
pub struct Tries;

impl Play<bool> for Tries {
    ghost use Rattle.std.specs.Prelude.{◌-◌};
    ghost use Rattle.region_tests.specs.Lock.{Tried};

    ghost then = { λ st v x w. Tried (st.words - 1) st.first v x w };
}

/// The words are given back.
pub struct Ends;

impl Play<bool> for Ends {
    ghost use Rattle.std.specs.Prelude.{◌≡◌};
    ghost use Rattle.region_tests.specs.Lock.{idle};

    ghost then = { λ st v x w. w ≡ idle };
}

/// Two seats that hold nothing.
pub struct Both;

impl Split<bool> for Both {
    ghost use Rattle.std.specs.Prelude.{false};

    ghost left = { λ _. false };

    ghost right = { λ _. false };
}
