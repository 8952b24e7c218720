//! The descriptors that a caller retired.

ghost use Rattle.std.specs.Prelude.{◌≡◌, ◌<◌, ◌≤◌, ◌++◌, ◌∷◌, ◌==◌, [], length, take, position, Contains};
ghost use Rattle.step_parts.specs.hazard.Retired.{first_unheld, without};
ghost use Rattle.step_parts.specs.declared.hazard.limits.TheConstants.{RETIRED_MOST};

use crate::hazard::held::Held;
use crate::hazard::limits::RETIRED_MOST;
use std::marker::Model;

/// A list of retired descriptors, the longest retired first.
#[derive(Drop)]
pub struct Retired {
    items: [u16; RETIRED_MOST],
    len: u8,
}

impl Model for Retired {
    ghost use Rattle.std.specs.Prelude.{ℕ, List, ◌≤◌, take};
    ghost use Rattle.step_parts.specs.declared.hazard.limits.TheConstants.{RETIRED_MOST};

    ghost Value = { List ℕ };

    ghost view = { λ r. take r.len r.items };

    ghost invariant = { λ r. r.len ≤ RETIRED_MOST };
}

impl Retired {
    /// An empty list.
    pub fn new() -> Retired
        ensures { result ≡ [] }
    {
        Retired {
            items: [0; RETIRED_MOST],
            len: 0,
        }
    }

    /// How many descriptors are listed.
    pub fn len(&self) -> u32
        ensures value { result ≡ length self.now }
        ensures within { length self.now ≤ RETIRED_MOST }
    {
        u32::from(self.len)
    }

    /// Adds a descriptor at the end.
    pub fn add(&mut self, desc: u16)
        requires { length self.old < RETIRED_MOST }
        ensures { self.new ≡ self.old ++ desc ∷ [] }
    {
        self.items[usize::from(self.len)] = desc;
        self.len += 1;
    }

    /// Takes a descriptor off the list. The others keep their order.
    pub fn remove(&mut self, desc: u16)
        requires { Contains self.old desc }
        ensures { self.new ≡ without desc self.old }
    {
        let len = usize::from(self.len);
        if let Some(at) = place_of(&self.items[..len], desc) {
            self.items.copy_within(at + 1..len, at);
            self.len -= 1;
        }
    }

    /// The first descriptor of the list that none of the hazard words names; `None` where each is
    /// named.
    pub fn pick(&self, held: &Held) -> Option<u16>
        ensures { result ≡ first_unheld held.now self.now }
    {
        let len = usize::from(self.len);
        self.items[..len].iter().copied().find(|d| !held.names(*d))
    }
}

/// The first place of the descriptor in the list.
fn place_of(listed: &[u16], desc: u16) -> Option<usize>
    ensures { result ≡ position (λ d. d == desc) listed.now }
{
    listed.iter().position(|d| *d == desc)
}
