//! What a scan of the hazard words has read.

ghost use Rattle.std.specs.Prelude.{◌≡◌, replicate, slice_set};
ghost use Rattle.step_parts.specs.hazard.Retired.{is_held};
ghost use Rattle.step_parts.specs.declared.hazard.limits.TheConstants.{HELD_MOST};

use crate::hazard::limits::HELD_MOST;
use std::marker::Model;
use word_table::name::name_of_desc;

/// For each caller, that of caller 0 first, the descriptor that its hazard word named when a scan
/// read it.
///
/// A descriptor is named by its index plus 1. Of a word that names none that the heap has, and of one
/// that was not read, nothing is noted but 0: no other descriptor is retired, so a scan asks for no
/// other. So 16 bits for each caller are enough, and a point stays small.
#[derive(Clone, Copy)]
pub struct Held {
    names: [u16; HELD_MOST],
}

impl Model for Held {
    ghost use Rattle.std.specs.Prelude.{ℕ, List};

    ghost Value = { List ℕ };

    ghost view = { λ h. h.names };

    ghost inverse = { λ names. record { names = names } };
}

impl Held {
    /// No word is read yet.
    pub fn nothing() -> Held
        ensures { result ≡ replicate HELD_MOST 0 }
    {
        Held {
            names: [0; HELD_MOST],
        }
    }

    /// Notes what the hazard word of caller `at` names; of a caller that no heap has, nothing.
    pub fn note(&mut self, at: u8, name: u16)
        ensures { self.new ≡ slice_set self.old at name }
    {
        if usize::from(at) < self.names.len() {
            self.names[usize::from(at)] = name;
        }
    }

    /// Whether one of the words named this descriptor.
    pub fn names(&self, desc: u16) -> bool
        ensures { result ≡ is_held self.now desc }
    {
        self.names
            .iter()
            .any(|name| u64::from(*name) == name_of_desc(desc))
    }
}
