//! The calls of a mix.

ghost use Rattle.std.specs.Prelude.{◌≡◌, ◌<◌};
ghost use Rattle.heap_geometry.specs.declared.limits.TheConstants.{SHELVES};
ghost use Rattle.errand_steps.specs.Begins.{IsIdle};
ghost use Rattle.step_machine.specs.Cores.{errand_at};

use crate::command::Mix;
use heap_geometry::limits::{CLASSES, SMALL_MOST};
use heap_geometry::need::usable;
use heap_scripts::random::Random;
use pool_model::owner::Owner;
use std::alloc::{AllocError, Global};
use step_machine::machine::Core;

/// How many shelves are used.
const USED_SHELVES: u32 = 4;

/// The place of the block that each caller was given or took last, until it frees it or puts it on a
/// shelf. That the caller owns it is asked of the machine, which looks through the events for it.
#[derive(Drop)]
pub struct Hands {
    places: Vec<Option<u32>>,
}

impl Hands {
    /// Nothing is held.
    pub fn new(alloc: Global, callers: u32) -> Result<Hands, AllocError> {
        Ok(Hands {
            places: vec![in alloc; None; callers as usize]?,
        })
    }

    /// The place in the caller's hand.
    fn place(&self, caller: u32) -> Option<u32> {
        self.places.get(caller as usize).copied().flatten()
    }

    /// Puts another place into the caller's hand, or none.
    pub fn set(&mut self, caller: u32, place: Option<u32>) {
        if let Some(held) = self.places.get_mut(caller as usize) {
            *held = place;
        }
    }
}

/// The usable words that are asked for next: of each class as often, and seldom of a large block.
fn next_need(random: &mut Random) -> u32 {
    if random.below(64) == 0 {
        SMALL_MOST + 1 + random.below(3000)
    } else {
        let class = random.below(u32::from(CLASSES));
        random.below(2 << class)
    }
}

/// The shelf of the next call that has one.
fn next_shelf(random: &mut Random) -> u8
    ensures { result < SHELVES }
{
    random.below(USED_SHELVES) as u8
}

/// Begins a call of the mix.
pub fn begin(core: &mut Core, hands: &mut Hands, random: &mut Random, mix: Mix, caller: u32)
    requires caller { caller < core.old.geometry.callers }
    requires idle { IsIdle (errand_at core.old.errands caller) }
    ensures { core.new.geometry ≡ core.old.geometry }
{
    if let Mix::Hold = mix {
        let _ = core.begin_alloc(caller, 1);
        return;
    }
    match hands.place(caller) {
        Some(place) => begin_on(core, hands, random, caller, place),
        None => {
            if random.below(4) == 0 {
                core.begin_take(caller, next_shelf(random));
            } else {
                let _ = core.begin_alloc(caller, next_need(random));
            }
        }
    }
}

/// Begins a call on the block at this place, where the caller still owns it.
fn begin_on(core: &mut Core, hands: &mut Hands, random: &mut Random, caller: u32, place: u32)
    requires caller { caller < core.old.geometry.callers }
    requires idle { IsIdle (errand_at core.old.errands caller) }
    ensures { core.new.geometry ≡ core.old.geometry }
{
    let Some((need, owner)) = core.block_at(place) else {
        return hands.set(caller, None);
    };
    let words = usable(need);
    if owner != Owner::Caller(caller) || words == 0 {
        return hands.set(caller, None);
    }
    match random.below(6) {
        0 => {
            let i = random.below(words);
            core.begin_write(caller, place, need, i, u64::from(place) + u64::from(i));
        }
        1 => core.begin_read(caller, place, need, random.below(words)),
        2 => core.begin_put(caller, place, need, next_shelf(random)),
        _ => {
            hands.set(caller, None);
            core.begin_free(caller, place, need);
        }
    }
}
