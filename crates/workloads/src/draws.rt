//! The draws of a workload.

ghost use Rattle.std.specs.Prelude.{◌≡◌};
ghost use Rattle.workloads.specs.Draws.{draw};

use rand_core::utils::NextWord;
use rand_pcg::Lcg64Xsh32;

/// The next 32-bit word of the generator.
#[tactic(auto, unfolding(crate::specs::Draws::draw))]
pub fn drawn(draws: &mut Lcg64Xsh32) -> u32
    ensures { (result, draws.new) ≡ draw draws.old }
{
    draws.next_word()
}
