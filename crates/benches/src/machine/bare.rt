//! Memory accesses alone.

ghost use Rattle.heap_geometry.specs.Geometry.{IsChecked};

use heap_geometry::geometry::Geometry;
use heap_scripts::random::Random;
use std::alloc::{AllocError, Global};
use word_table::layout::Layout;

/// Loads a word, compares it and stores it, so many times, at random places of a table of as many words
/// as a heap has.
pub fn access(alloc: Global, seed: u64, count: u64, geometry: Geometry) -> Result<u64, AllocError>
    requires { IsChecked geometry }
{
    let words = Layout::new(geometry).words();
    let mut table = vec![in alloc; 0u64; words as usize]?;
    let mut random = Random::new(seed, 0);
    let mut sum: u64 = 0;
    for number in 0..count {
        if words > 0 {
            let place = random.below(words) as usize;
            if let Some(word) = table.get_mut(place) {
                if *word == sum {
                    sum = sum.wrapping_add(1);
                    *word = sum;
                } else {
                    *word = number;
                }
            }
        }
    }
    Ok(sum)
}
