//! An entry of a bundle.

use crate::held::Held;

/// Words, so many from the word `first` on, or none.
#[repr(C)]
#[derive(Drop)]
pub struct Entry {
    pub first: u32,
    pub size: u32,
    pub words: Held,
}
