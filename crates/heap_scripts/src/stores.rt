//! Random scripts of calls on a store, beside a plain list and plain records that are to be the same; and
//! meanwhile another caller of the heap allocates and frees blocks.

mod plain;
pub mod rival;
mod script;
pub mod sums;
pub mod together;
pub mod twin;
