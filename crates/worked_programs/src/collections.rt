//! Collections of std in heaps of fixed size: of two threads, and of one whose memory ends.

pub mod alone;
pub mod build;
pub mod shared;
mod work;
