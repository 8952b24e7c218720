//! The kinds of workload.

/// What the lanes of a workload do. Each lane makes its share of the rounds, and what a round draws
/// comes from one generator for all lanes.
#[derive(Clone, Copy, Debug, PartialEq, Eq)]
pub enum Kind {
    /// A round allocates one word and frees it.
    Scalability,
    /// Rounds come in batches: a batch allocates its blocks of 7 words one after the other, and then
    /// checks and frees each.
    Threadtest,
    /// A round draws a register, frees what it holds, and allocates 1 to 63 words into it. So blocks
    /// of many sizes live for a while; at the end a lane frees what it holds.
    Larson,
    /// Lanes work in pairs: one allocates blocks of 3 words and puts each on a shelf, the other takes
    /// and frees them.
    Pipeline,
}
