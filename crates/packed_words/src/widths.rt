//! How many bits each field of a packed word has, and at which bit it begins.

/// The bits of an anchor's first available block, and of the link from a free block to the next.
pub const AVAIL_BITS: u32 = 11;

/// The bits of an anchor's count.
pub const COUNT_BITS: u32 = 11;

/// The bits of a state's code.
pub const STATE_BITS: u32 = 2;

/// The bits of an anchor's tag.
pub const TAG_BITS: u32 = 40;

/// Where an anchor's count begins.
pub const COUNT_AT: u32 = AVAIL_BITS;

/// Where an anchor's state begins.
pub const STATE_AT: u32 = COUNT_AT + COUNT_BITS;

/// Where an anchor's tag begins.
pub const TAG_AT: u32 = STATE_AT + STATE_BITS;

/// The bits of an active word's credits, above which its descriptor stands.
pub const CREDIT_BITS: u32 = 6;

/// The bits of a descriptor's index.
pub const DESC_BITS: u32 = 16;

/// Every descriptor's index is below.
pub const DESC_LIMIT: u64 = 1 << DESC_BITS;

/// The bits of the top of a stack, above which the head's tag stands.
pub const TOP_BITS: u32 = 16;

/// The bits of the tag in the head of a stack.
pub const HEAD_TAG_BITS: u32 = 48;

/// The bits that tell the prefix of a large block, 1, from that of a small one, 0.
pub const KIND_BITS: u32 = 1;

/// The bits of a superblock's frame.
pub const FRAME_BITS: u32 = 16;

/// The bits of a superblock's processor heap.
pub const HEAP_BITS: u32 = 8;

/// The bits of a superblock's class.
pub const CLASS_BITS: u32 = 8;

/// Where the processor heap of a superblock begins.
pub const HEAP_AT: u32 = FRAME_BITS;

/// Where the class of a superblock begins.
pub const CLASS_AT: u32 = HEAP_AT + HEAP_BITS;

/// The bits of the code of a handed-over block's need, above which its place stands.
pub const CODE_BITS: u32 = 7;
