//! What bounds the calls of all callers: what they win and lose of each other, and how far each is from its end.

pub mod calls_end;
pub mod lost_exchanges;
