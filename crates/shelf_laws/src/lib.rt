//! Laws of shelves: which put a take answers; and of pipes over shelves: where each sender puts on its
//! own shelves in turn and one receiver takes from them in turn, what is taken is what was sent.
#![tactic(auto)]

pub mod laws;
