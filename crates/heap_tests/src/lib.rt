//! Tests of the heap for running threads: its calls, one after another and step by step, and what a lane is
//! told of a machine's steps.
#![tactic(auto)]

#[cfg(test)]
mod both_ways;
#[cfg(test)]
mod calls;
#[cfg(test)]
mod machine_calls;
#[cfg(test)]
mod memory;
