//! Tests of the parts of the machine, from the packed words to errands, of the machine on one thread, and of the
//! plain pool: numbers of words, actions, steps, events and places, which are worked by hand or come from a model
//! that was written apart from the code.
#![tactic(auto)]

#[cfg(test)]
mod errands;
#[cfg(test)]
mod expect;
#[cfg(test)]
mod hazards;
#[cfg(test)]
mod heaps;
#[cfg(test)]
mod large_blocks;
#[cfg(test)]
mod machine;
#[cfg(test)]
mod needs;
#[cfg(test)]
mod packing;
#[cfg(test)]
mod partials;
#[cfg(test)]
mod plain_calls;
#[cfg(test)]
mod script;
#[cfg(test)]
mod stacks;
#[cfg(test)]
mod superblocks;
#[cfg(test)]
mod table;
#[cfg(test)]
mod walk;
