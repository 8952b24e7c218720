//! Tests of the texts that are read and written, of what outcomes say, and of the edges that texts come from and
//! go to: in memory and over std, and the gate that lets everything pass.
#![tactic(auto)]

#[cfg(test)]
mod edges;
#[cfg(test)]
mod outcomes;
pub mod printed;
#[cfg(test)]
mod texts;
#[cfg(test)]
mod workload_texts;
