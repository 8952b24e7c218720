//! Tests of what a program that embeds a heap has over it: a cache, a pipe, several owners, a store, a census, and
//! the worked programs.
#![tactic(auto)]

#[cfg(test)]
mod cached;
#[cfg(test)]
mod caches;
#[cfg(test)]
mod censuses;
#[cfg(test)]
mod collections;
#[cfg(test)]
mod driver;
#[cfg(test)]
mod embedding;
#[cfg(test)]
mod expect;
#[cfg(test)]
mod leaving;
#[cfg(test)]
mod piping;
#[cfg(test)]
mod stores;
#[cfg(test)]
mod stores_beside_lists;
