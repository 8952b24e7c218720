//! Tests of commands over edges in memory: what is reported of traces, words and texts that are refused, edges that
//! fail, and the commands that read nothing. Whole runs over such edges serve other tests too.
#![tactic(auto)]

#[cfg(test)]
mod caches;
#[cfg(test)]
mod censuses;
#[cfg(test)]
mod edges;
#[cfg(test)]
mod generated;
#[cfg(test)]
mod refusals;
#[cfg(test)]
mod replays;
pub mod running;
#[cfg(test)]
mod schedules;
#[cfg(test)]
mod statuses;
#[cfg(test)]
mod stores;
#[cfg(test)]
mod texts;
