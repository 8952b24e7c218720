//! Tests of whole runs. On threads: lanes that are on their way at once, or want what only one of them can have, and
//! gates that they pass. On a machine: bounds that are met or missed by one, blocks that go from lane to lane, and in
//! which order operations pass a gate. On both: reports that are one in whatever order lanes make their steps.
#![tactic(auto)]

#[cfg(test)]
mod bounds;
#[cfg(test)]
mod contests;
#[cfg(test)]
mod gates;
#[cfg(test)]
mod handovers;
#[cfg(test)]
mod keeping;
#[cfg(test)]
mod meetings;
#[cfg(test)]
mod roomy;
#[cfg(test)]
mod turns;
