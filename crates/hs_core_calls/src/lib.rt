//! Events of a core with two copies of a shard, which no case and no program of the gate has.
#![tactic(auto)]

#[cfg(test)]
mod copies;
