//! Public calls of low crates that no case and no program of the gate makes.
#![tactic(auto)]

#[cfg(test)]
mod addresses;
mod counted;
#[cfg(test)]
mod lists;
#[cfg(test)]
mod notes;
#[cfg(test)]
mod peer_log;
#[cfg(test)]
mod plans;
#[cfg(test)]
mod reach;
