//! The calls of the top at concrete types, where no case makes them.
#![tactic(auto)]

#[cfg(test)]
mod loads;
#[cfg(test)]
mod tests;
