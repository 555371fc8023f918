//! A file is stored in the plain store, and fetched from it; a root is copied from one plain store into another.
#![tactic(auto)]

#[cfg(test)]
mod answer;
#[cfg(test)]
mod copies;
#[cfg(test)]
mod count;
#[cfg(test)]
mod files;
#[cfg(test)]
mod held;
#[cfg(test)]
mod plain;
