//! A store that workers of a book drive in turn, and the same script run line by line.
#![tactic(auto)]

#[cfg(test)]
mod asking;
#[cfg(test)]
mod comparing;
#[cfg(test)]
mod driving;
#[cfg(test)]
mod fault;
#[cfg(test)]
mod opening;
#[cfg(test)]
mod script;
#[cfg(test)]
mod settling;
#[cfg(test)]
mod stand;
#[cfg(test)]
mod tests;
#[cfg(test)]
mod working;
