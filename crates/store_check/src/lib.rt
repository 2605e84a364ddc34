//! A store of counted nodes, over pieces of three kinds. All of it is tests: they stand here, so that the store isn't proved again for them.
#![tactic(auto)]

#[cfg(test)]
mod calls;
#[cfg(test)]
mod pieces;
#[cfg(test)]
mod stores;
