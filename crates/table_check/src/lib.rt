//! What no trace can show of values under numbers, handles, names and fences: numbers past those of a trace, and the order in which a display's handles go. All of it is tests: they stand here, so that those crates aren't proved again for each of them.
#![tactic(auto)]

#[cfg(test)]
mod fences;
#[cfg(test)]
mod group_names;
#[cfg(test)]
mod handles;
#[cfg(test)]
mod values;
