//! What no trace can show of the crates that read and write, name, judge and keep: refusals behind the last handle, numbers past those of calls, objects' references, and readers and writers that fail or come late. All of it is tests: they stand here, so that those crates aren't proved again for each of them.
#![tactic(auto)]

#[cfg(test)]
mod numbers;
#[cfg(test)]
mod objects;
#[cfg(test)]
mod refusals;
#[cfg(test)]
mod streams;
#[cfg(test)]
mod words;
