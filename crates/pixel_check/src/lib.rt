//! Images that share their bytes, the largest uploads and clears, and what textures keep: what no trace can show of the crates of pixels. All of it is tests: they stand here, so that the crates below aren't proved again for each of them.
#![tactic(auto)]

#[cfg(test)]
mod images;
#[cfg(test)]
mod sharing;
#[cfg(test)]
mod textures;
#[cfg(test)]
mod whole_writes;
