//! Tests of what stands above the driver, over one reading of the libraries: the reader's calls, the driver's, those of threads that share it, runs of traces, and the program's commands. What a trace can show is a worked example of `play_rows`.
#![tactic(auto)]

#[cfg(test)]
mod at_once;
#[cfg(test)]
mod commands;
#[cfg(test)]
mod crowded_beds;
#[cfg(test)]
mod crowds;
#[cfg(test)]
mod cut_runs;
#[cfg(test)]
mod drawing;
#[cfg(test)]
mod draws;
#[cfg(test)]
mod faults;
#[cfg(test)]
mod faults_in_turn;
#[cfg(test)]
mod generated;
#[cfg(test)]
mod largest_uploads;
#[cfg(test)]
mod late_texels;
#[cfg(test)]
mod local_lines;
#[cfg(test)]
mod parts;
#[cfg(test)]
mod passing;
#[cfg(test)]
mod places;
#[cfg(test)]
mod readings;
#[cfg(test)]
mod readme;
#[cfg(test)]
mod recordings;
#[cfg(test)]
mod replays;
#[cfg(test)]
mod runs;
#[cfg(test)]
mod scenes;
#[cfg(test)]
mod screens;
#[cfg(test)]
mod screens_at_once;
#[cfg(test)]
mod shared_texture;
#[cfg(test)]
mod sides;
#[cfg(test)]
mod steps;
#[cfg(test)]
mod texture_calls;
#[cfg(test)]
mod tokens;
#[cfg(test)]
mod traces;
#[cfg(test)]
mod uploads;
#[cfg(test)]
mod waits;
#[cfg(test)]
mod wakings;
