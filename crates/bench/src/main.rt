//! Measures what the driver stands on or will stand on, and calls made through the library.
//!
//! The first word is the part that is measured: `store`, `tables`, `pbuffers`, `pixels`, `windows`, `screens` or `threads`; or `exhausted`, which measures nothing. Alone it does a little
//! of it, and prints what is the same on every run; with no word each part does so. The words behind it are those of
//! `USAGE`: with them the part does all, and prints what that took.
#![tactic(auto)]

mod calls;
mod exhausted;
mod extents;
mod memory;
mod pbuffers;
mod pixels;
mod screens;
mod store;
mod tables;
mod threads;
mod windows;

use anyhow::{Result, bail};
use extents::Extent;
use std::env;
use std::rt::{Clock, Files};
use std::sync::Wait;
use std::thread::Threads;

const USAGE: &str =
    "usage: bench [store [time] | tables [passing | NAME SIZE] | pbuffers [measure] | pixels [measure] | windows [measure] | screens [measure] | threads [time] | exhausted]";

const PARTS: [&str; 8] = [
    "store",
    "tables",
    "pbuffers",
    "pixels",
    "windows",
    "screens",
    "threads",
    "exhausted",
];

/// Does a part.
fn part<R: Clock + Files + Print + AllocGlobal + Threads + Wait + Sync>(
    rt: &R,
    name: &str,
    extent: Extent,
) -> Result<()> {
    match name {
        "store" => store::run(rt, extent),
        "tables" => tables::run(rt),
        "pbuffers" => pbuffers::run(rt, extent),
        "pixels" => pixels::run(rt, extent),
        "windows" => windows::run(rt, extent),
        "screens" => screens::run(rt, extent),
        "threads" => threads::run(rt, extent),
        "exhausted" => exhausted::run(rt),
        _ => bail!("{USAGE}"),
    }
}

fn run<R: Clock + Files + Print + AllocGlobal + Threads + Wait + Sync>(
    rt: &R,
    words: &[&str],
) -> Result<()> {
    match words {
        [] => {
            for name in PARTS {
                part(rt, name, Extent::Little)?;
            }
            Ok(())
        }
        [name] => part(rt, name, Extent::Little),
        ["tables", "passing"] => tables::pass(rt),
        ["tables", name, size] => tables::time_one(rt, name, size),
        [name, "time" | "measure"] => part(rt, name, Extent::Full),
        _ => bail!("{USAGE}"),
    }
}

fn main(rt: HostRuntime) -> Result<()> {
    let mut words = Vec::new(rt.alloc());
    for word in env::args(&rt)?.skip(1) {
        words.push(word)?;
    }
    let mut texts = Vec::new(rt.alloc());
    for word in &words {
        texts.push(word.as_str())?;
    }
    run(&rt, texts.as_slice())
}
