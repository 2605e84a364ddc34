//! A long run: a trace of 100,000 lines over the calls of displays, configs, pbuffers, contexts that share, threads, names, textures, renderbuffers, framebuffers, images and pixels.
//!
//! It prints the sum of the trace and that of its recording, which `bench/long_run_model` works out apart from the driver. Then it holds the recording against the trace.
use crate::playing::answer;
use anyhow::{Context, Result};
use std::alloc::Global;
use std::sync::Wait;
use std::thread::Threads;

/// The names between braces: how many times the number of a turn is taken, modulo what, and what is added to that. Any other name stands for the turn's number.
const NAMES: [(&str, u64, u64, u64); 4] = [
    ("red", 257, 65_537, 0),
    ("level", 1, 11, 0),
    ("config", 1, 8, 1),
    ("next", 1, u64::MAX, 1),
];

/// The number of a turn for which a name between braces stands.
fn number(name: &str, turn: u64) -> u64 {
    for (word, times, modulus, more) in &NAMES {
        if *word == name {
            let rest = times.wrapping_mul(turn) % (*modulus).max(1);
            return rest.wrapping_add(*more);
        }
    }
    turn
}

/// Adds lines with the numbers of a turn.
fn put_turn(alloc: Global, out: &mut String, lines: &str, turn: u64) -> Result<()> {
    for piece in lines.split('{') {
        match piece.split_once('}') {
            Some((name, rest)) => {
                let number = number(name, turn);
                out.push_str(&format!(in alloc; "{number}{rest}")?)?;
            }
            None => out.push_str(piece)?,
        }
    }
    Ok(())
}

/// The trace that a file of turns spells, as docs/FORMATS.md says.
fn trace_of(alloc: Global, text: &str) -> Result<String> {
    let mut out = String::new(alloc);
    for part in text.split("turns ").skip(1) {
        let (count, lines) = part.split_once('\n').context("turns have no lines")?;
        let lines = lines.strip_suffix("\\\n").unwrap_or(lines);
        for turn in 0..count.parse::<u64>()? {
            put_turn(alloc, &mut out, lines, turn)?;
        }
    }
    Ok(out)
}

/// The sum of Fowler, Noll and Vo, 1a, of 64 bits.
fn sum_of(bytes: &[u8]) -> u64 {
    let mut sum = 14_695_981_039_346_656_037u64;
    for byte in bytes {
        sum = (sum ^ u64::from(*byte)).wrapping_mul(1_099_511_628_211);
    }
    sum
}

/// Plays the trace of a file by turns, and prints the sums, the exit status, and what a check of the recording says.
pub fn long_run<R: Print + AllocGlobal + Threads + Wait + Sync>(rt: &R, text: &str) -> Result<()> {
    let mut input = trace_of(rt.alloc(), text)?.into_bytes();
    println!(rt; "trace: {} bytes, sum {}", input.len(), sum_of(&input))?;
    let (status, recording) = answer(rt, "serial", &input)?;
    let recording = recording.taken();
    println!(rt; "status: {status}")?;
    println!(rt;
        "recording: {} bytes, sum {}",
        recording.len(),
        sum_of(recording)
    )?;
    input.extend_from_slice(recording)?;
    let (status, verdict) = answer(rt, "check", &input)?;
    let text = str::from_utf8(verdict.taken())?;
    print!(rt; "check: status {status}, {text}")?;
    Ok(())
}
