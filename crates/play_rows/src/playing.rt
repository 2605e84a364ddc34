//! What the program answers to an input, beside what is wanted.
use crate::drafts::Example;
use anyhow::{Context, Result, bail, ensure};
use egl_calls::{Bytes, Numbers, Text};
use egl_cli::{OpenGate, top};
use egl_flow::{MemorySink, MemorySource, StdSink, StdSource, Waiting};
use std::alloc::Global;
use std::rt::{Stdin, Stdout};
use std::sync::Wait;
use std::thread::Threads;
use std::time::Clock;

/// How many bytes an answer may have.
const ROOM: u64 = 33_554_432;

/// By this word an example is a scene, whose trace is played by turns.
pub const PICTURES: &str = "pictures";

/// By this word an example is played by threads at once, which may play it in another order.
pub const ANY_ORDER: &str = "any_order";

/// The words of a command as the program is given them.
fn words_of(alloc: Global, command: &str) -> Result<Vec<Text>> {
    let mut words = Vec::new(alloc);
    for word in command.split(' ') {
        words.push(Text::from_vec(Vec::from_slice(alloc, word.as_bytes())?))?;
    }
    Ok(words)
}

/// The words of `egl_judge` behind the command `judge`.
fn judge_words(alloc: Global, command: &str) -> Result<Option<Vec<Text>>> {
    match command.strip_prefix("judge") {
        Some("") => Ok(Some(Vec::new(alloc))),
        Some(words) => Ok(Some(words_of(alloc, words.trim_start_matches(' '))?)),
        None => Ok(None),
    }
}

/// The exit status of a command on an input, and what it wrote.
pub fn answer<R: AllocGlobal + Threads + Wait + Sync>(
    rt: &R,
    command: &str,
    input: &[u8],
) -> Result<(u8, MemorySink)> {
    let alloc = rt.alloc();
    let bytes = Bytes::from_vec(Vec::from_slice(alloc, input)?);
    let mut source = MemorySource::new(bytes, Numbers::new(alloc));
    let Ok(mut sink) = MemorySink::new(alloc, ROOM, Numbers::new(alloc)) else {
        bail!("no memory for a sink");
    };
    let status = match judge_words(alloc, command)? {
        Some(words) => egl_judge::top(alloc, &words, &mut source, &mut sink),
        None => {
            let words = words_of(alloc, command)?;
            top(rt, alloc, &words, &mut source, &mut sink, &OpenGate)
        }
    };
    Ok((status.number(), sink))
}

/// Does what the program does with the word `serial`, from standard input to standard output, and answers the exit status.
pub fn play_stdin<R: Clock + AllocGlobal + Threads + Wait + Sync>(
    rt: &R,
    input: Stdin,
    output: Stdout,
) -> Result<u8> {
    let words = words_of(rt.alloc(), "serial")?;
    let mut source = Waiting::new(StdSource::new(input), rt);
    let mut sink = StdSink::new(output);
    Ok(top(rt, rt.alloc(), &words, &mut source, &mut sink, &OpenGate).number())
}

/// The first line in which two texts differ, of both. Behind its end a text has empty lines.
pub fn first_difference<'a>(wanted: &'a str, found: &'a str) -> (&'a str, &'a str) {
    let mut found = found.split('\n');
    for line in wanted.split('\n') {
        let other = found.next().unwrap_or("");
        if line != other {
            return (line, other);
        }
    }
    ("", found.next().unwrap_or(""))
}

/// What a command writes to an input that it answers with status 0.
fn written<R: AllocGlobal + Threads + Wait + Sync>(
    rt: &R,
    command: &str,
    input: &[u8],
) -> Result<MemorySink> {
    let (status, sink) = answer(rt, command, input)?;
    ensure!(status == 0, "{command} ends with status {status}");
    Ok(sink)
}

/// The digits of what the last entry of a recording has read.
fn last_bytes(recording: &str) -> Option<&str> {
    let (entries, _) = recording.split_once("\ncensus ")?;
    let mut last = None;
    for word in entries.split(' ') {
        last = Some(word);
    }
    last
}

/// The digits of the picture that a scene's trace reads at its end, with a line feed.
fn picture<R: AllocGlobal + Threads + Wait + Sync>(rt: &R, scene: &[u8]) -> Result<String> {
    let trace = written(rt, "scene", scene)?;
    let recording = written(rt, "serial", trace.taken())?;
    let text = str::from_utf8(recording.taken())?;
    let digits = last_bytes(text).context("a recording without entries")?;
    Ok(format!(in rt.alloc(); "{digits}\n")?)
}

/// What is found of an example: a scene's picture, or the exit status of a command and what it wrote.
fn found<R: AllocGlobal + Threads + Wait + Sync>(
    rt: &R,
    player: &str,
    word: &str,
    input: &[u8],
) -> Result<(u8, String)> {
    if player == PICTURES {
        return Ok((0, picture(rt, input)?));
    }
    let (status, sink) = answer(rt, word, input)?;
    let text = str::from_utf8(sink.taken())?;
    Ok((status, String::from_str(rt.alloc(), text)?))
}

/// How many lines of a trace came to their end, by the entries of its recording behind their first line.
fn ended(entries: &str) -> u64 {
    let mut count = 0u64;
    for entry in entries.split('\n').skip(1) {
        if !entry.ends_with(" waiting 0 [] -") {
            count = count.saturating_add(1);
        }
    }
    count
}

/// What begins the line of an entry: its thread, its line and its outcome. Nothing of the begin of a wait.
fn beginning(alloc: Global, entry: &str) -> Result<String> {
    let mut words = entry.split(' ');
    match (words.next(), words.next(), words.next()) {
        (Some(thread), Some(line), Some(outcome)) if outcome != "waiting" => {
            Ok(format!(in alloc; "\n{thread} {line} {outcome} ")?)
        }
        _ => Ok(String::new(alloc)),
    }
}

/// Whether two recordings have the same lines behind their entries, and the same lines of the trace have the same outcomes, in whichever order they stand and whatever their answers are.
fn come_out_alike(alloc: Global, wanted: &str, found: &str) -> Result<bool> {
    let parts = (
        wanted.split_once("\ncensus "),
        found.split_once("\ncensus "),
    );
    let (Some((wanted, wanted_ends)), Some((found, ends))) = parts else {
        return Ok(false);
    };
    for entry in wanted.split('\n').skip(1) {
        if !found.contains(beginning(alloc, entry)?.as_str()) {
            return Ok(false);
        }
    }
    Ok(ended(wanted) == ended(found) && ends == wanted_ends)
}

/// Whether what is found is what a player is to find.
fn is_same(alloc: Global, player: &str, wanted: &str, found: &str) -> Result<bool> {
    if player == ANY_ORDER {
        come_out_alike(alloc, wanted, found)
    } else {
        Ok(found == wanted)
    }
}

/// Plays an example of a file by its own command, or else by the one that is named, and prints how the answer differs from the one that is wanted.
pub fn is_as_wanted<R: Print + AllocGlobal + Threads + Wait + Sync>(
    rt: &R,
    player: &str,
    file: &str,
    example: &Example,
) -> Result<bool> {
    let word = match &example.command {
        Some(command) => command.as_str(),
        None if player == ANY_ORDER => "play",
        None => player,
    };
    let (status, text) = found(rt, player, word, example.input.as_slice())?;
    let found = text.as_str();
    let wanted = example.output.as_str();
    if status == example.status && is_same(rt.alloc(), player, wanted, found)? {
        return Ok(true);
    }
    let (wanted, found) = first_difference(wanted, found);
    println!(rt;
        "{word} {file}:{}: {}\n  wanted, with status {}: {wanted}\n  found, with status {status}: {found}",
        example.line,
        example.heading.as_str(),
        example.status
    )?;
    Ok(false)
}
