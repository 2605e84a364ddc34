//! Plays files of worked examples by the program's top call, and compares each answer with the one that is wanted.
//!
//! The words are the names of the files, and before them what is done with those behind it:
//! - `serial` and `play` play the examples by that command, and `pictures` holds what the traces of scenes draw against
//!   their pictures. For each that differs it prints where it stands, its heading, and the first line that is wanted and
//!   found.
//! - `judged` judges logs: the command `judge` stands for `egl_judge`, whose words stand behind it.
//! - `any_order` plays them by `play`, and compares what is left at the end, and for each line whether it was refused, and by
//!   which error: threads at once may play the lines in another order, and number what they make otherwise.
//! - `read` prints each example as it is read.
//! - `refused` compares why each text of the file is no file of examples.
//! - `explained` compares what `egl_explain` tells of a file's input with the text behind it, and `show` prints it;
//!   `explained_json` and `show_json` do the same with what it tells programs.
//! - `long_run` plays the 100,000 lines of a file of turns, and prints the sum of their recording.
//!
//! The word `stdin` names no file, and does what the program does with `serial`. At the end stands how many were played
//! and how many differ. The exit status is 1 where one differs, or where a file can't be read, isn't of the form of
//! docs/FORMATS.md or has no example; else it is that of `stdin`, or 0.
#![tactic(auto)]

mod drafts;
mod escapes;
mod explaining;
mod long_run;
mod playing;
mod reading;

use anyhow::{Context, Result, ensure};
use drafts::Example;
use egl_explain::Format;
use escapes::push_unescaped;
use explaining::{PLAIN, is_explained, show};
use long_run::long_run;
use playing::{ANY_ORDER, PICTURES, is_as_wanted, play_stdin};
use reading::examples_of;
use std::process::ExitCode;
use std::rt::Files;
use std::sync::Wait;
use std::thread::Threads;
use std::{env, fs};

/// What is done with a file.
#[derive(Clone, Copy, Drop)]
enum Task {
    /// Its examples are played by a command.
    Play(&'static str),
    /// Its examples are printed.
    Read,
    /// Its texts are refused.
    Refuse,
    /// Its input is explained as it says.
    Explain(Format),
    /// What its input is explained as is printed.
    Show(Format),
    /// Its turns are played.
    LongRun,
}

/// How many examples were played, and how many of them differ.
#[derive(Clone, Copy, Drop)]
struct Tally {
    played: u64,
    differ: u64,
}

impl Tally {
    fn count(&mut self, is_as_wanted: bool) {
        self.played = self.played.saturating_add(1);
        if !is_as_wanted {
            self.differ = self.differ.saturating_add(1);
        }
    }
}

/// Plays examples by a command.
fn play_all<R: Print + AllocGlobal + Threads + Wait + Sync>(
    rt: &R,
    player: &str,
    name: &str,
    examples: &[Example],
    tally: &mut Tally,
) -> Result<()> {
    for example in examples {
        tally.count(is_as_wanted(rt, player, name, example)?);
    }
    println!(rt; "{player} {name}: {}", examples.len())?;
    Ok(())
}

/// Prints examples.
fn print_all<R: Print>(rt: &R, name: &str, examples: &[Example]) -> Result<()> {
    for example in examples {
        println!(rt;
            "read {name}:{}: {}, status {}",
            example.line,
            example.heading.as_str(),
            example.status
        )?;
        if let Some(command) = &example.command {
            println!(rt; "  command {command:?}")?;
        }
        let input = str::from_utf8(example.input.as_slice())?;
        println!(rt; "  input {input:?}\n  output {:?}", example.output.as_str())?;
    }
    Ok(())
}

/// Whether a text is no file of examples for a reason; prints what it is refused for where not.
fn is_refused<R: Print + AllocGlobal>(
    rt: &R,
    name: &str,
    reason: &str,
    text: &str,
) -> Result<bool> {
    let mut bytes = Vec::new(rt.alloc());
    push_unescaped(&mut bytes, text)?;
    let found = match examples_of(rt.alloc(), str::from_utf8(bytes.as_slice())?) {
        Ok(_) => String::from_str(rt.alloc(), "nothing")?,
        Err(error) => format!(in rt.alloc(); "{error:#}")?,
    };
    let holds = found.as_str() == reason;
    if !holds {
        println!(rt; "refused {name}: {text:?}\n  wanted for: {reason}\n  refused for: {found}")?;
    }
    Ok(holds)
}

/// Compares why the texts of a file are refused. Before each stands its reason, on a line that begins with `====`.
fn refuse<R: Print + AllocGlobal>(rt: &R, name: &str, text: &str, tally: &mut Tally) -> Result<()> {
    let mut count = 0u64;
    for part in text.split("==== ").skip(1) {
        let (reason, text) = part
            .split_once('\n')
            .context("a reason stands behind no line")?;
        tally.count(is_refused(rt, name, reason, text)?);
        count = count.saturating_add(1);
    }
    ensure!(count != 0, "{name} has no text");
    println!(rt; "refused {name}: {count}")?;
    Ok(())
}

fn do_file<R: Files + Print + AllocGlobal + Threads + Wait + Sync>(
    rt: &R,
    task: Task,
    name: &str,
    tally: &mut Tally,
) -> Result<()> {
    let text = fs::read_to_string(rt, name).context(format_args!("reading {name}"))?;
    match task {
        Task::LongRun => return long_run(rt, text.as_str()),
        Task::Refuse => return refuse(rt, name, text.as_str(), tally),
        Task::Explain(format) => {
            tally.count(is_explained(rt, format, name, text.as_str())?);
            println!(rt; "explained {name}")?;
            return Ok(());
        }
        Task::Show(format) => return show(rt, format, name, text.as_str()),
        Task::Play(_) | Task::Read => {}
    }
    let examples = examples_of(rt.alloc(), text.as_str()).context(format_args!("{name}"))?;
    ensure!(!examples.is_empty(), "{name} has no example");
    match task {
        Task::Play(player) => play_all(rt, player, name, &examples, tally),
        _ => print_all(rt, name, &examples),
    }
}

fn main(rt: HostRuntime) -> Result<ExitCode> {
    let mut tally = Tally {
        played: 0,
        differ: 0,
    };
    let mut task = Task::Play("serial");
    let mut status = 0;
    for word in env::args(&rt)?.skip(1) {
        match word.as_str() {
            "serial" => task = Task::Play("serial"),
            "play" => task = Task::Play("play"),
            "judged" => task = Task::Play("judged"),
            "any_order" => task = Task::Play(ANY_ORDER),
            "pictures" => task = Task::Play(PICTURES),
            "read" => task = Task::Read,
            "refused" => task = Task::Refuse,
            "explained" => task = Task::Explain(PLAIN),
            "explained_json" => task = Task::Explain(Format::Json),
            "show" => task = Task::Show(PLAIN),
            "show_json" => task = Task::Show(Format::Json),
            "long_run" => task = Task::LongRun,
            "stdin" => status = play_stdin(&rt, rt.stdin(), rt.stdout())?,
            name => do_file(&rt, task, name, &mut tally)?,
        }
    }
    let Tally { played, differ } = tally;
    println!(rt; "{played} played, {differ} differ")?;
    ensure!(played != 0, "no file was named");
    Ok(ExitCode::from(if differ == 0 { status } else { 1 }))
}
