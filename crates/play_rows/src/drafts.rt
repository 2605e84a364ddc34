//! Worked examples, and one that is still being read.
use crate::escapes::push_unescaped;
use anyhow::{Context, Result, bail, ensure};
use std::alloc::Global;
use std::mem;

/// The exit status of a malformed trace, and of a run that stalls.
const MALFORMED: u8 = 4;

const STALLED: u8 = 6;

/// The most bytes of a line whose last is repeated.
const MOST_BYTES: u64 = 33_554_432;

/// An input, and what a command must answer to it.
#[derive(Drop)]
pub struct Example {
    /// What it shows.
    pub heading: String,
    /// The line of its file on which it ends.
    pub line: u64,
    /// The words of its own command; none where it is a trace that any command plays.
    pub command: Option<String>,
    pub input: Vec<u8>,
    /// The exit status.
    pub status: u8,
    /// Every byte that is written.
    pub output: String,
}

/// An example as far as it is read.
#[derive(Drop)]
pub struct Draft {
    pub example: Example,
    /// How many line feeds its input has.
    line_feeds: u64,
    has_answers: bool,
}

/// The call of a line, and the answer behind its arrow.
fn parted(line: &str) -> (&str, Option<&str>) {
    match line.split_once(" => ") {
        Some((call, answer)) => (call.trim_end_matches(' '), Some(answer)),
        None => (line, None),
    }
}

/// The last line of a malformed trace, and the text that is written for it.
pub fn defect_of(line: &str) -> Option<(&str, &str)> {
    match parted(line) {
        (call, Some(answer)) if answer.starts_with("malformed ") => Some((call, answer)),
        _ => None,
    }
}

/// How many times a line stands behind a word, and the line.
fn counted<'a>(word: &str, text: &'a str) -> Result<(u64, &'a str)> {
    let (count, line) = text
        .split_once(' ')
        .context(format_args!("`{word}` wants a count and a line"))?;
    let count = count
        .parse::<u64>()
        .context(format_args!("`{word}` wants a count"))?;
    ensure!(
        count <= MOST_BYTES,
        "a `{word}` has more bytes than an input may have"
    );
    Ok((count, line))
}

impl Example {
    /// Whether it is a log, whose answers stand in its lines.
    fn is_log(&self) -> bool {
        match &self.command {
            Some(command) => command.as_str().starts_with("judge"),
            None => false,
        }
    }
}

impl Draft {
    pub fn new(alloc: Global) -> Result<Draft> {
        let output = String::from_str(alloc, "recording\n")?;
        Ok(Draft {
            example: Example {
                heading: String::new(alloc),
                line: 0,
                command: None,
                input: Vec::new(alloc),
                status: 0,
                output,
            },
            line_feeds: 0,
            has_answers: false,
        })
    }

    /// Adds a line to the input. A backslash at its end stands for no line feed.
    fn put_line(&mut self, line: &str) -> Result<()> {
        let input = &mut self.example.input;
        if let Some(front) = line.strip_suffix('\\') {
            return push_unescaped(input, front);
        }
        push_unescaped(input, line)?;
        input.push(b'\n')?;
        self.line_feeds = self.line_feeds.saturating_add(1);
        Ok(())
    }

    /// Adds a line so many times; or once, with its last byte so many times.
    fn add_counted(&mut self, word: &str, text: &str) -> Result<()> {
        let (count, line) = counted(word, text)?;
        ensure!(
            self.example.is_log() || parted(line).1.is_none(),
            "a `{word}` has no answer"
        );
        if word == "repeat" {
            for _ in 0..count {
                self.put_line(line)?;
            }
            return Ok(());
        }
        let last = *line.as_bytes().last().unwrap_or(&b'\n');
        push_unescaped(&mut self.example.input, line)?;
        for _ in 1..count {
            self.example.input.push(last)?;
        }
        self.put_line("")
    }

    /// Adds a line of the trace, with its answer where it has one.
    pub fn add_line(&mut self, alloc: Global, line: &str) -> Result<()> {
        if let Some(text) = line.strip_prefix("repeat ") {
            return self.add_counted("repeat", text);
        }
        if let Some(text) = line.strip_prefix("long ") {
            return self.add_counted("long", text);
        }
        if self.example.is_log() {
            return self.put_line(line);
        }
        let (call, answer) = parted(line);
        if let Some(answer) = answer {
            let thread = call
                .split_whitespace()
                .next()
                .context("an answer stands beside no call")?;
            let number = self.line_feeds.saturating_add(1);
            let entry = format!(in alloc; "{thread} {number} {answer}")?;
            self.add_output(entry.as_str())?;
            self.has_answers = true;
        }
        self.put_line(call)
    }

    /// The input ends here, and what is written with this status follows.
    pub fn begin_answer(&mut self, status: &str) -> Result<()> {
        self.example.status = status
            .parse::<u8>()
            .context("`answer` wants the number of a status")?;
        self.example.output.clear();
        Ok(())
    }

    /// Adds a line of what is written.
    pub fn add_output(&mut self, line: &str) -> Result<()> {
        self.example.output.push_str(line)?;
        self.example.output.push_str("\n")?;
        Ok(())
    }

    /// Adds a line of the recording that stands there as it is, or so many times. The recording is written out behind its first line.
    pub fn add_outcome(&mut self, line: &str) -> Result<()> {
        if let Some(text) = line.strip_prefix("repeat ") {
            let (count, line) = counted("repeat", text)?;
            for _ in 0..count {
                self.add_output(line)?;
            }
            return Ok(());
        }
        if line == "recording" {
            ensure!(
                !self.has_answers,
                "a recording that is written out stands behind an answer"
            );
            return Ok(());
        }
        if line.starts_with("stalled ") {
            self.end_recording()?;
            self.example.status = STALLED;
        }
        self.add_output(line)
    }

    /// Adds the recording's last line, unless it stands there.
    pub fn end_recording(&mut self) -> Result<()> {
        let is_open = self.example.status != STALLED
            && !self.example.output.as_str().ends_with("\nend\n");
        if is_open {
            self.add_output("end")
        } else {
            Ok(())
        }
    }

    /// The example of this trace with one more line, which ends at a line of the file, and behind which the trace is malformed.
    pub fn with_defect(&mut self, alloc: Global, number: u64, line: &str) -> Result<Example> {
        let Some((call, text)) = defect_of(line) else {
            bail!("a line behind a defect has none");
        };
        ensure!(!self.has_answers, "an answer stands before a defect");
        let before = self.example.input.clone()?;
        self.put_line(call)?;
        let input = mem::replace(&mut self.example.input, before);
        Ok(Example {
            heading: String::from_str(alloc, self.example.heading.as_str())?,
            line: number,
            command: None,
            input,
            status: MALFORMED,
            output: format!(in alloc; "{text}\n")?,
        })
    }
}
