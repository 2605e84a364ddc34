//! The examples of a file, as docs/FORMATS.md says.
use crate::drafts::{Draft, Example, defect_of};
use anyhow::{Context, Result, bail, ensure};
use std::alloc::Global;
use std::mem;

/// What the next line may be.
#[derive(Clone, Copy, PartialEq, Eq, Drop)]
enum Place {
    /// Between two examples.
    Between,
    /// In an opening.
    Opening,
    /// In a trace whose outcome is still to come.
    Trace,
    /// In the input of a command.
    Input,
    /// In what the command answers.
    Answer,
    /// Among the last lines of malformed traces.
    Defects,
    /// Among the lines of a recording behind its entries.
    Outcome,
}

/// Lines that several traces begin with.
#[derive(Drop)]
struct Opening {
    name: String,
    lines: Vec<String>,
}

/// What is read of a file so far.
#[derive(Drop)]
struct Reader {
    alloc: Global,
    place: Place,
    draft: Draft,
    openings: Vec<Opening>,
    examples: Vec<Example>,
    /// The number of the line that is read.
    line: u64,
}

impl Reader {
    /// Reads a line between two examples, and says whether it is the first of a trace.
    fn begins_trace(&mut self, line: &str) -> Result<bool> {
        let example = &mut self.draft.example;
        if line.is_empty() {
            example.heading.clear();
        } else if let Some(heading) = line.strip_prefix("# ") {
            example.heading = String::from_str(self.alloc, heading)?;
        } else if let Some(name) = line.strip_prefix("opening ") {
            self.place = Place::Opening;
            let name = String::from_str(self.alloc, name)?;
            let lines = Vec::new(self.alloc);
            self.openings.push(Opening { name, lines })?;
        } else {
            ensure!(!example.heading.is_empty(), "an example has no heading");
            let Some(words) = line.strip_prefix("command ") else {
                return Ok(true);
            };
            self.place = Place::Input;
            example.command = Some(String::from_str(self.alloc, words)?);
        }
        Ok(false)
    }

    /// Reads a line of an opening.
    fn read_opening(&mut self, line: &str) -> Result<()> {
        if line == "end" {
            self.place = Place::Between;
        } else if let Some(opening) = self.openings.last_mut() {
            opening.lines.push(String::from_str(self.alloc, line)?)?;
        }
        Ok(())
    }

    /// Adds the lines of an opening to the trace.
    fn open(&mut self, name: &str) -> Result<()> {
        let opening = self
            .openings
            .iter()
            .find(|opening| opening.name.as_str() == name)
            .context(format_args!("no opening is called {name}"))?;
        for line in &opening.lines {
            self.draft.add_line(self.alloc, line.as_str())?;
        }
        Ok(())
    }

    /// Reads a line of a trace, or the first of its outcome.
    fn read_trace(&mut self, line: &str) -> Result<()> {
        if let Some(name) = line.strip_prefix("use ") {
            return self.open(name);
        }
        if defect_of(line).is_some() {
            self.place = Place::Defects;
            return self.read_defect(line);
        }
        if line != "recording" && !line.starts_with("census ") {
            return self.draft.add_line(self.alloc, line);
        }
        self.place = Place::Outcome;
        self.draft.add_outcome(line)
    }

    /// Reads a line of a command's input, or the one behind it.
    fn read_input(&mut self, line: &str) -> Result<()> {
        if let Some(name) = line.strip_prefix("use ") {
            return self.open(name);
        }
        match line.strip_prefix("answer ") {
            Some(status) => {
                self.place = Place::Answer;
                self.draft.begin_answer(status)
            }
            None => self.draft.add_line(self.alloc, line),
        }
    }

    /// Reads the last line of a malformed trace.
    fn read_defect(&mut self, line: &str) -> Result<()> {
        let example = self.draft.with_defect(self.alloc, self.line, line)?;
        self.examples.push(example)?;
        Ok(())
    }

    /// Reads the empty line behind an example. A trace that is malformed was kept with each of its last lines.
    fn end(&mut self) -> Result<()> {
        let mut draft = mem::replace(&mut self.draft, Draft::new(self.alloc)?);
        if self.place == Place::Outcome {
            draft.end_recording()?;
        }
        if self.place != Place::Defects {
            draft.example.line = self.line;
            self.examples.push(draft.example)?;
        }
        self.place = Place::Between;
        Ok(())
    }

    fn read(&mut self, line: &str) -> Result<()> {
        self.line = self.line.saturating_add(1);
        ensure!(
            !line.bytes().any(|b| b < b' '),
            "a line has a byte that isn't shown"
        );
        ensure!(!line.ends_with(' '), "a line ends with a space");
        let is_end = line.is_empty();
        match self.place {
            Place::Between => {
                if self.begins_trace(line)? {
                    self.place = Place::Trace;
                    return self.read_trace(line);
                }
                Ok(())
            }
            Place::Opening => self.read_opening(line),
            Place::Trace => self.read_trace(line),
            Place::Input => self.read_input(line),
            Place::Answer | Place::Defects | Place::Outcome if is_end => self.end(),
            Place::Answer => self.draft.add_output(line),
            Place::Defects => self.read_defect(line),
            Place::Outcome => self.draft.add_outcome(line),
        }
    }
}

/// The examples of a file's text. Its end ends what an empty line ends.
pub fn examples_of(alloc: Global, text: &str) -> Result<Vec<Example>> {
    let mut reader = Reader {
        alloc,
        place: Place::Between,
        draft: Draft::new(alloc)?,
        openings: Vec::new(alloc),
        examples: Vec::new(alloc),
        line: 0,
    };
    for line in text.split('\n') {
        let number = reader.line.saturating_add(1);
        reader.read(line).context(format_args!("line {number}"))?;
    }
    reader.read("")?;
    match reader.place {
        Place::Between => Ok(reader.examples),
        _ => bail!("the file ends within an example"),
    }
}
