//! What is found in a log.
ghost use Rattle.std.specs.Prelude.{◌≡◌, option_copied};

use crate::differences::Difference;
use egl_calls::{Kind, Text};
use std::marker::Model;

/// Why a line can't be judged: it names a config or a name for which the other driver has another meaning than ours.
#[derive(Clone, Copy, Debug, PartialEq, Eq, Drop)]
pub enum Unjudged {
    Config,
    Name,
}

/// What is found of a line.
#[derive(Drop)]
pub enum LineVerdict {
    Agreed,
    /// It agrees, and its value is the driver's own.
    Own,
    Differs(Difference),
    /// It wasn't played: it stands on this line, of which there is no answer.
    After(u64),
    Unjudged(Unjudged),
}

/// What is found of a line that doesn't agree.
#[derive(Drop)]
pub struct Note {
    pub line: u64,
    pub verdict: LineVerdict,
}

/// The call that was under way when the log ended: its line, its kind, and the word of a crash.
#[derive(Drop)]
pub struct CutCall {
    pub line: u64,
    pub kind: Kind,
    pub word: Option<Text>,
}

/// What is found in a log: how many lines were judged, how many of them agree, and how many of these with a value that is the driver's own; what is found of each other line; and the call that was under way at the end.
#[derive(Drop)]
pub struct Judgement {
    pub(crate) lines: u64,
    pub(crate) agreed: u64,
    pub(crate) own: u64,
    pub(crate) notes: Vec<Note>,
    pub(crate) cut: Option<CutCall>,
}

impl Model for Judgement {
    ghost use Rattle.driver_judge.specs.Values.{JudgementValue};

    ghost Value = { JudgementValue };

    ghost view = { λ j. record { lines = j.lines; agreed = j.agreed; own = j.own; notes = j.notes.items; cut = j.cut } };
}

impl Judgement {
    /// How many lines were judged.
    pub fn lines(&self) -> u64
        ensures { result ≡ self.now.lines }
    {
        self.lines
    }

    /// How many of them agree.
    pub fn agreed(&self) -> u64
        ensures { result ≡ self.now.agreed }
    {
        self.agreed
    }

    /// How many of these with a value that is the driver's own.
    pub fn own(&self) -> u64
        ensures { result ≡ self.now.own }
    {
        self.own
    }

    /// What is found of each line that doesn't agree, in the order of the lines.
    pub fn notes(&self) -> &[Note]
        ensures { result.now ≡ self.now.notes }
    {
        self.notes.as_slice()
    }

    /// The call that was under way when the log ended.
    pub fn cut(&self) -> Option<&CutCall>
        ensures { option_copied result ≡ self.now.cut }
    {
        self.cut.as_ref()
    }
}
