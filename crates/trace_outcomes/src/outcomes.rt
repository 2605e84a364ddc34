//! Outcomes.
ghost use Rattle.std.specs.Prelude.{◌≡◌, ◌++◌, ◌∷◌, codes, IfOk, OnOk};
ghost use Rattle.std.specs.List.{flat_map};
ghost use Rattle.trace_outcomes.specs.Outcomes.{answer_at, key_of};

use egl_calls::{Bytes, List, NoMemory, Text};
use std::alloc::Global;
use std::marker::Model;

/// What a history answers: each line, and what there is at the end; and the order in which it plays the lines.
pub struct Outcome {
    answers: Vec<Text>,
    rest: Bytes,
    order: List<u64>,
    complete: bool,
}

// Written out, so that no crate above proves the drops of what it owns.
impl Drop for Outcome {
    fn drop(self) {
        let Outcome {
            answers: _,
            rest: _,
            order: _,
            complete: _,
        } = self;
    }
}

impl Model for Outcome {
    ghost use Rattle.trace_outcomes.specs.Outcomes.{OutcomeValue};

    ghost Value = { OutcomeValue };

    ghost view = { λ o. record { answers = o.answers.items; rest = o.rest; order = o.order; complete = o.complete } };
}

impl Outcome {
    /// The outcome of these parts.
    pub fn new(answers: Vec<Text>, rest: Bytes, order: List<u64>, complete: bool) -> Outcome
        ensures { result ≡ record { answers = answers.items; rest = rest; order = order; complete = complete } }
    {
        Outcome {
            answers,
            rest,
            order,
            complete,
        }
    }

    /// What each line answers, in the order of the lines: OUTCOME VALUE LIST BYTES, where a handle is told by the line that made it, or `none`.
    pub fn answers(&self) -> &[Text]
        ensures { result.now ≡ self.now.answers }
    {
        self.answers.as_slice()
    }

    /// What the line at a place answers, and nothing past the last.
    pub fn answer(&self, place: usize) -> &[u8]
        ensures { result.now ≡ answer_at self.now place }
    {
        match self.answers().get(place) {
            Some(answer) => answer.as_slice(),
            None => b"",
        }
    }

    /// The lines of a recording behind its entries, without the last line feed.
    pub fn rest(&self) -> &[u8]
        ensures { result.now ≡ self.now.rest }
    {
        self.rest.as_slice()
    }

    /// The numbers of the lines in the order in which a history with this outcome plays them.
    pub fn order(&self) -> &[u64]
        ensures { result.now ≡ self.now.order }
    {
        self.order.as_slice()
    }

    /// Whether all threads are at their end; else the history stalled.
    pub fn is_complete(&self) -> bool
        ensures { result ≡ self.now.complete }
    {
        self.complete
    }

    /// What outcomes are told apart by.
    #[tactic(auto, unfolding(crate::specs::Outcomes::key_of))]
    pub fn key(&self, alloc: Global) -> Result<Text, NoMemory>
        ensures { IfOk result (λ k. k ≡ key_of self.now) }
    {
        let mut key = Text::new(alloc);
        put_answers(&mut key, self.answers())?;
        key.extend(self.rest())?;
        Ok(key)
    }
}

/// Each answer, and a line feed behind it.
fn put_answers(out: &mut Text, answers: &[Text]) -> Result<(), NoMemory>
    ensures { OnOk result (out.new ≡ out.old ++ flat_map (λ a. a ++ codes "\n") answers.now) }
{
    'each: for answer in answers {
        out.extend(answer.as_slice())?;
        out.extend(b"\n")?;
    }
    Ok(())
}
