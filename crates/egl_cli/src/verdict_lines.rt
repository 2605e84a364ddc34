//! What is said of a recording.
ghost use Rattle.std.specs.Prelude.{◌≡◌, ◌++◌, codes, decimal, IfOk, OnOk};
ghost use Rattle.egl_cli.specs.Answers.{verdict_answer, claim_answer};
ghost use Rattle.egl_cli.specs.Places.{place_words};

use crate::answers::Answer;
use crate::inputs::Claim;
use crate::places::put_place;
use egl_calls::{Bytes, NoMemory, Text};
use egl_flow::Status;
use journal_text::texts::{put_decimal, put_text};
use std::alloc::Global;
use trace_check::{Verdict, check};

/// The place of the first line that differs, the line that should stand there, and the line itself.
fn put_difference(
    out: &mut Bytes,
    place: u64,
    expected: &Text,
    found: &Text,
) -> Result<(), NoMemory>
    ensures { OnOk result (out.new ≡ out.old ++ (codes "differs " ++ decimal place ++ codes "\nexpected " ++ expected.now ++ codes "\nfound " ++ found.now ++ codes "\n")) }
{
    put_text(out, "differs ")?;
    put_decimal(out, place)?;
    put_text(out, "\nexpected ")?;
    out.extend(expected.as_slice())?;
    put_text(out, "\nfound ")?;
    out.extend(found.as_slice())?;
    put_text(out, "\n")
}

/// A thread that isn't at its end, and its next line.
fn put_incomplete(out: &mut Bytes, thread: u32, line: u64) -> Result<(), NoMemory>
    ensures { OnOk result (out.new ≡ out.old ++ (codes "incomplete " ++ place_words thread line ++ codes "\n")) }
{
    put_text(out, "incomplete ")?;
    put_place(out, thread, line)?;
    put_text(out, "\n")
}

/// The status and the text of a verdict.
fn verdict_answer(alloc: Global, verdict: &Verdict) -> Result<Answer, NoMemory>
    ensures { IfOk result (λ a. a ≡ verdict_answer verdict.now) }
{
    let mut text = Bytes::new(alloc);
    let status = match verdict {
        Verdict::Holds => {
            put_text(&mut text, "holds\n")?;
            Status::Ok
        }
        Verdict::Differs {
            place,
            expected,
            found,
        } => {
            put_difference(&mut text, *place, expected, found)?;
            Status::Differs
        }
        Verdict::Incomplete { thread, line } => {
            put_incomplete(&mut text, *thread, *line)?;
            Status::Differs
        }
    };
    Ok(Answer { status, text })
}

/// What is said to a recording behind its trace.
#[tactic(auto, unfolding(crate::specs::Answers::claim_answer))]
pub fn claim_answer(alloc: Global, claim: &Claim) -> Result<Answer, NoMemory>
    ensures { IfOk result (λ a. a ≡ claim_answer claim.now) }
{
    let verdict = check(alloc, &claim.trace, &claim.recording)?;
    verdict_answer(alloc, &verdict)
}
