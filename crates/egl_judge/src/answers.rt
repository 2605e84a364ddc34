//! What the program answers to bytes.
ghost use Rattle.std.specs.Prelude.{◌≡◌, ◌≤◌, IfOk};
ghost use Rattle.driver_judge.specs.Judgements.{judgement};
ghost use Rattle.egl_judge.specs.Answers.{Answers, IsTextOf, answer, judged_status, malformed_text};
ghost use Rattle.egl_judge.specs.Judgements.{judgement_text};

use crate::explaining::explained;
use crate::judgements::{count_differences, judgement_text};
use crate::requests::Request;
use driver_judge::{Judgement, judge};
use egl_calls::{Bytes, NoMemory};
use egl_flow::{Answer, Responder, Status};
use journal_text::texts::{put_byte, put_decimal_and_space, put_text};
use log_reader::{Log, LogError, LogReason};
use std::alloc::Global;

/// A driver that differs nowhere is held.
fn judged_status(judgement: &Judgement) -> Status
    ensures { result ≡ judged_status judgement.now }
{
    if count_differences(judgement.notes()) == 0 {
        Status::Ok
    } else {
        Status::Differs
    }
}

/// What is said to programs, and behind that what is told to people where it is asked for.
#[tactic(auto, using(crate::proofs::AnswerLaws::for_people, crate::proofs::AnswerLaws::for_programs))]
fn text_of(
    alloc: Global,
    for_people: bool,
    bytes: &Bytes,
    judgement: &Judgement,
) -> Result<Bytes, NoMemory>
    ensures { IfOk result (IsTextOf for_people (judgement_text judgement.now)) }
{
    let mut text = judgement_text(alloc, judgement)?;
    if !for_people {
        return Ok(text);
    }
    let more = explained(alloc, bytes.as_slice(), judgement)?;
    text.extend(more.as_slice())?;
    Ok(text)
}

/// What is said of a log.
fn judged_answer(
    alloc: Global,
    request: Request,
    log: &Log,
    bytes: &Bytes,
) -> Result<Answer, NoMemory>
    requires { request.delta ≤ 255 }
    ensures status { IfOk result (λ a. a.status ≡ judged_status (judgement log.now request.delta)) }
    ensures text { IfOk result (λ a. IsTextOf request.explained (judgement_text (judgement log.now request.delta)) a.text) }
{
    let judgement = judge(alloc, log, request.delta)?;
    Ok(Answer {
        text: text_of(alloc, request.explained, bytes, &judgement)?,
        status: judged_status(&judgement),
    })
}

/// The first line that isn't in its form, and what is wrong with it first.
#[tactic(auto, unfolding(crate::specs::Answers::malformed_text))]
fn malformed_text(alloc: Global, line: u64, reason: LogReason) -> Result<Bytes, NoMemory>
    ensures { IfOk result (λ b. b ≡ malformed_text line reason) }
{
    let mut out = Bytes::new(alloc);
    put_text(&mut out, "malformed ")?;
    put_decimal_and_space(&mut out, line)?;
    put_text(&mut out, reason.name())?;
    put_byte(&mut out, b'\n')?;
    Ok(out)
}

/// What is said to bytes.
#[tactic(auto, unfolding(crate::specs::Answers::answer), using(crate::proofs::AnswerLaws::said))]
fn answer_to(alloc: Global, request: Request, bytes: &Bytes) -> Result<Answer, NoMemory>
    requires { request.delta ≤ 255 }
    ensures { IfOk result (Answers request bytes.now) }
{
    match Log::read(alloc, bytes) {
        Ok(log) => judged_answer(alloc, request, &log, bytes),
        Err(LogError::Malformed { line, reason }) => Ok(Answer {
            text: malformed_text(alloc, line, reason)?,
            status: Status::Malformed,
        }),
        Err(LogError::NoMemory) => Err(NoMemory),
    }
}

/// Answers bytes by what is asked for.
impl Responder for Request {
    ghost use Rattle.std.specs.Prelude.{◌≤◌};
    ghost use Rattle.egl_judge.specs.Answers.{Answers};

    ghost asks = { λ q. q.delta ≤ 255 };

    ghost answers = { Answers };

    fn answer(&self, alloc: Global, bytes: &Bytes) -> Result<Answer, NoMemory> {
        answer_to(alloc, *self, bytes)
    }
}
