//! What the program says to the bytes of its input.
ghost use Rattle.std.specs.Prelude.{◌≡◌, ◌≤◌, ◌<◌, [], All, IfOk};
ghost use Rattle.trace_model.specs.Serial.{state_behind};
ghost use Rattle.trace_session.specs.Runs.{StandBehind};
ghost use Rattle.egl_cli.specs.Answers.{malformed_text, told, with_stalled, journal_answer, run_answer, journal_frames, run_frames};

use crate::frames::frames_text;
use crate::stalled_lines::{put_stalled, put_waiting};
use crate::turns::put_run;
use arrayvec::ArrayString;
use driver_core::{Driver, Run};
use egl_calls::{Bytes, Journal, NoMemory};
use egl_flow::Status;
use itoa::Buffer;
use journal_text::{summary, write};
use std::alloc::Global;
use trace_reader::{Reason, Trace};
use trace_session::{Chains, RunError, Session, driver_of, run_serial};

/// Room for the words, the name of a reason, and a line's number.
const MALFORMED_ROOM: usize = 64;

/// A status, and the text that is written with it.
#[derive(Drop)]
pub struct Answer {
    pub status: Status,
    pub text: Bytes,
}

/// What is said to a trace with a defect. It takes no memory.
#[tactic(auto, unfolding(crate::specs::Answers::malformed_text))]
pub fn malformed_text(line: u64, reason: Reason) -> ArrayString<MALFORMED_ROOM>
    ensures { result.bytes ≡ malformed_text line reason }
{
    let mut out = ArrayString::new();
    out.push_str("malformed ");
    out.push_str(Buffer::new().format(line));
    out.push_str(" ");
    out.push_str(reason.name());
    out.push_str("\n");
    out
}

/// What is told of a run: its recording or its summary.
fn told(alloc: Global, summarized: bool, trace: &Trace, run: &Run) -> Result<Bytes, NoMemory>
    requires { run.now.driver.state ≡ state_behind trace.now run.now.journal.entries }
    ensures { IfOk result (λ b. b ≡ told summarized trace.now run.now.journal.entries) }
{
    if summarized {
        summary(alloc, trace, run)
    } else {
        write(alloc, trace, run)
    }
}

/// What is said of a run by a text that tells of it: where it stalled, the lines at which its threads wait stand behind that.
pub fn with_stalled(
    alloc: Global,
    told: Bytes,
    trace: &Trace,
    journal: &Journal,
    stalled: bool,
) -> Result<Answer, NoMemory>
    ensures { IfOk result (λ a. a ≡ with_stalled told trace.now journal.now.entries stalled) }
{
    let mut text = told;
    if stalled {
        put_stalled(alloc, &mut text, trace, journal)?;
        return Ok(Answer {
            status: Status::Stalled,
            text,
        });
    }
    Ok(Answer {
        status: Status::Ok,
        text,
    })
}

/// What is said of a run that came to its end, or stalled.
pub fn journal_answer(
    alloc: Global,
    summarized: bool,
    trace: &Trace,
    run: &Run,
    stalled: bool,
) -> Result<Answer, NoMemory>
    requires { run.now.driver.state ≡ state_behind trace.now run.now.journal.entries }
    ensures { IfOk result (λ a. a ≡ journal_answer summarized trace.now run.now.journal.entries stalled) }
{
    let text = told(alloc, summarized, trace, run)?;
    with_stalled(alloc, text, trace, &run.journal, stalled)
}

/// What is said to a trace that a driver plays by turns from its first line on.
fn played_answer(
    alloc: Global,
    trace: &Trace,
    driver: &mut Driver,
    session: &mut Session,
) -> Result<Answer, NoMemory>
    requires trace { session.old.trace ≡ trace.now }
    requires made { session.old.trace.threads ≤ driver.old.made }
    requires behind { StandBehind [] driver.old.state session.old }
    ensures { IfOk result (λ a. a ≡ run_answer trace.now) }
{
    let mut text = Bytes::new(alloc);
    put_run(alloc, &mut text, trace, driver, session)?;
    if session.stalled(driver) {
        put_waiting(&mut text, session)?;
        return Ok(Answer {
            status: Status::Stalled,
            text,
        });
    }
    Ok(Answer {
        status: Status::Ok,
        text,
    })
}

/// What is said to a trace that is played by turns.
pub fn run_answer(alloc: Global, trace: &Trace) -> Result<Answer, NoMemory>
    ensures { IfOk result (λ a. a ≡ run_answer trace.now) }
{
    let chains = Chains::new(alloc, trace)?;
    let mut session = Session::new(alloc, trace, &chains)?;
    let mut driver = driver_of(alloc, trace)?;
    played_answer(alloc, trace, &mut driver, &mut session)
}

/// The journal of a run whose driver is done with.
fn journal_of(run: Run) -> Journal
    ensures { result ≡ run.journal }
{
    let Run { journal, driver: _ } = run;
    journal
}

/// The frames of a run that came to its end, or stalled.
fn journal_frames(
    alloc: Global,
    width: u32,
    height: u32,
    trace: &Trace,
    journal: &Journal,
    stalled: bool,
) -> Result<Answer, NoMemory>
    requires wide { (0 < width) × (width ≤ 2048) }
    requires high { (0 < height) × (height ≤ 2048) }
    requires threads { All (λ e. e.thread < trace.now.threads) journal.now.entries }
    ensures { IfOk result (λ a. a ≡ journal_frames width height trace.now journal.now.entries stalled) }
{
    let text = frames_text(alloc, width, height, trace, journal)?;
    with_stalled(alloc, text, trace, journal, stalled)
}

/// The frames of a trace that is played by turns, on a screen of these sides.
pub fn run_frames(alloc: Global, width: u32, height: u32, trace: &Trace) -> Result<Answer, NoMemory>
    requires wide { (0 < width) × (width ≤ 2048) }
    requires high { (0 < height) × (height ≤ 2048) }
    ensures { IfOk result (λ a. a ≡ run_frames width height trace.now) }
{
    // Each entry's thread is one of the trace.
    trace.in_order();
    match run_serial(alloc, trace) {
        Ok(run) => journal_frames(alloc, width, height, trace, &journal_of(run), false),
        Err(RunError::Stalled(run)) => {
            journal_frames(alloc, width, height, trace, &journal_of(run), true)
        }
        Err(RunError::NoMemory) => Err(NoMemory),
    }
}
