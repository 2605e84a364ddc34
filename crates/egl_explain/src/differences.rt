//! Where a recording differs from its trace, and why.
ghost use Rattle.std.specs.Prelude.{◌≡◌, ◌≤◌, IfOk};
ghost use Rattle.trace_check.specs.Verdicts.{verdict};
ghost use Rattle.egl_explain.specs.Statuses.{verdict_status};

use crate::further::put_further;
use crate::judged_entries::{judge_next, play_lines};
use crate::recorded_lines::Pair;
use crate::telling::Teller;
use driver_core::Driver;
use egl_calls::NoMemory;
use egl_flow::Status;
use journal_text::{RecordedLine, Recording};
use std::alloc::Global;
use trace_check::{Verdict, check};
use trace_reader::Trace;
use trace_session::{Chains, Session, driver_of};

/// Plays the entries of some lines, and says what came of the last, where the last line is an entry's; else what there is behind all entries. It answers whether what stands behind these lines may be compared.
fn put_followed<T: Teller>(
    alloc: Global,
    teller: &mut T,
    lines: &[&[u8]],
    driver: &mut Driver,
    session: &mut Session,
    recorded: &[RecordedLine],
    pair: Pair<'_>,
) -> Result<bool, NoMemory>
    requires { session.old.trace.threads ≤ driver.old.made }
    ensures { session.new.trace.threads ≤ driver.new.made }
{
    if let [front @ .., last] = recorded {
        if let Some(thread) = last.thread {
            play_lines(alloc, driver, session, front)?;
            match judge_next(alloc, driver, session, thread)? {
                Some(judged) => teller.due(lines, driver, &judged, pair),
                None => teller.none_due(),
            }
            return Ok(pair.is_of_one_line());
        }
    }
    play_lines(alloc, driver, session, recorded)?;
    teller.rest(driver, recorded, pair);
    Ok(!pair.is_head())
}

/// Why a recording should have another line at a place, and what else differs behind it.
fn put_reason<T: Teller>(
    alloc: Global,
    teller: &mut T,
    lines: &[&[u8]],
    trace: &Trace,
    recorded: &[RecordedLine],
    place: u64,
    pair: Pair<'_>,
) -> Result<(), NoMemory> {
    let count = (place as usize).min(recorded.len());
    let (front, _) = recorded.split_at(count);
    let mut driver = driver_of(alloc, trace)?;
    let chains = Chains::new(alloc, trace)?;
    let mut session = Session::new(alloc, trace, &chains)?;
    if put_followed(alloc, teller, lines, &mut driver, &mut session, front, pair)? {
        let further = put_further(
            alloc,
            teller,
            lines,
            &mut driver,
            &mut session,
            recorded,
            place,
        )?;
        teller.sum(further);
    }
    Ok(())
}

/// What a verdict says, and its status.
fn put_verdict<T: Teller>(
    alloc: Global,
    teller: &mut T,
    lines: &[&[u8]],
    trace: &Trace,
    recording: &Recording,
    verdict: &Verdict,
) -> Result<Status, NoMemory>
    ensures { IfOk result (λ s. s ≡ verdict_status verdict.now) }
{
    match verdict {
        Verdict::Holds => {
            teller.holds();
            Ok(Status::Ok)
        }
        Verdict::Differs {
            place,
            expected,
            found,
        } => {
            let pair = Pair {
                expected: expected.as_slice(),
                found: found.as_slice(),
            };
            teller.difference(*place, pair);
            put_reason(alloc, teller, lines, trace, recording.lines(), *place, pair)?;
            Ok(Status::Differs)
        }
        Verdict::Incomplete { thread, line } => {
            teller.open(lines, *thread, *line);
            Ok(Status::Differs)
        }
    }
}

/// Whether a recording is its trace's, or where it differs: each line that does, what the specification gives there, and why.
pub fn put_judgement<T: Teller>(
    alloc: Global,
    teller: &mut T,
    lines: &[&[u8]],
    trace: &Trace,
    recording: &Recording,
) -> Result<Status, NoMemory>
    ensures { IfOk result (λ s. s ≡ verdict_status (verdict trace.now recording.now)) }
{
    let verdict = check(alloc, trace, recording)?;
    put_verdict(alloc, teller, lines, trace, recording, &verdict)
}
