//! Which places of a journal lead to an entry: by a variable, by a post, or by a sync.
ghost use Rattle.std.specs.Prelude.{◌≡◌, ◌++◌, Some, find, option_copied, IfOk, OnOk};
ghost use Rattle.std.specs.List.{position_from};
ghost use Rattle.std.specs.Option.{option_to_list};
ghost use Rattle.trace_model.specs.Resolve.{answers, assigns};
ghost use Rattle.trace_model.specs.Turns.{posts};
ghost use Rattle.egl_calls.specs.Errors.{is_done, is_waiting};
ghost use Rattle.race_report.specs.Leading.{last_from, variable_place, ArePlaces, is_played_by, uses_of, used_places, awaited_place, is_sync_creation, creates_sync, makes, begins, is_satisfied, named_by, waited_as, waited_by, maker_place, behind_of};

use call_table::{Role, egl_role};
use display_table::HandleKind;
use egl_calls::arguments::number;
use egl_calls::places::{NAMED, POSTED};
use egl_calls::{Call, Entry, Kind, List, NoMemory, OwnKind, Reply, is_done, is_waiting};
use egl_names::codes::EGL_CONDITION_SATISFIED;
use std::alloc::Global;
use trace_reader::{Line, Reference};
use trace_session::{is_await, is_post};

/// How many variables have the places of their answers kept. The place of another's is looked for where it is used.
const MOST_PLACES: usize = 65_536;

fn answers(thread: u32, number: u64, entry: &Entry) -> bool
    ensures { result ≡ answers thread number entry.now }
{
    entry.thread == thread && entry.mark == number && !is_waiting(entry.reply.outcome)
}

/// The last place at which a line is answered.
#[tactic(auto, unfolding(crate::specs::Leading::last_from))]
fn answer_place(entries: &[Entry], line: &Line) -> Option<u64>
    ensures { result ≡ last_from (answers line.now.thread line.now.number) 0 entries.now }
{
    let mut found = None;
    let mut place: u64 = 0;
    'each: for entry in entries {
        if answers(line.thread, line.number, entry) {
            found = Some(place);
        }
        place += 1;
    }
    found
}

fn assigns(variable: u32, line: &Line) -> bool
    ensures { result ≡ assigns variable line.now }
{
    match line.assigns {
        Some(assigned) => assigned == variable,
        None => false,
    }
}

/// The line that assigns a variable.
fn assigning(lines: &[Line], variable: u32) -> Option<&Line>
    ensures { option_copied result ≡ find (assigns variable) lines.now }
{
    'each: for line in lines {
        if assigns(variable, line) {
            return Some(line);
        }
    }
    None
}

/// The place of a variable's answer.
#[tactic(auto, unfolding(crate::specs::Leading::variable_place))]
fn variable_place(lines: &[Line], entries: &[Entry], variable: u32) -> Option<u64>
    ensures { result ≡ variable_place lines.now entries.now variable }
{
    let line = assigning(lines, variable)?;
    answer_place(entries, line)
}

/// The places of the answers of the first variables, up to one that no line assigns.
pub fn places_of(
    alloc: Global,
    lines: &[Line],
    entries: &[Entry],
) -> Result<List<Option<u64>>, NoMemory>
    ensures { IfOk result (λ t. ArePlaces lines.now entries.now t) }
{
    let mut places = List::new(alloc);
    'each: for variable in 0..lines.len() {
        if variable >= MOST_PLACES || assigning(lines, variable as u32).is_none() {
            return Ok(places);
        }
        places.push(variable_place(lines, entries, variable as u32))?;
    }
    Ok(places)
}

/// The place of a variable's answer, by those of the first variables.
fn known_place(
    places: &[Option<u64>],
    lines: &[Line],
    entries: &[Entry],
    variable: u32,
) -> Option<u64>
    requires { ArePlaces lines.now entries.now places.now }
    ensures { result ≡ variable_place lines.now entries.now variable }
{
    match places.get(variable as usize) {
        Some(place) => *place,
        None => variable_place(lines, entries, variable),
    }
}

/// The line that an entry plays.
fn played<'a>(lines: &'a [Line], entry: &Entry) -> Option<&'a Line>
    ensures { option_copied result ≡ find (is_played_by entry.now) lines.now }
{
    'each: for line in lines {
        if line.number == entry.mark {
            return Some(line);
        }
    }
    None
}

/// Adds the places of the answers of variables.
#[tactic(auto, unfolding(crate::specs::Leading::used_places))]
fn add_used(
    behind: &mut List<u64>,
    places: &[Option<u64>],
    lines: &[Line],
    entries: &[Entry],
    uses: &[Reference],
) -> Result<(), NoMemory>
    requires { ArePlaces lines.now entries.now places.now }
    ensures { OnOk result (behind.new ≡ behind.old ++ used_places lines.now entries.now uses.now) }
{
    'each: for r in uses {
        if let Some(place) = known_place(places, lines, entries, r.variable) {
            behind.push(place)?;
        }
    }
    Ok(())
}

/// Adds those of the line that an entry plays.
#[tactic(auto, unfolding(crate::specs::Leading::used_places))]
fn add_uses(
    behind: &mut List<u64>,
    places: &[Option<u64>],
    lines: &[Line],
    entries: &[Entry],
    entry: &Entry,
) -> Result<(), NoMemory>
    requires { ArePlaces lines.now entries.now places.now }
    ensures { OnOk result (behind.new ≡ behind.old ++ used_places lines.now entries.now (uses_of (find (is_played_by entry.now) lines.now))) }
{
    match played(lines, entry) {
        Some(line) => add_used(behind, places, lines, entries, line.uses.as_slice()),
        None => Ok(()),
    }
}

fn posts(posted: u64, entry: &Entry) -> bool
    ensures { result ≡ posts posted entry.now }
{
    is_post(entry.call.kind) && number(&entry.call, POSTED) == posted
}

/// The first place at which a number is posted.
fn post_place(entries: &[Entry], number: u64) -> Option<u64>
    ensures { result ≡ position_from (posts number) 0 entries.now }
{
    let mut place: u64 = 0;
    'each: for entry in entries {
        if posts(number, entry) {
            return Some(place);
        }
        place += 1;
    }
    None
}

/// The place of the post that a call awaits.
fn awaited_place(entries: &[Entry], call: &Call) -> Option<u64>
    ensures { result ≡ awaited_place entries.now call.now }
{
    if is_await(call.kind) {
        return post_place(entries, number(call, POSTED));
    }
    None
}

fn is_sync_creation(role: Role) -> bool
    ensures { result ≡ is_sync_creation role }
{
    matches!(role, Role::Creates(HandleKind::Sync))
}

#[tactic(auto, unfolding(crate::specs::Leading::creates_sync))]
fn creates_sync(kind: Kind) -> bool
    ensures { result ≡ creates_sync kind }
{
    match kind {
        Kind::Egl(kind) => is_sync_creation(egl_role(kind)),
        Kind::Gl(_) | Kind::Own(_) => false,
    }
}

fn makes(handle: i64, entry: &Entry) -> bool
    ensures { result ≡ makes handle entry.now }
{
    creates_sync(entry.call.kind) && is_done(entry.reply.outcome) && entry.reply.value == handle
}

/// The place of the entry that made a sync.
fn maker_place(entries: &[Entry], handle: Option<i64>) -> Option<u64>
    ensures { result ≡ maker_place entries.now handle }
{
    let handle = handle?;
    let mut place: u64 = 0;
    'each: for entry in entries {
        if makes(handle, entry) {
            return Some(place);
        }
        place += 1;
    }
    None
}

fn begins(end: &Entry, entry: &Entry) -> bool
    ensures { result ≡ begins end.now entry.now }
{
    entry.thread == end.thread && entry.mark == end.mark && is_waiting(entry.reply.outcome)
}

/// The sync that the begin of a wait names.
fn begun_with(entries: &[Entry], end: &Entry) -> Option<i64>
    ensures { result ≡ named_by (find (begins end.now) entries.now) }
{
    'each: for entry in entries {
        if begins(end, entry) {
            return Some(entry.call.args[NAMED]);
        }
    }
    None
}

fn is_satisfied(reply: &Reply) -> bool
    ensures { result ≡ is_satisfied reply.now }
{
    is_done(reply.outcome) && reply.value == EGL_CONDITION_SATISFIED as i64
}

/// The sync behind whose signal a call of a role stands.
fn waited_as(role: Role, entry: &Entry) -> Option<i64>
    ensures { result ≡ waited_as role entry.now }
{
    let has_waited = match role {
        Role::ClientWaits => is_satisfied(&entry.reply),
        Role::ServerWaits => is_done(entry.reply.outcome),
        _ => false,
    };
    if has_waited {
        Some(entry.call.args[NAMED])
    } else {
        None
    }
}

/// The sync behind whose signal an entry stands.
#[tactic(auto, unfolding(crate::specs::Leading::waited_by))]
fn waited_by(entries: &[Entry], entry: &Entry) -> Option<i64>
    ensures { result ≡ waited_by entries.now entry.now entry.now.call.kind }
{
    match entry.call.kind {
        Kind::Egl(kind) => waited_as(egl_role(kind), entry),
        Kind::Own(OwnKind::WaitEnd) => {
            if is_done(entry.reply.outcome) {
                begun_with(entries, entry)
            } else {
                None
            }
        }
        Kind::Gl(_) | Kind::Own(_) => None,
    }
}

fn add(behind: &mut List<u64>, place: Option<u64>) -> Result<(), NoMemory>
    ensures { OnOk result (behind.new ≡ behind.old ++ option_to_list place) }
{
    if let Some(place) = place {
        behind.push(place)?;
    }
    Ok(())
}

/// The places that lead to an entry beside those of its thread.
pub fn behind_of(
    alloc: Global,
    places: &[Option<u64>],
    lines: &[Line],
    entries: &[Entry],
    entry: &Entry,
) -> Result<List<u64>, NoMemory>
    requires { ArePlaces lines.now entries.now places.now }
    ensures { IfOk result (λ b. b ≡ behind_of lines.now entries.now entry.now) }
{
    let mut behind = List::new(alloc);
    add_uses(&mut behind, places, lines, entries, entry)?;
    add(&mut behind, awaited_place(entries, &entry.call))?;
    add(&mut behind, maker_place(entries, waited_by(entries, entry)))?;
    Ok(behind)
}
