//! One line of a log beside our driver.
ghost use Rattle.std.specs.Prelude.{◌≡◌, ◌<◌, [], ◌∷◌, ◌++◌, All, None, Some, map, option_copied, IfOk, OnOk};
ghost use Rattle.egl_calls.specs.Ranges.{IsNumber, unsigned};
ghost use Rattle.egl_model.specs.Windows.{front_of};
ghost use Rattle.driver_judge.specs.Answers.{answer_difference, thread_group};
ghost use Rattle.driver_judge.specs.Configs.{our_config};
ghost use Rattle.driver_judge.specs.Judging.{agreed_outcome, agreeing, answered_behind, both_refused, carried_out, error_behind, front_difference, items_of, judge_call, judge_front, judge_item, kept_behind, left_out, makes, named, number_of, only_ours_refused, other_outcome, played, refusal_difference, thread_of, theirs_refused, unjudged, unless_at_fault, variable_behind, verdict_by, with_variable};
ghost use Rattle.driver_judge.specs.Fronts.{shown_format};
ghost use Rattle.driver_judge.specs.declared.sorts.Sort.TheVariants.{Equal};
ghost use Rattle.driver_judge.specs.Judgements.{setting};
ghost use Rattle.driver_judge.specs.Outcomes.{outcomes, refused_with};
ghost use Rattle.driver_judge.specs.UsedNames.{uses_renamed};
ghost use Rattle.driver_judge.specs.Variables.{IsItem};

use crate::answers::{bytes_beside, compare, items_beside, value_beside};
use crate::bases::{Basis, basis_of};
use crate::configs::ConfigMap;
use crate::differences::Difference;
use crate::facts::thread_group;
use crate::fences::serve_beside;
use crate::fronts::{front_bytes, note_format};
use crate::judgements::{LineVerdict, Unjudged};
use crate::kept::Kept;
use crate::outcomes::{agrees, outcomes};
use crate::pixels::{front_grid, no_grid};
use crate::sorts::Sort;
use crate::used_names::{name_places, uses_renamed_at};
use crate::variables::{Variable, our_call};
use driver_core::Driver;
use egl_calls::arguments::signed;
use egl_calls::places::{CONFIG, WINDOW};
use egl_calls::{Call, EglError, Kind, List, NoMemory, Reply};
use log_reader::{Answer, Called, Item, Log, LogOutcome, Shown, needs_no_answer};
use pixel_formats::Format;
use pixel_rows::Image;
use std::alloc::Global;
use std::marker::Model;
use trace_reader::Line;

/// What a log is judged by: which of its configs are ours, and the step that a component may differ by.
pub struct Setting {
    configs: ConfigMap,
    delta: u32,
}

// Written out, so that no crate above proves the drops of what it owns.
impl Drop for Setting {
    fn drop(self) {
        let Setting {
            configs: _,
            delta: _,
        } = self;
    }
}

impl Model for Setting {
    ghost use Rattle.driver_judge.specs.Judging.{Setting as SettingValue};

    ghost Value = { SettingValue };

    ghost view = { λ s. record { configs = s.configs; delta = s.delta } };
}

/// A thread's error behind a line that isn't played is theirs, as far as one of EGL tells it.
fn note_error(driver: &mut Driver, thread: u32, kind: Kind, outcome: LogOutcome)
    requires { thread < driver.old.made }
    ensures { driver.new ≡ record driver.old { state = error_behind driver.old.state thread kind outcome } }
{
    match (kind, outcome) {
        (Kind::Egl(_), LogOutcome::Done) => driver.refuse_egl(thread, EglError::Success),
        (Kind::Egl(_), LogOutcome::Egl(error)) => driver.refuse_egl(thread, error),
        _ => (),
    }
}

/// A line that isn't played, since one before it is at fault.
fn leave_out(
    alloc: Global,
    driver: &mut Driver,
    kept: &mut Kept,
    line: &Line,
    outcome: LogOutcome,
    fault: u64,
) -> Result<LineVerdict, NoMemory>
    requires { line.now.thread < driver.old.made }
    ensures verdict { IfOk result (λ v. v ≡ (left_out line.now outcome fault driver.old.state kept.old).verdict) }
    ensures state { OnOk result (driver.new ≡ record driver.old { state = (left_out line.now outcome fault driver.old.state kept.old).after.state }) }
    ensures kept { OnOk result (kept.new ≡ (left_out line.now outcome fault driver.old.state kept.old).after.kept) }
{
    kept.assign(line, Variable::lost(alloc, fault))?;
    kept.drift(line, fault);
    note_error(driver, line.thread, line.call.kind(), outcome);
    Ok(LineVerdict::After(fault))
}

/// A line that can't be judged.
fn leave_unjudged(
    alloc: Global,
    driver: &mut Driver,
    kept: &mut Kept,
    line: &Line,
    outcome: LogOutcome,
    why: Unjudged,
) -> Result<LineVerdict, NoMemory>
    requires { line.now.thread < driver.old.made }
    ensures verdict { IfOk result (λ v. v ≡ (unjudged line.now outcome (LineVerdict.Unjudged why) driver.old.state kept.old).verdict) }
    ensures state { OnOk result (driver.new ≡ record driver.old { state = (unjudged line.now outcome (LineVerdict.Unjudged why) driver.old.state kept.old).after.state }) }
    ensures kept { OnOk result (kept.new ≡ (unjudged line.now outcome (LineVerdict.Unjudged why) driver.old.state kept.old).after.kept) }
{
    kept.assign(line, Variable::lost(alloc, line.number))?;
    note_error(driver, line.thread, line.call.kind(), outcome);
    Ok(LineVerdict::Unjudged(why))
}

fn agreeing(sort: Sort) -> LineVerdict
    ensures { result ≡ agreeing sort }
{
    match sort {
        Sort::Own => LineVerdict::Own,
        _ => LineVerdict::Agreed,
    }
}

fn verdict_by(sort: Sort, difference: Option<Difference>) -> LineVerdict
    ensures { result ≡ verdict_by sort difference }
{
    match difference {
        Some(difference) => LineVerdict::Differs(difference),
        None => agreeing(sort),
    }
}

/// Whether what a call makes can't be mapped where its answer differs.
fn makes(sort: Sort) -> bool
    ensures { result ≡ makes sort }
{
    matches!(sort, Sort::NewHandle(_) | Sort::NewNames(_))
}

/// Numbers of ours for a variable.
fn our_items(alloc: Global, list: &[i64]) -> Result<List<Option<i64>>, NoMemory>
    requires { All IsNumber list.now }
    ensures value { IfOk result (λ l. l ≡ map (λ z. Some z) list.now) }
    ensures items { IfOk result (λ l. All IsItem l) }
{
    let mut items = List::new(alloc);
    'each: for number in list {
        push_item(&mut items, Some(*number))?;
    }
    Ok(items)
}

/// Our configs for theirs, for a variable.
fn our_configs(
    alloc: Global,
    configs: &ConfigMap,
    list: &[i128],
) -> Result<List<Option<i64>>, NoMemory>
    ensures value { IfOk result (λ l. l ≡ map (our_config configs.now.pairs) list.now) }
    ensures items { IfOk result (λ l. All IsItem l) }
{
    let mut items = List::new(alloc);
    'each: for number in list {
        push_item(&mut items, configs.ours(*number))?;
    }
    Ok(items)
}

fn push_item(items: &mut List<Option<i64>>, item: Option<i64>) -> Result<(), NoMemory>
    requires items { All IsItem items.old }
    requires item { IsItem item }
    ensures value { OnOk result (items.new ≡ items.old ++ item ∷ []) }
    ensures items { OnOk result (All IsItem items.new) }
{
    items.push(item)
}

fn items_of(
    alloc: Global,
    configs: &ConfigMap,
    sort: Sort,
    ours: &Reply,
    theirs: &Answer,
) -> Result<List<Option<i64>>, NoMemory>
    ensures value { IfOk result (λ l. l ≡ items_of configs.now sort ours.now theirs.now) }
    ensures items { IfOk result (λ l. All IsItem l) }
{
    match sort {
        Sort::ConfigList => our_configs(alloc, configs, theirs.list.as_slice()),
        _ => our_items(alloc, ours.list.as_slice()),
    }
}

/// What the variable of a line stands for behind a call that both carried out.
fn variable_behind(
    alloc: Global,
    configs: &ConfigMap,
    line: &Line,
    sort: Sort,
    ours: &Reply,
    theirs: &Answer,
    differs: bool,
) -> Result<Variable, NoMemory>
    ensures { IfOk result (λ v. v ≡ variable_behind configs.now line.now sort ours.now theirs.now differs) }
{
    if differs && makes(sort) {
        return Ok(Variable::lost(alloc, line.number));
    }
    let items = items_of(alloc, configs, sort, ours, theirs)?;
    Ok(Variable::kept(ours.value, items))
}

/// Keeps what that variable stands for, if the line assigns one.
fn keep_variable(
    alloc: Global,
    configs: &ConfigMap,
    kept: &mut Kept,
    line: &Line,
    sort: Sort,
    ours: &Reply,
    theirs: &Answer,
    differs: bool,
) -> Result<(), NoMemory>
    ensures { OnOk result (kept.new ≡ with_variable line.now (variable_behind configs.now line.now sort ours.now theirs.now differs) kept.old) }
{
    if line.assigns.is_none() {
        return Ok(());
    }
    let variable = variable_behind(alloc, configs, line, sort, ours, theirs, differs)?;
    kept.assign(line, variable)
}

/// Keeps what such a call answered.
fn keep_answer(
    alloc: Global,
    configs: &ConfigMap,
    kept: &mut Kept,
    line: &Line,
    call: &Call,
    sort: Sort,
    ours: &Reply,
    theirs: &Answer,
    differs: bool,
) -> Result<(), NoMemory>
    ensures { OnOk result (kept.new ≡ answered_behind configs.now line.now call.now sort ours.now theirs.now differs kept.old) }
{
    keep_variable(alloc, configs, kept, line, sort, ours, theirs, differs)?;
    note_format(
        call.kind,
        signed(call, WINDOW),
        signed(call, CONFIG),
        &mut kept.formats,
    )?;
    if !differs {
        kept.come_back(line);
    }
    Ok(())
}

/// Compares what both answered, and keeps it.
fn compare_answers(
    alloc: Global,
    setting: &Setting,
    kept: &mut Kept,
    line: &Line,
    call: &Call,
    basis: Basis,
    ours: &Reply,
    theirs: &Answer,
) -> Result<LineVerdict, NoMemory>
    ensures verdict { IfOk result (λ v. v ≡ verdict_by basis.sort (answer_difference setting.now.configs.pairs setting.now.delta kept.old.stands basis ours.now theirs.now)) }
    ensures kept { OnOk result (kept.new ≡ kept_behind setting.now.configs line.now call.now basis ours.now theirs.now (answer_difference setting.now.configs.pairs setting.now.delta kept.old.stands basis ours.now theirs.now) kept.old) }
{
    let Setting { configs, delta } = setting;
    let difference = compare(
        alloc,
        configs,
        *delta,
        &mut kept.stands,
        basis,
        call,
        ours,
        theirs,
    )?;
    let differs = difference.is_some();
    keep_answer(
        alloc, configs, kept, line, call, basis.sort, ours, theirs, differs,
    )?;
    Ok(verdict_by(basis.sort, difference))
}

/// A call that both carried out.
#[tactic(auto, unfolding(crate::specs::Judging::carried_out, crate::specs::Fences::step_beside))]
fn carried_out(
    alloc: Global,
    setting: &Setting,
    driver: &mut Driver,
    kept: &mut Kept,
    line: &Line,
    call: &Call,
    theirs: &Answer,
) -> Result<LineVerdict, NoMemory>
    requires { line.now.thread < driver.old.made }
    ensures verdict { IfOk result (λ v. v ≡ (carried_out setting.now line.now call.now theirs.now driver.old.state kept.old).verdict) }
    ensures state { OnOk result (driver.new ≡ record driver.old { state = (carried_out setting.now line.now call.now theirs.now driver.old.state kept.old).after.state }) }
    ensures kept { OnOk result (kept.new ≡ (carried_out setting.now line.now call.now theirs.now driver.old.state kept.old).after.kept) }
{
    let handles = kept.stands.handles();
    let basis = basis_of(alloc, driver, handles, line.thread, call, theirs.value);
    serve_beside(driver, call, theirs);
    let ours = driver.play(alloc, line.thread, call)?;
    compare_answers(alloc, setting, kept, line, call, basis, &ours, theirs)
}

/// Refuses a call by their error.
fn refuse(driver: &mut Driver, thread: u32, outcome: LogOutcome)
    requires { thread < driver.old.made }
    ensures { driver.new ≡ record driver.old { state = refused_with driver.old.state thread outcome } }
{
    match outcome {
        LogOutcome::Egl(error) => driver.refuse_egl(thread, error),
        LogOutcome::Gl(error) => driver.refuse_gl(thread, error),
        LogOutcome::Done | LogOutcome::Unnamed(_) => (),
    }
}

/// In what their answer to a call that both refused differs from none.
#[tactic(auto, unfolding(crate::specs::Judging::refusal_difference))]
fn refusal_difference(alloc: Global, theirs: &Answer) -> Result<Option<Difference>, NoMemory>
    ensures { IfOk result (λ d. d ≡ refusal_difference theirs.now) }
{
    if let Some(difference) = value_beside(Some(0), theirs.value) {
        return Ok(Some(difference));
    }
    if let Some(difference) = items_beside(alloc, &[], theirs.list.as_slice())? {
        return Ok(Some(difference));
    }
    bytes_beside(alloc, 0, no_grid(), &[], theirs.bytes.as_slice())
}

/// A call that both refused.
#[tactic(auto, unfolding(crate::specs::Judging::both_refused))]
fn both_refused(
    alloc: Global,
    driver: &mut Driver,
    kept: &mut Kept,
    line: &Line,
    theirs: &Answer,
) -> Result<LineVerdict, NoMemory>
    requires { line.now.thread < driver.old.made }
    ensures verdict { IfOk result (λ v. v ≡ (both_refused line.now theirs.now driver.old.state kept.old).verdict) }
    ensures state { OnOk result (driver.new ≡ record driver.old { state = (both_refused line.now theirs.now driver.old.state kept.old).after.state }) }
    ensures kept { OnOk result (kept.new ≡ (both_refused line.now theirs.now driver.old.state kept.old).after.kept) }
{
    let difference = refusal_difference(alloc, theirs)?;
    kept.assign(line, Variable::kept(0, List::new(alloc)))?;
    refuse(driver, line.thread, theirs.outcome);
    Ok(verdict_by(Sort::Equal, difference))
}

/// A call that ours refuses, and theirs carried out.
#[tactic(auto, unfolding(crate::specs::Judging::only_ours_refused))]
fn only_ours_refused(
    alloc: Global,
    driver: &mut Driver,
    kept: &mut Kept,
    line: &Line,
    call: &Call,
    difference: Difference,
) -> Result<LineVerdict, NoMemory>
    requires { line.now.thread < driver.old.made }
    ensures verdict { IfOk result (λ v. v ≡ (only_ours_refused line.now call.now difference driver.old.state kept.old).verdict) }
    ensures state { OnOk result (driver.new ≡ record driver.old { state = (only_ours_refused line.now call.now difference driver.old.state kept.old).after.state }) }
    ensures kept { OnOk result (kept.new ≡ (only_ours_refused line.now call.now difference driver.old.state kept.old).after.kept) }
{
    kept.assign(line, Variable::lost(alloc, line.number))?;
    kept.drift(line, line.number);
    driver.play(alloc, line.thread, call)?;
    Ok(LineVerdict::Differs(difference))
}

/// A call that theirs refused by an error that ours doesn't have.
#[tactic(auto, unfolding(crate::specs::Judging::theirs_refused))]
fn theirs_refused(
    alloc: Global,
    driver: &mut Driver,
    kept: &mut Kept,
    line: &Line,
    outcome: LogOutcome,
    difference: Difference,
) -> Result<LineVerdict, NoMemory>
    requires { line.now.thread < driver.old.made }
    ensures verdict { IfOk result (λ v. v ≡ (theirs_refused line.now outcome difference driver.old.state kept.old).verdict) }
    ensures state { OnOk result (driver.new ≡ record driver.old { state = (theirs_refused line.now outcome difference driver.old.state kept.old).after.state }) }
    ensures kept { OnOk result (kept.new ≡ (theirs_refused line.now outcome difference driver.old.state kept.old).after.kept) }
{
    kept.assign(line, Variable::kept(0, List::new(alloc)))?;
    refuse(driver, line.thread, outcome);
    Ok(LineVerdict::Differs(difference))
}

/// A call whose outcome agrees.
fn agreed_outcome(
    alloc: Global,
    setting: &Setting,
    driver: &mut Driver,
    kept: &mut Kept,
    line: &Line,
    call: &Call,
    theirs: &Answer,
) -> Result<LineVerdict, NoMemory>
    requires { line.now.thread < driver.old.made }
    ensures verdict { IfOk result (λ v. v ≡ (agreed_outcome setting.now line.now call.now theirs.now theirs.now.outcome driver.old.state kept.old).verdict) }
    ensures state { OnOk result (driver.new ≡ record driver.old { state = (agreed_outcome setting.now line.now call.now theirs.now theirs.now.outcome driver.old.state kept.old).after.state }) }
    ensures kept { OnOk result (kept.new ≡ (agreed_outcome setting.now line.now call.now theirs.now theirs.now.outcome driver.old.state kept.old).after.kept) }
{
    match theirs.outcome {
        LogOutcome::Done => carried_out(alloc, setting, driver, kept, line, call, theirs),
        LogOutcome::Egl(_) | LogOutcome::Gl(_) | LogOutcome::Unnamed(_) => {
            both_refused(alloc, driver, kept, line, theirs)
        }
    }
}

/// A call whose outcome differs.
fn other_outcome(
    alloc: Global,
    driver: &mut Driver,
    kept: &mut Kept,
    line: &Line,
    call: &Call,
    difference: Difference,
    outcome: LogOutcome,
) -> Result<LineVerdict, NoMemory>
    requires { line.now.thread < driver.old.made }
    ensures verdict { IfOk result (λ v. v ≡ (other_outcome line.now call.now difference outcome driver.old.state kept.old).verdict) }
    ensures state { OnOk result (driver.new ≡ record driver.old { state = (other_outcome line.now call.now difference outcome driver.old.state kept.old).after.state }) }
    ensures kept { OnOk result (kept.new ≡ (other_outcome line.now call.now difference outcome driver.old.state kept.old).after.kept) }
{
    match outcome {
        LogOutcome::Done => only_ours_refused(alloc, driver, kept, line, call, difference),
        LogOutcome::Egl(_) | LogOutcome::Gl(_) | LogOutcome::Unnamed(_) => {
            theirs_refused(alloc, driver, kept, line, outcome, difference)
        }
    }
}

#[tactic(auto, unfolding(crate::specs::Outcomes::outcomes))]
fn expected_outcomes(
    alloc: Global,
    driver: &Driver,
    thread: u32,
    call: &Call,
) -> Result<List<LogOutcome>, NoMemory>
    requires { thread < driver.now.made }
    ensures { IfOk result (λ l. l ≡ outcomes driver.now.state thread call.now) }
{
    outcomes(alloc, &driver.refusals(thread, call))
}

/// A call that is played.
#[tactic(auto, unfolding(crate::specs::Judging::played))]
fn play(
    alloc: Global,
    setting: &Setting,
    driver: &mut Driver,
    kept: &mut Kept,
    line: &Line,
    call: &Call,
    theirs: &Answer,
) -> Result<LineVerdict, NoMemory>
    requires { line.now.thread < driver.old.made }
    ensures verdict { IfOk result (λ v. v ≡ (played setting.now line.now call.now theirs.now driver.old.state kept.old).verdict) }
    ensures state { OnOk result (driver.new ≡ record driver.old { state = (played setting.now line.now call.now theirs.now driver.old.state kept.old).after.state }) }
    ensures kept { OnOk result (kept.new ≡ (played setting.now line.now call.now theirs.now driver.old.state kept.old).after.kept) }
{
    let expected = expected_outcomes(alloc, driver, line.thread, call)?;
    let found = theirs.outcome;
    if agrees(expected.as_slice(), found) {
        return agreed_outcome(alloc, setting, driver, kept, line, call, theirs);
    }
    let difference = Difference::Outcome {
        expected,
        found,
        kind: call.kind,
        refusals: driver.refusals(line.thread, call),
    };
    other_outcome(alloc, driver, kept, line, call, difference, found)
}

/// Whether the call of a line has a name as a number that is another's in theirs. Only where it has a name the group is asked for.
#[tactic(auto, unfolding(crate::specs::UsedNames::uses_renamed))]
fn uses_renamed(driver: &Driver, kept: &Kept, line: &Line) -> bool
    ensures { result ≡ uses_renamed kept.now.stands.renamed kept.now.stands.names (thread_group driver.now.state line.now.thread) line.now }
{
    match name_places(line.call.kind()) {
        Some(places) => {
            let group = thread_group(driver, line.thread);
            uses_renamed_at(
                kept.stands.renamed(),
                kept.stands.names(),
                group,
                &line.call,
                places,
            )
        }
        None => false,
    }
}

/// A call in our numbers, which may have a name that is another's in theirs.
#[tactic(auto, unfolding(crate::specs::Judging::named))]
fn judge_named(
    alloc: Global,
    setting: &Setting,
    driver: &mut Driver,
    kept: &mut Kept,
    line: &Line,
    call: &Call,
    theirs: &Answer,
) -> Result<LineVerdict, NoMemory>
    requires { line.now.thread < driver.old.made }
    ensures verdict { IfOk result (λ v. v ≡ (named setting.now line.now theirs.now call.now driver.old.state kept.old).verdict) }
    ensures state { OnOk result (driver.new ≡ record driver.old { state = (named setting.now line.now theirs.now call.now driver.old.state kept.old).after.state }) }
    ensures kept { OnOk result (kept.new ≡ (named setting.now line.now theirs.now call.now driver.old.state kept.old).after.kept) }
{
    if uses_renamed(driver, kept, line) {
        return leave_unjudged(alloc, driver, kept, line, theirs.outcome, Unjudged::Name);
    }
    play(alloc, setting, driver, kept, line, call, theirs)
}

/// A line that uses no lost variable.
fn judge_line(
    alloc: Global,
    setting: &Setting,
    driver: &mut Driver,
    kept: &mut Kept,
    line: &Line,
    theirs: &Answer,
) -> Result<LineVerdict, NoMemory>
    requires { line.now.thread < driver.old.made }
    ensures verdict { IfOk result (λ v. v ≡ (unless_at_fault setting.now line.now theirs.now None driver.old.state kept.old).verdict) }
    ensures state { OnOk result (driver.new ≡ record driver.old { state = (unless_at_fault setting.now line.now theirs.now None driver.old.state kept.old).after.state }) }
    ensures kept { OnOk result (kept.new ≡ (unless_at_fault setting.now line.now theirs.now None driver.old.state kept.old).after.kept) }
{
    match our_call(alloc, &setting.configs, kept.variables.as_slice(), line)? {
        Some(call) => judge_named(alloc, setting, driver, kept, line, &call, theirs),
        None => leave_unjudged(alloc, driver, kept, line, theirs.outcome, Unjudged::Config),
    }
}

/// A call of a log.
#[tactic(auto, unfolding(crate::specs::Judging::judge_call))]
fn judge_call(
    alloc: Global,
    setting: &Setting,
    driver: &mut Driver,
    kept: &mut Kept,
    called: &Called,
) -> Result<LineVerdict, NoMemory>
    requires { called.now.line.thread < driver.old.made }
    ensures verdict { IfOk result (λ v. v ≡ (judge_call setting.now called.now driver.old.state kept.old).verdict) }
    ensures state { OnOk result (driver.new ≡ record driver.old { state = (judge_call setting.now called.now driver.old.state kept.old).after.state }) }
    ensures kept { OnOk result (kept.new ≡ (judge_call setting.now called.now driver.old.state kept.old).after.kept) }
{
    let line = &called.line;
    if needs_no_answer(line.call.kind()) {
        kept.assign(line, Variable::kept(0, List::new(alloc)))?;
        return Ok(LineVerdict::Agreed);
    }
    match kept.fault_of(line) {
        Some(fault) => leave_out(alloc, driver, kept, line, called.answer.outcome, fault),
        None => judge_line(alloc, setting, driver, kept, line, &called.answer),
    }
}

#[tactic(auto, unfolding(crate::specs::Judging::front_difference))]
fn front_beside(
    alloc: Global,
    delta: u32,
    stored: Format,
    front: &Image,
    theirs: &[u8],
) -> Result<Option<Difference>, NoMemory>
    ensures { IfOk result (λ d. d ≡ front_difference delta stored theirs.now (Some front.now)) }
{
    let grid = front_grid(front.width(), front.height(), stored);
    let ours = front_bytes(alloc, front)?;
    bytes_beside(alloc, delta, grid, ours.as_slice(), theirs)
}

/// In what theirs differs from what a window shows.
#[tactic(auto, unfolding(crate::specs::Judging::front_difference))]
fn front_difference(
    alloc: Global,
    delta: u32,
    stored: Format,
    theirs: &[u8],
    front: Option<&Image>,
) -> Result<Option<Difference>, NoMemory>
    ensures { IfOk result (λ d. d ≡ front_difference delta stored theirs.now (option_copied front.entry)) }
{
    match front {
        Some(front) => front_beside(alloc, delta, stored, front, theirs),
        None => Ok(Some(Difference::Length {
            expected: 0,
            found: 0,
        })),
    }
}

/// In what theirs differs from what the window of an id shows.
fn window_difference(
    alloc: Global,
    delta: u32,
    driver: &Driver,
    stored: Format,
    window: i64,
    theirs: &[u8],
) -> Result<Option<Difference>, NoMemory>
    ensures { IfOk result (λ d. d ≡ front_difference delta stored theirs.now (front_of (unsigned window) driver.now.state)) }
{
    let front = driver.front(window);
    front_difference(alloc, delta, stored, theirs, front)
}

/// What a window shows to a thread whose context is ours.
fn judge_shown(
    alloc: Global,
    setting: &Setting,
    driver: &Driver,
    kept: &Kept,
    shown: &Shown,
) -> Result<LineVerdict, NoMemory>
    ensures { IfOk result (λ v. v ≡ verdict_by Equal (front_difference setting.now.delta (shown_format shown.now.window kept.now.formats) shown.now.bytes (front_of (unsigned shown.now.window) driver.now.state))) }
{
    let theirs = shown.bytes.as_slice();
    let window = shown.window;
    let stored = kept.shown_format(window);
    let difference = window_difference(alloc, setting.delta, driver, stored, window, theirs)?;
    Ok(verdict_by(Sort::Equal, difference))
}

/// What a window shows.
#[tactic(auto, unfolding(crate::specs::Judging::judge_front))]
fn judge_front(
    alloc: Global,
    setting: &Setting,
    driver: &Driver,
    kept: &Kept,
    shown: &Shown,
) -> Result<LineVerdict, NoMemory>
    ensures { IfOk result (λ v. v ≡ (judge_front setting.now shown.now driver.now.state kept.now).verdict) }
{
    match kept.adrift_at(shown.thread) {
        Some(fault) => Ok(LineVerdict::After(fault)),
        None => judge_shown(alloc, setting, driver, kept, shown),
    }
}

/// The number of a line, and its thread.
pub fn number_of(item: &Item) -> u64
    ensures { result ≡ number_of item.now }
{
    match item {
        Item::Call(called) => called.line.number,
        Item::Front(shown) => shown.number,
    }
}

/// A line of a log.
#[tactic(auto, unfolding(crate::specs::Judging::judge_item), using(crate::proofs::FrontLaws::front_state, crate::proofs::FrontLaws::front_kept))]
pub fn judge_item(
    alloc: Global,
    setting: &Setting,
    driver: &mut Driver,
    kept: &mut Kept,
    item: &Item,
) -> Result<LineVerdict, NoMemory>
    requires { thread_of item.now < driver.old.made }
    ensures verdict { IfOk result (λ v. v ≡ (judge_item setting.now item.now driver.old.state kept.old).verdict) }
    ensures state { OnOk result (driver.new ≡ record driver.old { state = (judge_item setting.now item.now driver.old.state kept.old).after.state }) }
    ensures kept { OnOk result (kept.new ≡ (judge_item setting.now item.now driver.old.state kept.old).after.kept) }
{
    match item {
        Item::Call(called) => judge_call(alloc, setting, driver, kept, called),
        Item::Front(shown) => judge_front(alloc, setting, driver, kept, shown),
    }
}

impl Setting {
    /// That of a log, with the step that a component may differ by.
    pub fn new(alloc: Global, log: &Log, delta: u32) -> Result<Setting, NoMemory>
        ensures { IfOk result (λ s. s ≡ setting log.now delta) }
    {
        Ok(Setting {
            configs: ConfigMap::new(alloc, log.configs())?,
            delta,
        })
    }
}
