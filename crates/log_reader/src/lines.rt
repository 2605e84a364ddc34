//! The calls of a log's lines.
ghost use Rattle.std.specs.Prelude.{◌≡◌, ◌<◌, ◌≤◌, length, map, true, false, Some, IfOk, OnOk};
ghost use Rattle.std.specs.Option.{option_map};
ghost use Rattle.egl_calls.specs.Journals.{is_halt_kind};
ghost use Rattle.trace_reader.specs.Arguments.{are_placed, call_of, have_one_list};
ghost use Rattle.trace_reader.specs.Body.{assigned, target_of};
ghost use Rattle.trace_reader.specs.Order.{IsLineAt, IsNext, is_wait_end_kind};
ghost use Rattle.trace_reader.specs.Reading.{GivesLine};
ghost use Rattle.log_reader.specs.Lines.{is_new, line_of, line_with, log_line_in};

use crate::forms::{is_in_logs, takes_config, with_variable};
use call_table::Form;
use egl_calls::Kind;
use std::alloc::Global;
use trace_reader::arguments::call_of;
use trace_reader::body::{defect_of, thread_of};
use trace_reader::body_words::BodyWords;
use trace_reader::call_names::call_named;
use trace_reader::drafts::Draft;
use trace_reader::uses::references;
use trace_reader::variables::{Variables, is_variable};
use trace_reader::word_cuts::word_at;
use trace_reader::{Line, LineError, Reason};

/// How many bytes the payload of one line may have.
const MOST_LINE_PAYLOAD: u128 = 8_388_608;

/// Whether nothing is assigned, or a variable that is none of these.
fn is_new(variables: &Variables<'_>, target: Option<&[u8]>) -> bool
    ensures { result ≡ is_new variables.now (option_map (λ w. w.now) target.entry) }
{
    match target {
        Some(word) => is_variable(word) && variables.find(word).is_none(),
        None => true,
    }
}

fn assigned(count: u32, target: Option<&[u8]>) -> Option<u32>
    ensures value { result ≡ assigned count (option_map (λ w. w.now) target.entry) }
    ensures next { IsNext count result }
{
    match target {
        Some(_) => Some(count),
        None => None,
    }
}

/// The line of a call whose arguments have its forms, or its first defect.
#[tactic(auto, using(trace_reader::proofs::UseLaws::references_fit))]
fn line_with(
    alloc: Global,
    variables: &Variables<'_>,
    number: u64,
    thread: u32,
    target: Option<&[u8]>,
    forms: &[Form],
    arguments: &[&[u8]],
    draft: Draft<'_>,
) -> Result<Line, LineError>
    requires no_halt { is_halt_kind draft.kind ≡ false }
    requires no_wait_end { is_wait_end_kind draft.kind ≡ false }
    requires few { length forms.now ≤ 9 }
    requires all { length arguments.now ≡ length forms.now }
    requires placed { are_placed draft.kind 0 forms.now ≡ true }
    requires one_list { have_one_list forms.now ≡ true }
    requires called { Some draft ≡ call_of draft.kind forms.now (map (λ w. w.now) arguments.now) }
    ensures line { GivesLine result (line_with variables.now number thread (option_map (λ w. w.now) target.entry) forms.now (map (λ w. w.now) arguments.now) draft.entry) }
    ensures assigns { IfOk result (λ l. l.assigns ≡ assigned (length variables.now) (option_map (λ w. w.now) target.entry)) }
    ensures new { OnOk result (is_new variables.now (option_map (λ w. w.now) target.entry) ≡ true) }
    ensures thread { IfOk result (λ l. l.thread ≡ thread) }
    ensures order { IfOk result (IsLineAt (length variables.now) number (length variables.now)) }
{
    if !is_new(variables, target) {
        return Err(LineError::Defective(Reason::Variable));
    }
    let Ok(known) = references(alloc, variables, forms, arguments) else {
        return Err(LineError::NoMemory);
    };
    let Some(uses) = known else {
        return Err(LineError::Defective(Reason::Variable));
    };
    if draft.payload_size() > MOST_LINE_PAYLOAD {
        return Err(LineError::Defective(Reason::Limit));
    }
    let Ok(call) = draft.into_call(alloc) else {
        return Err(LineError::NoMemory);
    };
    Ok(Line {
        number,
        thread,
        assigns: assigned(variables.len(), target),
        call,
        uses,
    })
}

/// The line of a call of a kind with arguments of these forms, or its first defect. A name is looked up as its argument is read; unknown ones are looked for only where one has another form.
#[tactic(auto, using(crate::proofs::LineLaws::line_called, crate::proofs::LineLaws::line_uncalled))]
fn line_in(
    alloc: Global,
    variables: &Variables<'_>,
    number: u64,
    thread: u32,
    kind: Kind,
    forms: &[Form],
    target: Option<&[u8]>,
    arguments: &[&[u8]],
) -> Result<Line, LineError>
    requires no_halt { is_halt_kind kind ≡ false }
    requires no_wait_end { is_wait_end_kind kind ≡ false }
    requires few { length forms.now ≤ 9 }
    requires placed { are_placed kind 0 forms.now ≡ true }
    requires one_list { have_one_list forms.now ≡ true }
    ensures line { GivesLine result (log_line_in variables.now number thread (record { kind = kind; forms = forms.now }) (option_map (λ w. w.now) target.entry) (map (λ w. w.now) arguments.now)) }
    ensures assigns { IfOk result (λ l. l.assigns ≡ assigned (length variables.now) (option_map (λ w. w.now) target.entry)) }
    ensures new { OnOk result (is_new variables.now (option_map (λ w. w.now) target.entry) ≡ true) }
    ensures thread { IfOk result (λ l. l.thread ≡ thread) }
    ensures order { IfOk result (IsLineAt (length variables.now) number (length variables.now)) }
{
    let Ok(found) = call_of(alloc, kind, forms, arguments) else {
        return Err(LineError::NoMemory);
    };
    match found {
        Some(draft) => line_with(
            alloc, variables, number, thread, target, forms, arguments, draft,
        ),
        None => Err(LineError::Defective(defect_of(arguments))),
    }
}

/// The call of these words with this number, behind lines that assign these variables; or its first defect.
#[tactic(auto, unfolding(crate::specs::Lines::line_of))]
pub fn line_of(
    alloc: Global,
    threads: u32,
    variables: &Variables<'_>,
    number: u64,
    words: &BodyWords<'_, '_>,
) -> Result<Line, LineError>
    requires some { 0 < threads }
    ensures line { GivesLine result (line_of threads variables.now number (map (λ w. w.now) words.now.words.now)) }
    ensures assigns { IfOk result (λ l. l.assigns ≡ assigned (length variables.now) (target_of (map (λ w. w.now) words.now.words.now))) }
    ensures new { OnOk result (is_new variables.now (target_of (map (λ w. w.now) words.now.words.now)) ≡ true) }
    ensures thread { IfOk result (λ l. l.thread < threads) }
    ensures order { IfOk result (IsLineAt (length variables.now) number (length variables.now)) }
{
    let thread = match thread_of(threads, word_at(words.words, 0)) {
        Ok(thread) => thread,
        Err(reason) => return Err(LineError::Defective(reason)),
    };
    let Some((kind, forms)) = call_named(words.call()) else {
        return Err(LineError::Defective(Reason::Name));
    };
    if !is_in_logs(kind) {
        return Err(LineError::Defective(Reason::Name));
    }
    let target = words.target();
    let arguments = words.arguments();
    if !takes_config(forms) {
        return line_in(
            alloc, variables, number, thread, kind, forms, target, arguments,
        );
    }
    let Ok(forms) = with_variable(alloc, forms) else {
        return Err(LineError::NoMemory);
    };
    line_in(
        alloc, variables, number, thread, kind, &forms, target, arguments,
    )
}
