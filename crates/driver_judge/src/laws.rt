//! What holds of all judgements: the contracts of functions that do nothing.
ghost use Rattle.std.specs.Prelude.{◌≡◌, ◌↔◌, ◌||◌, ◌≤◌, ℕ, List, [], ◌∷◌, ◌++◌, fold, is_some, length, true};
ghost use Rattle.egl_calls.specs.Calls.{CallValue};
ghost use Rattle.egl_calls.specs.declared.kinds.GlKind.{GlKind as GlKinds};
ghost use Rattle.driver_facts.specs.Verdicts.{refusals};
ghost use Rattle.egl_calls.specs.declared.entries.Entry.{Entry};
ghost use Rattle.egl_model.specs.History.{IsLegalFrom, replay_from};
ghost use Rattle.egl_model.specs.State.{State, opening};
ghost use Rattle.trace_model.specs.Follows.{IsPlayOf};
ghost use Rattle.trace_model.specs.Serial.{serial};
ghost use Rattle.trace_reader.specs.Traces.{TraceValue};
ghost use Rattle.log_reader.specs.Logs.{LogValue};
ghost use Rattle.log_reader.specs.declared.items.Called.{Called};
ghost use Rattle.log_reader.specs.declared.items.Item.{Item};
ghost use Rattle.log_reader.specs.declared.items.Item.TheVariants.{Call};
ghost use Rattle.log_reader.specs.declared.outcomes.LogOutcome.{LogOutcome};
ghost use Rattle.driver_judge.specs.Configs.{ConfigsValue};
ghost use Rattle.driver_judge.specs.Judgements.{Progress, judge_next, judged, judgement, opened, setting};
ghost use Rattle.driver_judge.specs.Fences.{step_beside};
ghost use Rattle.driver_judge.specs.Judging.{KeptValue, Setting, judge_call};
ghost use Rattle.driver_judge.specs.Laws.{AgreesInto, AgreesRightly, AnswerAsOurs, ChoosesLine, IsJudgedAs, IsNoted, IsOfARow, IsOfOurs, IsOneToOne, IsRefusedAnew, IsRun, LogAllows, MoreAllowMore, OneMoreAgrees, RecordsBy, RecordsLine, error_answer, reply_answer};
ghost use Rattle.driver_judge.specs.Outcomes.{agrees, errors_of, outcomes, refused_with};
ghost use Rattle.driver_judge.specs.UsedNames.{gl_names, has_objects, takes_image};

/// An error that agrees is of a row that holds, and that a call was carried out agrees only where none does.
pub fn what_agrees_is_right()
    ensures { (s : State) (t : ℕ) (c : CallValue) (o : LogOutcome) → agrees (outcomes s t c) o ≡ true → AgreesRightly s t c o }
{}

/// A larger step allows more: by it a line has the verdict that it has by a smaller one, but that pixels that differ may agree, or be fewer, and it leaves the same. So in a whole log the lines that are noted by the larger step are among those by the smaller one, each with the same verdict or fewer pixels; at least as many lines agree, and as many by a value of the driver's own.
pub fn more_steps_allow_more()
    ensures line { (configs : ConfigsValue) (delta more : ℕ) (s : State) (k : KeptValue) (item : Item) → delta ≤ more → MoreAllowMore (record { configs = configs; delta = delta }) (record { configs = configs; delta = more }) s k item }
    ensures log { (l : LogValue) (delta more : ℕ) → delta ≤ more → LogAllows (judgement l delta) (judgement l more) }
{}

/// Where each line agrees, the calls of a log are a run of the one-thread specification from the opening state, but that a call may be refused by another error of a row that holds, and a fence be served before it; and the log's answers are related to those of the run by what stands for what.
pub fn what_agrees_is_a_run()
    ensures { (l : LogValue) (delta : ℕ) → (judgement l delta).notes ≡ [] → IsRun (setting l delta) l.items (opened l).state (opened l).kept }
{}

/// A call of OpenGL ES has a list of names, or an argument for which a variable may stand, exactly where it is told where its names are, or takes an image: no call that names objects is taken for one without names.
pub fn calls_with_names_are_told()
    ensures { (k : GlKinds) → has_objects k ≡ (is_some (gl_names k) || takes_image k) }
{}

/// Behind each log, and so at each line of one, no name of the other driver stands for two of ours in a group and of a kind, no display of it for two of ours, and no context, surface, image or sync of it for two of ours that are valid on a display.
pub fn numbers_stand_for_one_each()
    ensures { (l : LogValue) (delta : ℕ) → IsOneToOne (judged l delta).beside.state (judged l delta).beside.kept.stands }
{}

/// What answers as ours agrees. The outcomes that agree are no fewer than those that `what_agrees_is_right` allows. A line whose call ours refuses agrees with the error of any row that holds, and leaves our state with that error; one whose call no row refuses agrees with our reply, where each handle, config and name in it stands for itself, and leaves the state behind our step. So a log whose lines all answer so has no difference.
pub fn what_answers_as_ours_agrees()
    ensures outcome { (s : State) (t : ℕ) (c : CallValue) (o : LogOutcome) → AgreesRightly s t c o → agrees (outcomes s t c) o ≡ true }
    ensures refused { (set : Setting) (x : Called) (s : State) (k : KeptValue) (c : CallValue) (e : LogOutcome) → IsJudgedAs set x s k c → IsOfARow s x.line.thread c e → x.answer ≡ error_answer e → AgreesInto (judge_call set x s k) (refused_with s x.line.thread e) }
    ensures carried_out { (set : Setting) (x : Called) (s : State) (k : KeptValue) (c : CallValue) → IsJudgedAs set x s k c → errors_of (refusals s x.line.thread c) ≡ [] → x.answer ≡ reply_answer (step_beside s x.line.thread c x.answer).reply → IsOfOurs set x s k c → AgreesInto (judge_call set x s k) (step_beside s x.line.thread c x.answer).state }
    ensures log { (l : LogValue) (delta : ℕ) → AnswerAsOurs (setting l delta) l.items (opened l).state (opened l).kept → ((judgement l delta).notes ≡ []) × ((judgement l delta).agreed ≡ length l.items) }
{}

/// Where the lines of a log are the entries of a legal history from the opening state, one by one, each handle, name and config that their replies tell is ours, and no fence is told signalled that ours has yet to serve, the log has no difference, and leaves the state that the history leaves. So has a log of what `serial` plays of a trace, or of a recording that `check` holds, if no wait blocks in it: both are legal histories.
pub fn what_is_recorded_agrees()
    ensures history { (l : LogValue) (delta : ℕ) (es : List Entry) → IsLegalFrom (opening l.windows l.video) es → RecordsBy RecordsLine (setting l delta) l.items es (opened l).state (opened l).kept → ((judgement l delta).notes ≡ []) × ((judgement l delta).agreed ≡ length l.items) × ((judged l delta).beside.state ≡ replay_from (opening l.windows l.video) es) }
    ensures serial { (l : LogValue) (delta : ℕ) (t : TraceValue) → t.windows ≡ l.windows → t.video ≡ l.video → RecordsBy RecordsLine (setting l delta) l.items (serial t) (opened l).state (opened l).kept → ((judgement l delta).notes ≡ []) × ((judgement l delta).agreed ≡ length l.items) }
    ensures play { (l : LogValue) (delta : ℕ) (t : TraceValue) (es : List Entry) → IsPlayOf t es → t.windows ≡ l.windows → t.video ≡ l.video → RecordsBy RecordsLine (setting l delta) l.items es (opened l).state (opened l).kept → ((judgement l delta).notes ≡ []) × ((judgement l delta).agreed ≡ length l.items) }
{}

/// Where a log has the threads and the calls of a recording, one line an entry, and chooses as ours wherever another driver may choose (the first row's error, our handles, names, configs and pixels, no fence signalled that ours has yet to serve), no line is noted exactly where the recording is a legal history from the opening state. That is what `check` asks of entries, beside that they follow a trace.
pub fn a_log_of_ours_is_judged_as_checked()
    ensures { (l : LogValue) (delta : ℕ) (es : List Entry) → RecordsBy ChoosesLine (setting l delta) l.items es (opened l).state (opened l).kept → ((judgement l delta).notes ≡ []) ↔ IsLegalFrom (opening l.windows l.video) es }
{}

/// A line of a call that is refused by an error of a row that holds may be put in wherever that error is noted already: it agrees, and all other lines are judged as without it. That is so where the thread's last call of EGL left this error, and where its context keeps an error of OpenGL ES, whichever.
pub fn a_refused_call_may_be_put_in()
    ensures line { (set : Setting) (p : Progress) (before after : List Item) (x : Called) (c : CallValue) (e : LogOutcome) → IsRefusedAnew set x (fold (judge_next set) p before).beside c e → OneMoreAgrees (fold (judge_next set) p (before ++ after)) (fold (judge_next set) p (before ++ Call x ∷ after)) }
    ensures noted { (s : State) (t : ℕ) (e : LogOutcome) → IsNoted s t e → refused_with s t e ≡ s }
{}
