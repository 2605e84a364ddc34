//! What is true of what a thread has to itself, in every step and history: the contracts of functions that do nothing.
ghost use Rattle.std.specs.Prelude.{◌≡◌, ◌≢◌, ◌<◌, ℕ, true, List, ◌∷◌, ◌++◌};
ghost use Rattle.egl_calls.specs.Calls.{CallValue};
ghost use Rattle.egl_calls.specs.declared.entries.Entry.{Entry};
ghost use Rattle.surface_store.specs.Windows.{windows_ok};
ghost use Rattle.surface_store.specs.declared.windows.WindowSpec.{WindowSpec};
ghost use Rattle.egl_model.specs.State.{State, capacity, opening};
ghost use Rattle.model_laws.specs.Frame.{as_step, moved_step, AreLocalFrom, AreOf, AreOfOthers, IsNone, IsReady};
ghost use Rattle.model_laws.specs.Hidden.{hide, without};
ghost use Rattle.egl_model.specs.History.{replay_from, IsLegalFrom};
ghost use Rattle.model_laws.specs.Local.{is_local, locally, part_after};
ghost use Rattle.egl_model.specs.Parts.{own_of, part_of, put_own};
ghost use Rattle.model_laws.specs.Sound.{IsSound};
ghost use Rattle.egl_model.specs.Step.{step};
ghost use Rattle.egl_model.specs.Sweep.{census};

/// In each history each of the threads has its part in: no part is out, and each image has its format and its sides.
pub fn histories_are_ready()
    ensures opening { (windows : List WindowSpec) → windows_ok windows ≡ true → (video t : ℕ) → t < capacity → IsReady (opening windows video) t }
    ensures step { (s : State) (t u : ℕ) (c : CallValue) → IsReady s t → IsReady (step s u c).state t }
{}

/// A step keeps the private parts of other threads.
pub fn a_step_keeps_other_parts()
    ensures { (s : State) (t u : ℕ) (c : CallValue) → IsReady s t → t ≢ u → part_of (step s u c).state t ≡ part_of s t }
{}

/// A local call changes its thread's own and nothing else, and its reply and the new part depend on the part and the call alone.
pub fn a_local_call_is_told_by_the_part()
    ensures step { (s : State) (t : ℕ) (c : CallValue) → IsReady s t → is_local (part_of s t) c ≡ true → step s t c ≡ as_step s t (locally (part_of s t) c) }
    ensures part { (s : State) (t : ℕ) (c : CallValue) → IsReady s t → is_local (part_of s t) c ≡ true → part_of (step s t c).state t ≡ part_after (part_of s t) c }
{}

/// Local calls of a thread that are legal where it made them are legal after any calls of others too, and leave the same part.
pub fn local_calls_may_come_late()
    ensures { (s : State) (t : ℕ) (others tail : List Entry) → IsReady s t → AreOfOthers t others → IsLegalFrom s others → AreOf t tail → IsLegalFrom s tail → AreLocalFrom part_of is_local s t tail →
        IsLegalFrom s (others ++ tail) × (part_of (replay_from s (others ++ tail)) t ≡ part_of (replay_from s tail) t) }
{}

/// A step of a thread whose part is in does the same to a state from which other parts are out.
pub fn parts_that_are_out_make_no_difference()
    ensures { (out : List ℕ) (s : State) (t : ℕ) (c : CallValue) → IsSound s → IsNone t out → step (hide out s) t c ≡ moved_step (hide out) (step s t c) }
{}

/// A part that is taken out is the thread's own, and brought back it leaves the state from which the others are out. While it is out, local calls of its thread change nothing of what stays.
pub fn a_part_comes_back()
    ensures taken { (s : State) (t : ℕ) (out : List ℕ) → IsReady s t → IsNone t out → own_of (hide out s) t ≡ own_of s t }
    ensures back { (s : State) (t : ℕ) (out : List ℕ) → IsSound s → put_own (hide out s) t (own_of s t) ≡ hide (without t out) s }
    ensures local { (s : State) (t : ℕ) (out : List ℕ) (c : CallValue) → IsReady s t → is_local (part_of s t) c ≡ true → hide (t ∷ out) (step s t c).state ≡ hide (t ∷ out) s }
    ensures census { (s : State) (out : List ℕ) → census (hide out s) ≡ census s }
{}
