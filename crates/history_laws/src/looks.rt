//! Which numbers of a call conditions look at.
ghost use Rattle.std.specs.Prelude.{◌≡◌, ℕ};
ghost use Rattle.egl_calls.specs.Calls.{CallValue};
ghost use Rattle.call_table.specs.declared.egl_conditions.EglCondition.{EglCondition};
ghost use Rattle.call_table.specs.declared.gl_conditions.GlCondition.{GlCondition};
ghost use Rattle.call_rules.specs.EglRules.{egl_holds};
ghost use Rattle.call_rules.specs.GlRules.{gl_holds};
ghost use Rattle.egl_model.specs.Facts.{facts_of};
ghost use Rattle.egl_model.specs.GlFacts.{gl_facts_of};
ghost use Rattle.egl_model.specs.State.{State};
ghost use Rattle.history_laws.specs.Looks.{egl_places, gl_places, seen_at};

/// Whether a condition holds is told by the numbers at the places that `table_laws` lists for it, by the call's list and by the state. It looks at no other number: so each number that a condition reads has the standard's name in the row (`words_stand_at_their_places`).
pub fn conditions_look_where_they_say()
    ensures egl { (x : EglCondition) (s : State) (t : ℕ) (c : CallValue) → let seen = seen_at (egl_places x) c in egl_holds x seen (facts_of s t seen) ≡ egl_holds x c (facts_of s t c) }
    ensures gl { (x : GlCondition) (s : State) (t n : ℕ) (c : CallValue) → let seen = seen_at (gl_places x) c in gl_holds x seen (gl_facts_of s t n seen) ≡ gl_holds x c (gl_facts_of s t n c) }
{}
