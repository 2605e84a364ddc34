//! Laws over the definitions: contracts of functions that do nothing.
ghost use Rattle.std.specs.Prelude.{◌≡◌, ℕ, length};
ghost use Rattle.egl_calls.specs.Calls.{CallValue};
ghost use Rattle.egl_model.specs.State.{State};
ghost use Rattle.egl_model.specs.Step.{step};
ghost use Rattle.egl_model.specs.Sweep.{edges_at, references, roots};
ghost use Rattle.driver_facts.specs.Verdicts.{refusals};
ghost use Rattle.egl_explain.specs.Deciding.{deciding, refusal_in};
ghost use Rattle.egl_explain.specs.References.{holders_of, is_object, is_outside, references_in, targets};

/// The first of the rows that hold is the error of the reply, and where none holds the call isn't refused.
pub fn the_first_row_decides()
    ensures { (s : State) (t : ℕ) (c : CallValue) → deciding (refusals s t c) ≡ refusal_in (step s t c).reply.outcome }
{}

/// The references that are told of are those of the specification, neither fewer nor more: handles and threads lead to the roots, an object along its edges, and to each object as many lead as there are references to it.
pub fn all_references_are_told()
    ensures outside { (s : State) → targets is_outside (references_in s) ≡ roots s }
    ensures edges { (s : State) (n : ℕ) → targets (is_object n) (references_in s) ≡ edges_at s.objects n }
    ensures count { (s : State) (n : ℕ) → length (holders_of n (references_in s)) ≡ references s n }
{}
