//! What stays of a state while private parts of threads are out.
ghost use Rattle.std.specs.Prelude.{◌≡◌, ℕ, List};
ghost use Rattle.egl_model.specs.State.{State, record_of};
ghost use Rattle.egl_model.specs.Sweep.{edges_at, references, roots};
ghost use Rattle.egl_model.specs.Waits.{is_signalled};
ghost use Rattle.model_laws.specs.Hidden.{hide};

/// Where parts are out, what all threads see stays: the windows with their fronts, the handles, which threads wait for what, which fences are signalled, the roots, what each object refers to, and how many references lead to it.
pub fn only_private_parts_go_out()
    ensures windows { (s : State) (out : List ℕ) → (hide out s).windows ≡ s.windows }
    ensures handles { (s : State) (out : List ℕ) → (hide out s).handles ≡ s.handles }
    ensures waits { (s : State) (out : List ℕ) (t : ℕ) → (record_of (hide out s) t).wait ≡ (record_of s t).wait }
    ensures signalled { (s : State) (out : List ℕ) (n : ℕ) → is_signalled (hide out s) n ≡ is_signalled s n }
    ensures roots { (s : State) (out : List ℕ) → roots (hide out s) ≡ roots s }
    ensures edges { (s : State) (out : List ℕ) → edges_at (hide out s).objects ≡ edges_at s.objects }
    ensures references { (s : State) (out : List ℕ) (n : ℕ) → references (hide out s) n ≡ references s n }
{}
