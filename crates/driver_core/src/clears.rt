//! Clears that take no memory.
ghost use Rattle.std.specs.Prelude.{◌≡◌, ℕ, true, List};
ghost use Rattle.egl_calls.specs.declared.kinds.Kind.TheVariants.{Gl};
ghost use Rattle.egl_calls.specs.declared.kinds.GlKind.TheVariants.{Clear};
ghost use Rattle.egl_model.specs.Framebuffers.{current_framebuffer_name};
ghost use Rattle.egl_model.specs.State.{State};
ghost use Rattle.model_laws.specs.Hidden.{hide};
ghost use Rattle.model_laws.specs.Sound.{IsSound};
ghost use Rattle.driver_facts.specs.Memory.{clears_own};

/// In a sound state surfaces have their pixels for their own: a glClear of a thread with the framebuffer of the window system bound takes no memory, whichever parts are out.
pub fn a_surface_is_cleared_without_memory()
    ensures { (s : State) (out : List ℕ) (t : ℕ) → IsSound s → current_framebuffer_name (hide out s) t ≡ 0 → clears_own (hide out s) t (Gl Clear) ≡ true }
{}
