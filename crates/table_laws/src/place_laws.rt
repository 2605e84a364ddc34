//! Which calls let go.
ghost use Rattle.std.specs.Prelude.{◌≡◌, is_none};
ghost use Rattle.egl_calls.specs.Journals.{is_halt_kind};
ghost use Rattle.egl_calls.specs.declared.kinds.EglKind.{EglKind as EglKinds};
ghost use Rattle.egl_calls.specs.declared.kinds.GlKind.{GlKind as GlKinds};
ghost use Rattle.egl_calls.specs.declared.kinds.Kind.TheVariants.{Own};
ghost use Rattle.egl_calls.specs.declared.kinds.OwnKind.{OwnKind as OwnKinds};
ghost use Rattle.call_table.specs.Roles.{lets_go};
ghost use Rattle.call_table.specs.Rows.{egl_role, gl_role, named_kind};
ghost use Rattle.table_laws.specs.Places.{egl_takes_place, gl_takes_place, is_inner, own_takes_place};

/// For the calls whose role lets go and for a Halt a token keeps a place in the journal, so that they need no memory. Those calls are eglTerminate, the four eglDestroy calls, eglWaitClient, eglReleaseThread, glFlush, glFinish and the four glDelete calls. The end of a wait, whose place its beginning keeps, and a Halt are the kinds that have no row.
pub fn kinds_that_take_a_place_are_these()
    ensures egl { (k : EglKinds) → lets_go (egl_role k) ≡ egl_takes_place k }
    ensures gl { (k : GlKinds) → lets_go (gl_role k) ≡ gl_takes_place k }
    ensures own { (k : OwnKinds) → is_halt_kind (Own k) ≡ own_takes_place k }
    ensures inner { (k : OwnKinds) → is_none (named_kind k) ≡ is_inner k }
{}
