//! What holds of the tables: the contract of a function that does nothing.
ghost use Rattle.std.specs.Prelude.{◌≡◌, Some};
ghost use Rattle.egl_calls.specs.declared.kinds.EglKind.{EglKind as EglKinds};
ghost use Rattle.egl_calls.specs.declared.kinds.GlKind.{GlKind as GlKinds};
ghost use Rattle.egl_calls.specs.declared.kinds.OwnKind.{OwnKind as OwnKinds};
ghost use Rattle.call_table.specs.Rows.{egl_kind, gl_kind, named_kind, own_kind};

/// The row that is looked up for a kind is that of the kind: the tables are in the order of the kinds. The end of a wait and a `Halt` have no row.
pub fn rows_stand_at_their_kinds()
    ensures egl { (k : EglKinds) → egl_kind k ≡ Some k }
    ensures gl { (k : GlKinds) → gl_kind k ≡ Some k }
    ensures own { (k : OwnKinds) → own_kind k ≡ named_kind k }
{}
