//! At which place of a call's numbers each parameter stands.
ghost use Rattle.std.specs.Prelude.{◌≡◌, true};
ghost use Rattle.table_laws.specs.Words.{egl_rows_agree, gl_rows_agree, own_rows_agree};

/// Each row of the tables has the standard's name of a parameter at each place where its conditions, its effect or its answer look. And at each place of a row's numbers one of them looks, but at a `z`, a depth and a stencil, which are dropped.
pub fn words_stand_at_their_places()
    ensures egl { egl_rows_agree ≡ true }
    ensures gl { gl_rows_agree ≡ true }
    ensures own { own_rows_agree ≡ true }
{}
