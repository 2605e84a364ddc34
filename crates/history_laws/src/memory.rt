//! Where GL_OUT_OF_MEMORY comes.
ghost use Rattle.std.specs.Prelude.{◌≡◌, ◌↔◌, ℕ, Some, true};
ghost use Rattle.egl_calls.specs.Calls.{CallValue};
ghost use Rattle.egl_calls.specs.declared.errors.GlError.TheVariants.{OutOfMemory};
ghost use Rattle.egl_calls.specs.declared.kinds.GlKind.{GlKind};
ghost use Rattle.call_table.specs.Rows.{gl_role};
ghost use Rattle.call_table.specs.declared.roles.Role.TheVariants.{Copies, Specifies};
ghost use Rattle.share_group.specs.declared.names.NameKind.TheVariants.{Buffer, Renderbuffer, Texture};
ghost use Rattle.egl_model.specs.Currents.{current_context};
ghost use Rattle.egl_model.specs.State.{State};
ghost use Rattle.model_laws.specs.Laws.{IsGlCall};
ghost use Rattle.model_laws.specs.Wants.{AnswersGl, WantsCopy, WantsData, WantsImage, WantsStorage};
ghost use Rattle.history_laws.specs.Memory.{IsFaultlessCopy, IsFaultlessData, IsFaultlessLevel, IsFaultlessStorage, may_want_bytes};

/// Only glTexImage2D, glCopyTexImage2D, glBufferData and glRenderbufferStorageOES answer GL_OUT_OF_MEMORY: no row of another call has that error.
pub fn four_calls_alone_want_bytes()
    ensures { (s : State) (t : ℕ) (c : CallValue) → AnswersGl s t c OutOfMemory → may_want_bytes c.kind ≡ true }
{}

/// Each of the four answers GL_OUT_OF_MEMORY exactly where nothing else is wrong, said in words of the call and of the state before it, and the bytes that live and the new ones are more than there may be (OpenGL ES 1.1, sections 2.9, 3.7.1 and 3.7.2; OES_framebuffer_object).
pub fn bytes_want_where_nothing_else_is_wrong()
    ensures image { (s : State) (t n : ℕ) (k : GlKind) (c : CallValue) → gl_role k ≡ Specifies Texture → IsGlCall s t k c → current_context s t ≡ Some n → AnswersGl s t c OutOfMemory ↔ (IsFaultlessLevel c × WantsImage s c) }
    ensures copied { (s : State) (t n : ℕ) (k : GlKind) (c : CallValue) → gl_role k ≡ Copies → IsGlCall s t k c → current_context s t ≡ Some n → AnswersGl s t c OutOfMemory ↔ (IsFaultlessCopy s t c × WantsCopy s c) }
    ensures contents { (s : State) (t n : ℕ) (k : GlKind) (c : CallValue) → gl_role k ≡ Specifies Buffer → IsGlCall s t k c → current_context s t ≡ Some n → AnswersGl s t c OutOfMemory ↔ (IsFaultlessData s n c × WantsData s c) }
    ensures storage { (s : State) (t n : ℕ) (k : GlKind) (c : CallValue) → gl_role k ≡ Specifies Renderbuffer → IsGlCall s t k c → current_context s t ≡ Some n → AnswersGl s t c OutOfMemory ↔ (IsFaultlessStorage s n c × WantsStorage s c) }
{}
