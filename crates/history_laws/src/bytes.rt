//! What new pixels and contents count.
ghost use Rattle.std.specs.Prelude.{◌≡◌, ◌+◌, ℕ, length, Some};
ghost use Rattle.buffer_objects.specs.Buffers.{BufferValue};
ghost use Rattle.egl_calls.specs.Calls.{CallValue};
ghost use Rattle.egl_calls.specs.declared.kinds.GlKind.{GlKind};
ghost use Rattle.call_table.specs.Rows.{gl_role};
ghost use Rattle.call_table.specs.declared.roles.Role.TheVariants.{Copies, Specifies};
ghost use Rattle.share_group.specs.declared.names.NameKind.TheVariants.{Buffer, Renderbuffer, Texture};
ghost use Rattle.egl_calls.specs.declared.places.TheConstants.{BUFFER_SIZE};
ghost use Rattle.egl_model.specs.Arguments.{number};
ghost use Rattle.egl_model.specs.Buffers.{target_buffer};
ghost use Rattle.egl_model.specs.Copies.{copied_bytes, read_image};
ghost use Rattle.egl_model.specs.GlCalls.{gl_effect};
ghost use Rattle.egl_model.specs.Objects.{buffer_in};
ghost use Rattle.egl_model.specs.Renderbuffers.{renderbuffer_bytes, target_renderbuffer};
ghost use Rattle.egl_model.specs.State.{State};
ghost use Rattle.egl_model.specs.Sweep.{live_bytes};
ghost use Rattle.egl_model.specs.Textures.{image_bytes, target_texture};
ghost use Rattle.pixel_rows.specs.Images.{ImageValue};
ghost use Rattle.model_laws.specs.Laws.{IsAllowedGl};

/// The pixels that a glTexImage2D, a glCopyTexImage2D or a glRenderbufferStorageOES makes take the bytes that its refusal counts, beside those that it replaces, and the contents that a glBufferData gives take as many as its size, in place of the former ones.
pub fn new_pixels_are_counted_as_they_are_made()
    ensures image { (s : State) (t n x : ℕ) (k : GlKind) (c : CallValue) → gl_role k ≡ Specifies Texture → IsAllowedGl s t n k c → target_texture s n ≡ Some x → live_bytes (gl_effect s t n k c).state.objects ≡ live_bytes s.objects + image_bytes c }
    ensures copied { (s : State) (t n x : ℕ) (k : GlKind) (c : CallValue) (from : ImageValue) → gl_role k ≡ Copies → IsAllowedGl s t n k c → target_texture s n ≡ Some x → read_image s t ≡ Some from → live_bytes (gl_effect s t n k c).state.objects ≡ live_bytes s.objects + copied_bytes c }
    ensures storage { (s : State) (t n x : ℕ) (k : GlKind) (c : CallValue) → gl_role k ≡ Specifies Renderbuffer → IsAllowedGl s t n k c → target_renderbuffer s n ≡ Some x → live_bytes (gl_effect s t n k c).state.objects ≡ live_bytes s.objects + renderbuffer_bytes c }
    ensures contents { (s : State) (t n x : ℕ) (k : GlKind) (c : CallValue) (b : BufferValue) → gl_role k ≡ Specifies Buffer → IsAllowedGl s t n k c → target_buffer s n c ≡ Some x → buffer_in s.objects x ≡ Some b → live_bytes (gl_effect s t n k c).state.objects + length b.contents ≡ live_bytes s.objects + number c BUFFER_SIZE }
{}
