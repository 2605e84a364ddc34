//! What is true of every sweep, step and history: the contracts of functions that do nothing.
ghost use Rattle.std.specs.Prelude.{◌≡◌, ◌≢◌, ◌<◌, ◌+◌, ◌⊎◌, ◌↔◌, ℕ, ℤ, pos, ◌&&◌, ◌==◌, true, false, All, AllPairs, ◌≤◌, if◌then◌else◌, length, List, ◌++◌, None, Some, Contains, IfSome, is_some};
ghost use Rattle.display_table.specs.declared.handles.Handle.{Handle};
ghost use Rattle.model_laws.specs.Deleted.{HasDetached, HasUnbound, IsNamedBy, attached_at, is_attachable};
ghost use Rattle.framebuffer_objects.specs.Framebuffers.{FramebufferValue as AFramebuffer, at_point, object_of as object_attached};
ghost use Rattle.framebuffer_objects.specs.declared.points.Point.{Point as APoint};
ghost use Rattle.egl_model.specs.Framebuffers.{target_framebuffer};
ghost use Rattle.egl_names.specs.declared.codes.TheConstants.{GL_FRAMEBUFFER_COMPLETE_OES, GL_FRAMEBUFFER_INCOMPLETE_ATTACHMENT_OES, GL_FRAMEBUFFER_INCOMPLETE_DIMENSIONS_OES, GL_FRAMEBUFFER_INCOMPLETE_MISSING_ATTACHMENT_OES, GL_FRAMEBUFFER_UNDEFINED_OES, GL_FRAMEBUFFER_UNSUPPORTED_OES};
ghost use Rattle.model_laws.specs.Statuses.{AnswersStatus, HasUnfit, HasUnlike, IsBare, HasFramebufferBound, HasWindowBound, IsCheck, IsComplete, LacksColor};
ghost use Rattle.model_laws.specs.Destroyed.{IsRemoved, KeepsCurrents};
ghost use Rattle.egl_calls.specs.Arguments.{is_zero};
ghost use Rattle.egl_calls.specs.Calls.{CallValue};
ghost use Rattle.egl_calls.specs.declared.entries.Entry.{Entry};
ghost use Rattle.egl_calls.specs.declared.kinds.Kind.TheVariants.{Egl, Own};
ghost use Rattle.egl_calls.specs.declared.kinds.EglKind.{EglKind};
ghost use Rattle.egl_calls.specs.declared.kinds.EglKind.TheVariants.{Initialize, Terminate, CreatePbufferSurface, CreateContext, ReleaseThread, CreateWindowSurface, CreateSync, ClientWaitSync, CreateImage, DestroyImage};
ghost use Rattle.egl_calls.specs.declared.kinds.GlKind.{GlKind};
ghost use Rattle.egl_calls.specs.declared.kinds.GlKind.TheVariants.{CopyTexImage2d, TexImage2d, BufferData, RenderbufferStorage, ImageTargetTexture2d, ImageTargetRenderbufferStorage};
ghost use Rattle.egl_calls.specs.Ranges.{unsigned};
ghost use Rattle.egl_calls.specs.declared.kinds.OwnKind.{OwnKind};
ghost use Rattle.egl_calls.specs.declared.kinds.OwnKind.TheVariants.{ReadBuffer, WaitEnd};
ghost use Rattle.egl_calls.specs.declared.errors.EglError.{EglError as AnEglError};
ghost use Rattle.egl_calls.specs.declared.errors.EglError.TheVariants.{BadAlloc};
ghost use Rattle.egl_calls.specs.declared.errors.GlError.{GlError as AGlError};
ghost use Rattle.egl_calls.specs.declared.errors.GlError.TheVariants.{NoError, OutOfMemory};
ghost use Rattle.egl_calls.specs.declared.errors.Outcome.TheVariants.{Done, InWait, NoWait, Waiting, Egl as RefusedEgl, Gl as RefusedGl};
ghost use Rattle.context_state.specs.Parts.{PartValue};
ghost use Rattle.call_rules.specs.EglAllowed.{makes_handle};
ghost use Rattle.call_rules.specs.GlAllowed.{CopyAsked, ImageAsked, DataAsked, StorageAsked};
ghost use Rattle.call_rules.specs.EglRules.{is_release};
ghost use Rattle.display_table.specs.declared.handles.HandleKind.{HandleKind as AHandleKind};
ghost use Rattle.display_table.specs.declared.handles.HandleKind.TheVariants.{Context, Surface};
ghost use Rattle.model_laws.specs.Extents.{destroyed_handle, extent_of_kind, made_handle};
ghost use Rattle.surface_store.specs.Windows.{windows_ok};
ghost use Rattle.surface_store.specs.declared.windows.WindowSpec.{WindowSpec};
ghost use Rattle.egl_model.specs.State.{State, object_at, opening, record_of, set_error, initial, has_object};
ghost use Rattle.egl_model.specs.Currents.{current_context, draw_storage, part_of_context};
ghost use Rattle.egl_model.specs.Sweep.{is_reached, live_bytes, sweep};
ghost use Rattle.egl_model.specs.Flushes.{flushed};
ghost use Rattle.egl_model.specs.Images.{source_storage, target_image};
ghost use Rattle.egl_image.specs.declared.images.EglImage.{EglImage as AnEglImage};
ghost use Rattle.driver_objects.specs.declared.renderbuffers.BackedRenderbuffer.{BackedRenderbuffer};
ghost use Rattle.framebuffer_objects.specs.Renderbuffers.{of_kind};
ghost use Rattle.framebuffer_objects.specs.declared.points.Point.TheVariants.{Color};
ghost use Rattle.egl_model.specs.MakeCurrent.{draw_handle};
ghost use Rattle.egl_model.specs.Objects.{context_in, fence_in, renderbuffer_in, framebuffer_in, storage_in, surface_of, texture_in};
ghost use Rattle.model_laws.specs.Frame.{IsReady};
ghost use Rattle.egl_model.specs.Names.{group_of, names_in, object_named};
ghost use Rattle.texture_objects.specs.declared.levels.TheConstants.{LEVELS};
ghost use Rattle.egl_model.specs.Textures.{level_of, storage_at, target_texture};
ghost use Rattle.egl_model.specs.Renderbuffers.{target_renderbuffer};
ghost use Rattle.driver_objects.specs.Storages.{StorageValue};
ghost use Rattle.driver_objects.specs.declared.contexts.Context.{Context as AContext};
ghost use Rattle.driver_objects.specs.declared.textures.BackedTexture.{BackedTexture};
ghost use Rattle.share_group.specs.Names.{is_used};
ghost use Rattle.share_group.specs.declared.names.NameKind.{NameKind as ANameKind};
ghost use Rattle.call_table.specs.Rows.{gl_role};
ghost use Rattle.call_table.specs.declared.roles.Role.TheVariants.{Deletes};
ghost use Rattle.model_laws.specs.Shapes.{shapes};
ghost use Rattle.driver_objects.specs.declared.fences.Fence.{Fence as AFence};
ghost use Rattle.driver_objects.specs.declared.kinds.ObjectKind.TheVariants.{Context as ContextKind};
ghost use Rattle.egl_model.specs.EglCalls.{egl_refusal};
ghost use Rattle.egl_model.specs.GlCalls.{gl_refusal};
ghost use Rattle.egl_model.specs.GlFacts.{gl_facts_of};
ghost use Rattle.egl_model.specs.Step.{bare, done, note_error, step};
ghost use Rattle.egl_model.specs.Waits.{ended, is_signalled};
ghost use Rattle.egl_model.specs.Windows.{back_of, created_window, front_of};
ghost use Rattle.egl_names.specs.declared.codes.TheConstants.{EGL_BUFFER_DESTROYED, EGL_BUFFER_PRESERVED};
ghost use Rattle.driver_objects.specs.declared.surfaces.BackedSurface.{BackedSurface as ASurface};
ghost use Rattle.pixel_formats.specs.declared.formats.Format.TheVariants.{Rgba8888};
ghost use Rattle.pixel_rows.specs.Images.{ImageValue as AnImage, blank};
ghost use Rattle.model_laws.specs.Swaps.{HasSwapBehavior, IsSwap, forms};
ghost use Rattle.egl_model.specs.History.{replay_from, IsLegalFrom};
ghost use Rattle.model_laws.specs.Laws.{HasNoLitter, IsAllowedEgl, IsAllowedGl, IsEglCall, IsGlCall, IsRefusedEgl, IsRefusedGl, HandlesAreNew, ObjectsAreNew, StayValid};
ghost use Rattle.egl_model.specs.Surfaces.{created_pbuffer};
ghost use Rattle.egl_model.specs.Contexts.{created_context};
ghost use Rattle.egl_model.specs.Links.{IsHeld, IsLinked};
ghost use Rattle.model_laws.specs.Named.{Exists, IsHandled, IsHeldByThread, IsUsed};
ghost use Rattle.model_laws.specs.Kinds.{IsA, KindsFit};
ghost use Rattle.model_laws.specs.DisplayCalls.{IsInitialized, IsTerminated};
ghost use Rattle.model_laws.specs.CurrentCalls.{HasNoneCurrent, IsBoundBy, IsGiven, IsMadeCurrent, with_box};
ghost use Rattle.model_laws.specs.NewHandles.{HasNewHandle, HasNewImage};
ghost use Rattle.model_laws.specs.Siblings.{LeavesSiblings};
ghost use Rattle.egl_model.specs.Displays.{is_initialized};
ghost use Rattle.egl_model.specs.Arguments.{number};
ghost use Rattle.model_laws.specs.Sound.{IsSound};
ghost use Rattle.model_laws.specs.Refs.{AreNamesApart, size, objects_gone, refs_gone};
ghost use Rattle.egl_model.specs.Syncs.{flush_for, sync_handle, waits_forever};
ghost use Rattle.egl_names.specs.declared.codes.TheConstants.{EGL_CONDITION_SATISFIED, EGL_TIMEOUT_EXPIRED};
ghost use Rattle.model_laws.specs.ClientWaits.{IsSatisfied, IsUnsatisfied};
ghost use Rattle.model_laws.specs.Wants.{Answers, AnswersGl, AsksTooLarge, IsFaultlessContext, IsFaultlessImage, IsFaultlessPbuffer, IsFaultlessSync, IsFaultlessWindow, IsWindowUsed, PixelsFit, WantsCopy, WantsImage, WantsNumber, WantsVideo, WantsWindowPixels, asked_bytes, window_bytes, WantsData, WantsStorage};

/// A sweep leaves each object that chains of references reach as it is, and no other; it changes what is reached for none.
pub fn a_sweep_keeps_what_is_reached()
    ensures object { (s : State) (n : ℕ) → object_at (sweep s) n ≡ (if is_reached s n then object_at s n else None) }
    ensures reached { (s : State) (n : ℕ) → is_reached (sweep s) n ≡ is_reached s n }
    ensures exists { (s : State) (n : ℕ) → has_object (sweep s) n ≡ (has_object s n && is_reached (sweep s) n) }
    ensures places { (s : State) → length (sweep s).objects ≡ length s.objects }
{}

/// To sweep twice is to sweep once.
pub fn a_sweep_is_done_at_once()
    ensures { (s : State) → sweep (sweep s) ≡ sweep s }
{}

/// Each object is reached: after a sweep, before the first call, and after a step wherever it was so before. So it's so in each history.
pub fn no_litter_is_left()
    ensures sweep { (s : State) → HasNoLitter (sweep s) }
    ensures opening { (windows : List WindowSpec) → windows_ok windows ≡ true → (video : ℕ) → HasNoLitter (opening windows video) }
    ensures step { (s : State) (t : ℕ) (c : CallValue) → HasNoLitter s → HasNoLitter (step s t c).state }
    ensures history { (windows : List WindowSpec) → windows_ok windows ≡ true → (video : ℕ) (entries : List Entry) → HasNoLitter (replay_from (opening windows video) entries) }
{}

/// Each root and each reference leads to an object, before the first call and after each step from a sound state; then no chain is longer than those that a sweep follows.
pub fn references_lead_to_objects()
    ensures opening { (windows : List WindowSpec) → windows_ok windows ≡ true → (video : ℕ) → IsLinked (opening windows video) }
    ensures step { (s : State) (t : ℕ) (c : CallValue) → IsSound s → IsLinked (step s t c).state }
    ensures chains { (s : State) (n : ℕ) → IsLinked s → IsHeld s n → is_reached s n ≡ true }
{}

/// In each history an object exists exactly where a chain of references leads to it.
pub fn an_object_exists_exactly_where_it_is_held()
    ensures { (windows : List WindowSpec) → windows_ok windows ≡ true → (video : ℕ) (entries : List Entry) (n : ℕ) → (has_object (replay_from (opening windows video) entries) n ≡ true) ↔ IsHeld (replay_from (opening windows video) entries) n }
{}

/// Handles name objects of their kind; a context and surfaces are current to threads; a context has a group and a texture, and a surface a storage. Holds before the first call, after each step from a sound state, and so in each history.
pub fn names_lead_to_objects_of_their_kind()
    ensures opening { (windows : List WindowSpec) → windows_ok windows ≡ true → (video : ℕ) → let s = opening windows video in KindsFit (shapes s.objects) s }
    ensures step { (s : State) (t : ℕ) (c : CallValue) → IsSound s → let a = (step s t c).state in KindsFit (shapes a.objects) a }
    ensures history { (windows : List WindowSpec) → windows_ok windows ≡ true → (video : ℕ) (entries : List Entry) → let s = replay_from (opening windows video) entries in KindsFit (shapes s.objects) s }
{}

/// In each history what exists has a handle, or is current to a thread, or is used by a context or a surface.
pub fn what_exists_is_named()
    ensures { (windows : List WindowSpec) → windows_ok windows ≡ true → (video : ℕ) (entries : List Entry) (n : ℕ) → let s = replay_from (opening windows video) entries in Exists s n → IsHandled s n ⊎ (IsHeldByThread s n ⊎ IsUsed s n) }
{}

/// A refused call of EGL answers its error, and changes its thread's error and nothing else (EGL 1.5, section 3.1).
pub fn a_refused_egl_call_sets_its_error_alone()
    ensures reply { (s : State) (t : ℕ) (k : EglKind) (c : CallValue) (e : AnEglError) → IsRefusedEgl s t k c e → (step s t c).reply ≡ bare (RefusedEgl e) }
    ensures state { (s : State) (t : ℕ) (k : EglKind) (c : CallValue) (e : AnEglError) → IsRefusedEgl s t k c e → (step s t c).state ≡ set_error s t e }
    ensures thread { (s : State) (t : ℕ) (e : AnEglError) → t < length s.threads → record_of (set_error s t e) t ≡ record (record_of s t) { error = e } }
    ensures others { (s : State) (t u : ℕ) (e : AnEglError) → u ≢ t → record_of (set_error s t e) u ≡ record_of s u }
    ensures rest { (s : State) (t : ℕ) (e : AnEglError) → record (set_error s t e) { threads = s.threads } ≡ s }
{}

/// A refused call of OpenGL ES answers its error, and changes the error that its context keeps and nothing else; where one is kept it changes nothing (OpenGL ES 1.1, section 2.5).
pub fn a_refused_gl_call_sets_its_error_alone()
    ensures reply { (s : State) (t n : ℕ) (k : GlKind) (c : CallValue) (e : AGlError) → IsRefusedGl s t n k c e → (step s t c).reply ≡ bare (RefusedGl e) }
    ensures state { (s : State) (t n : ℕ) (k : GlKind) (c : CallValue) (e : AGlError) → IsRefusedGl s t n k c e → (step s t c).state ≡ note_error s n e }
    ensures first { (s : State) (n : ℕ) (e : AGlError) (p : PartValue) → part_of_context s n ≡ Some p → p.error ≡ NoError → part_of_context (note_error s n e) n ≡ Some (record p { error = e }) }
    ensures later { (s : State) (n : ℕ) (e : AGlError) (p : PartValue) → part_of_context s n ≡ Some p → p.error ≢ NoError → note_error s n e ≡ s }
    ensures others { (s : State) (n m : ℕ) (e : AGlError) → m ≢ n → object_at (note_error s n e) m ≡ object_at s m }
    ensures rest { (s : State) (n : ℕ) (e : AGlError) → record (note_error s n e) { objects = s.objects } ≡ s }
{}

/// Without a current context a call of OpenGL ES changes nothing.
pub fn without_a_context_nothing_changes()
    ensures { (s : State) (t : ℕ) (k : GlKind) (c : CallValue) → IsGlCall s t k c → current_context s t ≡ None → step s t c ≡ record { reply = bare Done; state = s } }
{}

/// A thread that waits for a sync makes no call but the end of its wait: any other is held up and changes nothing. The end comes once the sync is signalled; then the thread waits no more, and what nothing else holds is gone. Without a wait there is none to end (EGL 1.5, section 3.8.1).
pub fn a_wait_holds_up_until_its_end()
    ensures held_up { (s : State) (t : ℕ) (c : CallValue) (sync : ℕ) → (record_of s t).wait ≡ Some sync → c.kind ≢ Own WaitEnd → step s t c ≡ record { reply = bare InWait; state = s } }
    ensures waits { (s : State) (t : ℕ) (c : CallValue) (sync : ℕ) → (record_of s t).wait ≡ Some sync → c.kind ≡ Own WaitEnd → is_signalled s sync ≡ false → step s t c ≡ record { reply = bare Waiting; state = s } }
    ensures ends { (s : State) (t : ℕ) (c : CallValue) (sync : ℕ) → (record_of s t).wait ≡ Some sync → c.kind ≡ Own WaitEnd → is_signalled s sync ≡ true → step s t c ≡ record { reply = done (ended s t); state = sweep (ended s t).state } }
    ensures none { (s : State) (t : ℕ) (c : CallValue) → (record_of s t).wait ≡ None → c.kind ≡ Own WaitEnd → step s t c ≡ record { reply = bare NoWait; state = s } }
{}

/// This project's own calls change nothing, but for the end of a wait, and readBuffer, whose context keeps its error.
pub fn own_calls_change_nothing()
    ensures { (s : State) (t : ℕ) (k : OwnKind) (c : CallValue) → c.kind ≡ Own k → k ≢ ReadBuffer → k ≢ WaitEnd → (step s t c).state ≡ s }
{}

/// An eglSwapBuffers that no rule refuses, of a window's surface, leaves in the window what the back buffer has, on its sides and with 8 bits a component; other windows show what they showed. The back buffer stays as it was where EGL_SWAP_BEHAVIOR is EGL_BUFFER_PRESERVED, and is all 0 where it is EGL_BUFFER_DESTROYED. A pbuffer's swap changes no pixel (sections 3.5.6 and 3.10.1).
pub fn a_swap_shows_the_back_buffer()
    ensures there { (s : State) (t : ℕ) (c : CallValue) (x : ASurface) → IsSound s → IsSwap s t c x → is_some (back_of s x) ≡ true }
    ensures front { (s : State) (t : ℕ) (c : CallValue) (x : ASurface) (id : ℤ) (back : AnImage) → IsSound s → IsSwap s t c x → x.surface.window ≡ Some id → back_of s x ≡ Some back → front_of (unsigned id) (step s t c).state ≡ Some (record back { format = Rgba8888 }) }
    ensures others { (s : State) (t : ℕ) (c : CallValue) (x : ASurface) (id : ℤ) (other : ℕ) → IsSwap s t c x → x.surface.window ≡ Some id → other ≢ unsigned id → front_of other (step s t c).state ≡ front_of other s }
    ensures preserved { (s : State) (t : ℕ) (c : CallValue) (x : ASurface) (id : ℤ) (back : AnImage) → IsSound s → IsSwap s t c x → x.surface.window ≡ Some id → back_of s x ≡ Some back → HasSwapBehavior x EGL_BUFFER_PRESERVED → back_of (step s t c).state x ≡ Some back }
    ensures destroyed { (s : State) (t : ℕ) (c : CallValue) (x : ASurface) (id : ℤ) (back : AnImage) → IsSound s → IsSwap s t c x → x.surface.window ≡ Some id → back_of s x ≡ Some back → HasSwapBehavior x EGL_BUFFER_DESTROYED → back_of (step s t c).state x ≡ Some (blank back.format back.width back.height) }
    ensures pbuffer { (s : State) (t : ℕ) (c : CallValue) (x : ASurface) → IsSwap s t c x → x.surface.window ≡ None → (step s t c).state.windows ≡ s.windows }
    ensures pixels { (s : State) (t : ℕ) (c : CallValue) (x : ASurface) → IsSound s → IsSwap s t c x → x.surface.window ≡ None → back_of (step s t c).state x ≡ back_of s x }
{}

/// Whatever a call does, a window keeps its id, and the format and the sides of what it shows.
pub fn windows_keep_their_sides()
    ensures step { (s : State) (t : ℕ) (c : CallValue) → forms (step s t c).state.windows ≡ forms s.windows }
    ensures history { (windows : List WindowSpec) (video : ℕ) (entries : List Entry) → forms (replay_from (opening windows video) entries).windows ≡ forms (opening windows video).windows }
{}

/// A fence whose context is gone is signalled, so the context of one that isn't signalled is there; a flush signals the fences that its context has made, and leaves those of other contexts (EGL 1.5, section 3.8.1).
pub fn a_fence_is_signalled_by_its_context()
    ensures ended { (s : State) (n : ℕ) (x : AFence) → fence_in s.objects n ≡ Some x → has_object s x.context ≡ false → is_signalled s n ≡ true }
    ensures there { (s : State) (n : ℕ) (x : AFence) → fence_in s.objects n ≡ Some x → is_signalled s n ≡ false → IsA ContextKind s x.context }
    ensures flush { (s : State) (n c : ℕ) (x : AFence) → fence_in s.objects n ≡ Some x → x.context ≡ c → is_signalled (flushed (Some c) s) n ≡ true }
    ensures others { (s : State) (n c : ℕ) (x : AFence) → fence_in s.objects n ≡ Some x → x.context ≢ c → is_signalled (flushed (Some c) s) n ≡ is_signalled s n }
{}

/// A call of one thread leaves what is kept for another, and there are as many records as before.
pub fn a_step_keeps_other_threads()
    ensures others { (s : State) (t u : ℕ) (c : CallValue) → t ≢ u → record_of (step s u c).state t ≡ record_of s t }
    ensures count { (s : State) (t : ℕ) (c : CallValue) → length (step s t c).state.threads ≡ length s.threads }
{}

/// A handle stays valid but by eglTerminate, which takes those of its display alone, and by the calls that destroy (`destroyed_handle`), which take the one that they are given alone (EGL 1.5, section 2.1).
pub fn handles_stay_valid()
    ensures other_calls { (s : State) (t : ℕ) (c : CallValue) → (extent_of_kind c.kind).drops ≡ false → StayValid s (step s t c).state }
    ensures terminated { (s : State) (t : ℕ) (c : CallValue) (h : Handle) → IsTerminated s t c → (h.display == number c 0) ≡ false → Contains s.handles h → Contains (step s t c).state.handles h }
    ensures destroyed { (s : State) (t : ℕ) (k : EglKind) (c : CallValue) (kind : AHandleKind) → IsAllowedEgl s t k c → destroyed_handle k ≡ Some kind → IsRemoved s (step s t c).state (number c 1) }
{}

/// What a call destroys (`destroyed_handle`) stays current to each thread to which it is (sections 3.5.5 and 3.7.2).
pub fn what_is_destroyed_stays_current()
    ensures { (s : State) (t : ℕ) (k : EglKind) (c : CallValue) (kind : AHandleKind) → IsAllowedEgl s t k c → destroyed_handle k ≡ Some kind → KeepsCurrents s (step s t c).state }
{}

/// A thread that is released is as it was before its first call (section 3.12).
pub fn a_released_thread_is_as_new()
    ensures { (s : State) (t : ℕ) (c : CallValue) → IsAllowedEgl s t ReleaseThread c → t < length s.threads → record_of (step s t c).state t ≡ initial }
{}

/// Only eglInitialize and eglTerminate change whether a display is initialised, and each only its own (EGL 1.5, section 3.2).
pub fn two_calls_change_displays()
    ensures first { (s : State) (t : ℕ) (c : CallValue) → c.kind ≢ Egl Initialize → c.kind ≢ Egl Terminate → (step s t c).state.first ≡ s.first }
    ensures second { (s : State) (t : ℕ) (c : CallValue) → c.kind ≢ Egl Initialize → c.kind ≢ Egl Terminate → (step s t c).state.second ≡ s.second }
    ensures initialized { (s : State) (t : ℕ) (c : CallValue) → IsInitialized s t c → is_initialized (step s t c).state (number c 0) ≡ true }
    ensures terminated { (s : State) (t : ℕ) (c : CallValue) → IsTerminated s t c → is_initialized (step s t c).state (number c 0) ≡ false }
    ensures initialized_other { (s : State) (t d : ℕ) (c : CallValue) → IsInitialized s t c → d ≢ number c 0 → is_initialized (step s t c).state d ≡ is_initialized s d }
    ensures terminated_other { (s : State) (t d : ℕ) (c : CallValue) → IsTerminated s t c → d ≢ number c 0 → is_initialized (step s t c).state d ≡ is_initialized s d }
{}

/// eglTerminate leaves no handle of its display, and leaves what is current to each thread (EGL 1.5, section 3.2).
pub fn terminate_takes_handles_and_leaves_currents()
    ensures handles { (s : State) (t : ℕ) (c : CallValue) → IsTerminated s t c → All (λ h. (h.display == number c 0) ≡ false) (step s t c).state.handles }
    ensures context { (s : State) (t u : ℕ) (c : CallValue) → IsTerminated s t c → (record_of (step s t c).state u).context ≡ (record_of s u).context }
    ensures draw { (s : State) (t u : ℕ) (c : CallValue) → IsTerminated s t c → (record_of (step s t c).state u).draw ≡ (record_of s u).draw }
    ensures read { (s : State) (t u : ℕ) (c : CallValue) → IsTerminated s t c → (record_of (step s t c).state u).read ≡ (record_of s u).read }
{}

/// Where no rule refuses an eglMakeCurrent of a thread that has a record, the thread has the context and the surfaces that valid handles of the call's display with the given numbers name, each under that number (EGL 1.5, section 3.7.3). Where it is given no surface, the thread has none, and where it is given none of the three, no context either. Handles stay as they were, and the thread waits for nothing.
pub fn make_current_binds_what_it_is_given()
    ensures released { (s : State) (t : ℕ) (c : CallValue) → IsMadeCurrent s t c → t < length s.threads → is_release c ≡ true → HasNoneCurrent (record_of (step s t c).state t) }
    ensures context { (s : State) (t : ℕ) (c : CallValue) → IsMadeCurrent s t c → t < length s.threads → is_release c ≡ false → IsBoundBy s (number c 0) (number c 3) Context (record_of (step s t c).state t).context }
    ensures draw { (s : State) (t : ℕ) (c : CallValue) → IsMadeCurrent s t c → t < length s.threads → is_zero c 1 ≡ false → IsBoundBy s (number c 0) (number c 1) Surface (record_of (step s t c).state t).draw }
    ensures no_draw { (s : State) (t : ℕ) (c : CallValue) → IsMadeCurrent s t c → t < length s.threads → is_zero c 1 ≡ true → (record_of (step s t c).state t).draw ≡ None }
    ensures read { (s : State) (t : ℕ) (c : CallValue) → IsMadeCurrent s t c → t < length s.threads → is_zero c 2 ≡ false → IsBoundBy s (number c 0) (number c 2) Surface (record_of (step s t c).state t).read }
    ensures no_read { (s : State) (t : ℕ) (c : CallValue) → IsMadeCurrent s t c → t < length s.threads → is_zero c 2 ≡ true → (record_of (step s t c).state t).read ≡ None }
    ensures handles { (s : State) (t : ℕ) (c : CallValue) → IsMadeCurrent s t c → (step s t c).state.handles ≡ s.handles }
    ensures wait { (s : State) (t : ℕ) (c : CallValue) → IsMadeCurrent s t c → (record_of (step s t c).state t).wait ≡ None }
{}

/// The first time that a context is made current its viewport and its scissor box become the surface that its thread then draws to, and 0 by 0 where it draws to none; nothing else of what the context keeps changes, and later nothing at all (EGL 1.5, section 3.7.3; OES_surfaceless_context).
pub fn a_context_takes_the_sides_of_its_first_surface()
    ensures sides { (s : State) (t : ℕ) (c : CallValue) (context : Handle) (x : ASurface) (p : PartValue) → IsReady s t → IsGiven s t c context → surface_of s (draw_handle s c) ≡ Some x → part_of_context s context.object ≡ Some p → p.was_current ≡ false → part_of_context (step s t c).state context.object ≡ Some (with_box x.surface.width x.surface.height p) }
    ensures none { (s : State) (t : ℕ) (c : CallValue) (context : Handle) (p : PartValue) → IsReady s t → IsGiven s t c context → draw_handle s c ≡ None → part_of_context s context.object ≡ Some p → p.was_current ≡ false → part_of_context (step s t c).state context.object ≡ Some (with_box 0 0 p) }
    ensures later { (s : State) (t : ℕ) (c : CallValue) (context : Handle) (p : PartValue) → IsReady s t → IsGiven s t c context → part_of_context s context.object ≡ Some p → p.was_current ≡ true → part_of_context (step s t c).state context.object ≡ Some p }
{}

/// Where no rule refuses a call that makes a handle (`made_handle`), it answers the number of a new handle, which names a new object of its kind, and the next number rises by one (EGL 1.5, sections 3.5.1, 3.5.2, 3.7.1, 3.8.1 and 3.9). Such calls are eglCreateWindowSurface, eglCreatePbufferSurface, eglCreateContext, eglCreateSync and eglCreateImage. The number rises at no other call, and at none that isn't done.
pub fn a_new_handle_names_its_object()
    ensures handle { (s : State) (t : ℕ) (k : EglKind) (c : CallValue) (kind : AHandleKind) → IsAllowedEgl s t k c → made_handle k ≡ Some kind → HasNewHandle s (step s t c).state (number c 0) kind }
    ensures reply { (s : State) (t : ℕ) (k : EglKind) (c : CallValue) (kind : AHandleKind) → IsAllowedEgl s t k c → made_handle k ≡ Some kind → (step s t c).reply.value ≡ pos s.next_handle }
    ensures others { (s : State) (t : ℕ) (c : CallValue) → (extent_of_kind c.kind).handles ≡ 0 → (step s t c).state.next_handle ≡ s.next_handle }
    ensures undone { (s : State) (t : ℕ) (c : CallValue) → (step s t c).reply.outcome ≢ Done → (step s t c).state.next_handle ≡ s.next_handle }
{}

/// No number is given to a second handle, in a step or in a history, whatever became of the first.
pub fn handle_numbers_are_new()
    ensures step { (s : State) (t : ℕ) (c : CallValue) → HandlesAreNew s (step s t c).state }
    ensures history { (s : State) (entries : List Entry) → HandlesAreNew s (replay_from s entries) }
{}

/// Places of objects are never fewer, an empty one stays empty, and an object that stays is of the kind that it was, in a step or in a history: the number of an object that is gone isn't given again.
pub fn object_numbers_are_new()
    ensures step { (s : State) (t : ℕ) (c : CallValue) → ObjectsAreNew s (step s t c).state }
    ensures history { (s : State) (entries : List Entry) → ObjectsAreNew s (replay_from s entries) }
{}

/// To replay one list and then another is to replay both in a row, and the row is legal where each part is.
pub fn replay_goes_on()
    ensures state { (s : State) (before after : List Entry) → replay_from s (before ++ after) ≡ replay_from (replay_from s before) after }
    ensures legal { (s : State) (before after : List Entry) → IsLegalFrom s before → IsLegalFrom (replay_from s before) after → IsLegalFrom s (before ++ after) }
{}

/// A call that no wait holds up answers an error exactly where a rule refuses it (of OpenGL ES where a context is current), and else it is done; but eglClientWaitSync may wait.
pub fn a_reply_tells_its_refusal()
    ensures egl { (s : State) (t : ℕ) (k : EglKind) (c : CallValue) (e : AnEglError) → IsEglCall s t k c → Answers s t c e ↔ (egl_refusal s t k c ≡ Some e) }
    ensures gl { (s : State) (t n : ℕ) (k : GlKind) (c : CallValue) (e : AGlError) → IsGlCall s t k c → current_context s t ≡ Some n → AnswersGl s t c e ↔ (gl_refusal s t n k c ≡ Some e) }
    ensures egl_done { (s : State) (t : ℕ) (k : EglKind) (c : CallValue) → IsEglCall s t k c → k ≢ ClientWaitSync → egl_refusal s t k c ≡ None → (step s t c).reply.outcome ≡ Done }
    ensures gl_done { (s : State) (t n : ℕ) (k : GlKind) (c : CallValue) → IsGlCall s t k c → current_context s t ≡ Some n → gl_refusal s t n k c ≡ None → (step s t c).reply.outcome ≡ Done }
{}

/// eglCreatePbufferSurface answers EGL_BAD_ALLOC exactly where nothing else is wrong, and a side is too large, or the pixels that live before the call and the new ones are too many, or no number is left for its handle (EGL 1.5, section 3.5.2).
pub fn a_pbuffer_wants_size_pixels_or_a_number()
    ensures faultless { (s : State) (t : ℕ) (c : CallValue) → IsEglCall s t CreatePbufferSurface c → Answers s t c BadAlloc → IsFaultlessPbuffer s t c }
    ensures wants { (s : State) (t : ℕ) (c : CallValue) → IsEglCall s t CreatePbufferSurface c → IsFaultlessPbuffer s t c → Answers s t c BadAlloc ↔ (AsksTooLarge c ⊎ (WantsVideo s c ⊎ WantsNumber s)) }
{}

/// glTexImage2D answers GL_OUT_OF_MEMORY exactly where nothing is wrong with its own numbers and the pixels that live before the call and the new ones are too many (OpenGL ES 1.1, section 3.7.1).
pub fn an_image_wants_pixels()
    ensures { (s : State) (t n : ℕ) (c : CallValue) → IsGlCall s t TexImage2d c → current_context s t ≡ Some n → AnswersGl s t c OutOfMemory ↔ (ImageAsked c × WantsImage s c) }
{}

/// glCopyTexImage2D answers GL_OUT_OF_MEMORY exactly where nothing else is wrong with it and the pixels that live before the call and the new ones are too many (section 3.7.2).
pub fn a_copy_wants_pixels()
    ensures { (s : State) (t n : ℕ) (c : CallValue) → IsGlCall s t CopyTexImage2d c → current_context s t ≡ Some n → AnswersGl s t c OutOfMemory ↔ (CopyAsked c (gl_facts_of s t n c) × WantsCopy s c) }
{}

/// glBufferData answers GL_OUT_OF_MEMORY exactly where nothing else is wrong and the bytes that live before the call and the new ones are too many (section 2.9).
pub fn a_buffer_wants_bytes()
    ensures { (s : State) (t n : ℕ) (c : CallValue) → IsGlCall s t BufferData c → current_context s t ≡ Some n → AnswersGl s t c OutOfMemory ↔ (DataAsked c (gl_facts_of s t n c) × WantsData s c) }
{}

/// glRenderbufferStorageOES answers GL_OUT_OF_MEMORY exactly where nothing else is wrong and the pixels that live before the call and the new ones are too many (OES_framebuffer_object).
pub fn a_renderbuffer_wants_pixels()
    ensures { (s : State) (t n : ℕ) (c : CallValue) → IsGlCall s t RenderbufferStorage c → current_context s t ≡ Some n → AnswersGl s t c OutOfMemory ↔ (StorageAsked c (gl_facts_of s t n c) × WantsStorage s c) }
{}

/// A glTexImage2D or a glCopyTexImage2D gives one level of one texture: each other level of a texture that is still there has the storage that it had, and each storage that is still there is as it was (sections 3.7.1 and 3.7.2).
pub fn a_level_is_given_alone()
    ensures levels { (s : State) (t n : ℕ) (c : CallValue) (x j : ℕ) (y z : BackedTexture) → IsAllowedGl s t n TexImage2d c → (target_texture s n ≡ Some x → j ≢ level_of c) → texture_in s.objects x ≡ Some y → texture_in (step s t c).state.objects x ≡ Some z → storage_at j z ≡ storage_at j y }
    ensures copied_levels { (s : State) (t n : ℕ) (c : CallValue) (x j : ℕ) (y z : BackedTexture) → IsAllowedGl s t n CopyTexImage2d c → (target_texture s n ≡ Some x → j ≢ level_of c) → texture_in s.objects x ≡ Some y → texture_in (step s t c).state.objects x ≡ Some z → storage_at j z ≡ storage_at j y }
    ensures pixels { (s : State) (t n : ℕ) (c : CallValue) (x : ℕ) (v : StorageValue) → IsAllowedGl s t n TexImage2d c → storage_in s.objects x ≡ Some v → has_object (step s t c).state x ≡ true → storage_in (step s t c).state.objects x ≡ Some v }
    ensures copied_pixels { (s : State) (t n : ℕ) (c : CallValue) (x : ℕ) (v : StorageValue) → IsAllowedGl s t n CopyTexImage2d c → storage_in s.objects x ≡ Some v → has_object (step s t c).state x ≡ true → storage_in (step s t c).state.objects x ≡ Some v }
{}

/// A new image is of the storage that its call names, of a texture's level or of a renderbuffer (EGL 1.5, section 3.9). To make an image or to destroy one changes no object that is still there, and no pixel.
pub fn a_new_image_shares_its_pixels()
    ensures created { (s : State) (t : ℕ) (c : CallValue) (k : ℕ) → IsAllowedEgl s t CreateImage c → source_storage s c ≡ Some k → HasNewImage s (step s t c).state (number c 0) k }
    ensures others { (s : State) (t : ℕ) (c : CallValue) → IsAllowedEgl s t CreateImage c → LeavesSiblings s (step s t c).state None }
    ensures destroyed { (s : State) (t : ℕ) (c : CallValue) → IsAllowedEgl s t DestroyImage c → LeavesSiblings s (step s t c).state None }
{}

/// Behind a glEGLImageTargetTexture2DOES level 0 of the bound texture, one with its eleven levels, has the image's storage and no other level has any; behind a glEGLImageTargetRenderbufferStorageOES the bound renderbuffer has it, and is a colour of its sides (OES_EGL_image).
pub fn what_gets_an_image_has_its_pixels()
    ensures base { (s : State) (t n : ℕ) (c : CallValue) (x : ℕ) (i : AnEglImage) (y z : BackedTexture) → IsAllowedGl s t n ImageTargetTexture2d c → target_texture s n ≡ Some x → target_image s n c ≡ Some i → texture_in s.objects x ≡ Some y → length y.levels ≡ LEVELS → texture_in (step s t c).state.objects x ≡ Some z → storage_at 0 z ≡ Some i.storage }
    ensures levels { (s : State) (t n : ℕ) (c : CallValue) (x j : ℕ) (i : AnEglImage) (y z : BackedTexture) → IsAllowedGl s t n ImageTargetTexture2d c → target_texture s n ≡ Some x → target_image s n c ≡ Some i → texture_in s.objects x ≡ Some y → length y.levels ≡ LEVELS → texture_in (step s t c).state.objects x ≡ Some z → j ≢ 0 → storage_at j z ≡ None }
    ensures renderbuffer { (s : State) (t n : ℕ) (c : CallValue) (x : ℕ) (i : AnEglImage) (z : BackedRenderbuffer) → IsAllowedGl s t n ImageTargetRenderbufferStorage c → target_renderbuffer s n ≡ Some x → target_image s n c ≡ Some i → renderbuffer_in (step s t c).state.objects x ≡ Some z → z.storage ≡ Some i.storage }
    ensures sides { (s : State) (t n : ℕ) (c : CallValue) (x : ℕ) (i : AnEglImage) (v : StorageValue) (z : BackedRenderbuffer) → IsAllowedGl s t n ImageTargetRenderbufferStorage c → target_renderbuffer s n ≡ Some x → target_image s n c ≡ Some i → storage_in s.objects i.storage ≡ Some v → renderbuffer_in (step s t c).state.objects x ≡ Some z → z.renderbuffer ≡ of_kind Color v.width v.height }
{}

/// A call that gives a level of a texture or a renderbuffer other pixels, new ones or those of an EGL image, changes that object alone: each other object that is still there is as it was, and so is each storage. So siblings keep the pixels that they share (sections 3.7.1 and 3.7.2; OES_framebuffer_object; OES_EGL_image).
pub fn siblings_keep_their_pixels()
    ensures given { (s : State) (t n : ℕ) (c : CallValue) → IsAllowedGl s t n TexImage2d c → LeavesSiblings s (step s t c).state (target_texture s n) }
    ensures copied { (s : State) (t n : ℕ) (c : CallValue) → IsAllowedGl s t n CopyTexImage2d c → LeavesSiblings s (step s t c).state (target_texture s n) }
    ensures stored { (s : State) (t n : ℕ) (c : CallValue) → IsAllowedGl s t n RenderbufferStorage c → LeavesSiblings s (step s t c).state (target_renderbuffer s n) }
    ensures texture { (s : State) (t n : ℕ) (c : CallValue) → IsAllowedGl s t n ImageTargetTexture2d c → LeavesSiblings s (step s t c).state (target_texture s n) }
    ensures renderbuffer { (s : State) (t n : ℕ) (c : CallValue) → IsAllowedGl s t n ImageTargetRenderbufferStorage c → LeavesSiblings s (step s t c).state (target_renderbuffer s n) }
{}

/// A name that a call is given which deletes names (a glDeleteTextures, a glDeleteBuffers, a glDeleteRenderbuffersOES or a glDeleteFramebuffersOES) is free at once, whoever still has its object bound (sections 3.7.11 and 2.9; OES_framebuffer_object). The object is gone with the last reference to it, as each object is.
pub fn a_deleted_name_is_free()
    ensures { (s : State) (t n : ℕ) (k : GlKind) (names : ANameKind) (c : CallValue) (x : ℤ) → gl_role k ≡ Deletes names → IsAllowedGl s t n k c → Contains c.list x → is_used (unsigned x) (names_in (step s t c).state (group_of s n) names) ≡ false }
{}

/// The object of a name that such a call is given isn't bound in the caller's context any more (sections 3.7.11 and 2.9; OES_framebuffer_object).
pub fn a_deleted_object_is_unbound()
    ensures { (s : State) (t n x : ℕ) (k : GlKind) (names : ANameKind) (c : CallValue) (v : ℤ) → gl_role k ≡ Deletes names → IsAllowedGl s t n k c → Contains c.list v → object_named s (group_of s n) names (unsigned v) ≡ Some x → IfSome (context_in (step s t c).state.objects n) (HasUnbound names x) }
{}

/// The texture or renderbuffer of a name that such a call is given isn't attached any more to the framebuffer that the caller has bound (OES_framebuffer_object). Whatever else is attached there, and all that is attached to each other framebuffer, stays: that of another context too, and one that isn't bound.
pub fn a_deleted_object_is_detached()
    ensures detached { (s : State) (t n x b : ℕ) (k : GlKind) (names : ANameKind) (c : CallValue) → gl_role k ≡ Deletes names → is_attachable names ≡ true → IsAllowedGl s t n k c → IsNamedBy names s n c x → target_framebuffer s n ≡ Some b → IfSome (framebuffer_in (step s t c).state.objects b) (HasDetached x) }
    ensures others { (s : State) (t n m : ℕ) (k : GlKind) (names : ANameKind) (p : APoint) (f : AFramebuffer) (c : CallValue) → gl_role k ≡ Deletes names → is_attachable names ≡ true → IsAllowedGl s t n k c → (target_framebuffer s n ≡ Some m → (x : ℕ) → IsNamedBy names s n c x → object_attached (attached_at s.objects m p) ≢ Some x) → framebuffer_in (step s t c).state.objects m ≡ Some f → at_point p f ≡ attached_at s.objects m p }
{}

/// Each other context that is still there is as it was, and so has bound what it had.
pub fn a_deletion_leaves_other_contexts()
    ensures { (s : State) (t n m : ℕ) (k : GlKind) (names : ANameKind) (c : CallValue) (y : AContext) → gl_role k ≡ Deletes names → IsAllowedGl s t n k c → m ≢ n → context_in (step s t c).state.objects m ≡ Some y → context_in s.objects m ≡ Some y }
{}

/// glCheckFramebufferStatusOES tells the first status that holds of a framebuffer object, each exactly where it does (OES_framebuffer_object, "Framebuffer Completeness"). They say, in this order: something may not stand where it is attached; nothing is attached; two of what is attached have different sides; no colour is attached; else it is complete. The window system's framebuffer is complete where the thread has a surface, and undefined where it has none (OES_surfaceless_context).
pub fn a_status_tells_what_is_attached()
    ensures complete { (s : State) (t n : ℕ) (c : CallValue) (f : AFramebuffer) → IsCheck s t n c → HasFramebufferBound s t n f → AnswersStatus s t c GL_FRAMEBUFFER_COMPLETE_OES ↔ IsComplete s.objects f }
    ensures unfit { (s : State) (t n : ℕ) (c : CallValue) (f : AFramebuffer) → IsCheck s t n c → HasFramebufferBound s t n f → AnswersStatus s t c GL_FRAMEBUFFER_INCOMPLETE_ATTACHMENT_OES ↔ HasUnfit s.objects f }
    ensures bare { (s : State) (t n : ℕ) (c : CallValue) (f : AFramebuffer) → IsCheck s t n c → HasFramebufferBound s t n f → AnswersStatus s t c GL_FRAMEBUFFER_INCOMPLETE_MISSING_ATTACHMENT_OES ↔ IsBare f }
    ensures unlike { (s : State) (t n : ℕ) (c : CallValue) (f : AFramebuffer) → IsCheck s t n c → HasFramebufferBound s t n f → AnswersStatus s t c GL_FRAMEBUFFER_INCOMPLETE_DIMENSIONS_OES ↔ HasUnlike s.objects f }
    ensures lacking { (s : State) (t n : ℕ) (c : CallValue) (f : AFramebuffer) → IsCheck s t n c → HasFramebufferBound s t n f → AnswersStatus s t c GL_FRAMEBUFFER_UNSUPPORTED_OES ↔ LacksColor s.objects f }
    ensures window { (s : State) (t n : ℕ) (c : CallValue) → IsCheck s t n c → HasWindowBound s t → is_some (draw_storage s t) ≡ true → AnswersStatus s t c GL_FRAMEBUFFER_COMPLETE_OES }
    ensures surfaceless { (s : State) (t n : ℕ) (c : CallValue) → IsCheck s t n c → HasWindowBound s t → draw_storage s t ≡ None → AnswersStatus s t c GL_FRAMEBUFFER_UNDEFINED_OES }
{}

/// eglCreateContext answers EGL_BAD_ALLOC exactly where nothing else is wrong, and no number is left for its handle (section 3.7.1).
pub fn a_context_wants_a_number()
    ensures faultless { (s : State) (t : ℕ) (c : CallValue) → IsEglCall s t CreateContext c → Answers s t c BadAlloc → IsFaultlessContext s t c }
    ensures wants { (s : State) (t : ℕ) (c : CallValue) → IsEglCall s t CreateContext c → IsFaultlessContext s t c → Answers s t c BadAlloc ↔ WantsNumber s }
{}

/// eglCreateWindowSurface answers EGL_BAD_ALLOC only where nothing else is wrong, and then exactly where a surface shows in the window, its pixels and those that live are too many, or the numbers of handles are used up (EGL 1.5, section 3.5.1).
pub fn a_window_wants_to_be_free_pixels_or_a_number()
    ensures faultless { (s : State) (t : ℕ) (c : CallValue) → IsEglCall s t CreateWindowSurface c → Answers s t c BadAlloc → IsFaultlessWindow s c }
    ensures wants { (s : State) (t : ℕ) (c : CallValue) → IsEglCall s t CreateWindowSurface c → IsFaultlessWindow s c → Answers s t c BadAlloc ↔ (IsWindowUsed s c ⊎ (WantsWindowPixels s c ⊎ WantsNumber s)) }
{}

/// eglCreateSync answers EGL_BAD_ALLOC only where nothing else is wrong, and then exactly where the numbers of handles are used up (section 3.8.1).
pub fn a_sync_wants_a_number()
    ensures faultless { (s : State) (t : ℕ) (c : CallValue) → IsEglCall s t CreateSync c → Answers s t c BadAlloc → IsFaultlessSync s t c }
    ensures wants { (s : State) (t : ℕ) (c : CallValue) → IsEglCall s t CreateSync c → IsFaultlessSync s t c → Answers s t c BadAlloc ↔ WantsNumber s }
{}

/// eglCreateImage answers EGL_BAD_ALLOC only where nothing else is wrong, and then exactly where the numbers of handles are used up (section 3.9): an image shares the pixels that it is made of.
pub fn an_image_wants_a_number()
    ensures faultless { (s : State) (t : ℕ) (c : CallValue) → IsEglCall s t CreateImage c → Answers s t c BadAlloc → IsFaultlessImage s t c }
    ensures wants { (s : State) (t : ℕ) (c : CallValue) → IsEglCall s t CreateImage c → IsFaultlessImage s t c → Answers s t c BadAlloc ↔ WantsNumber s }
{}

/// An eglClientWaitSync that no rule refuses is satisfied exactly where the sync is signalled, or where the call asks for a flush and the sync was made in the thread's current context: a flush signals just these. Else it waits where its timeout is for ever, and where it isn't its time is over at once (section 3.8.1.1). The thread then waits for that sync, and for none where the call doesn't wait.
pub fn a_client_wait_is_satisfied_waits_or_expires()
    ensures flush { (s : State) (t n : ℕ) (c : CallValue) → (is_signalled (flush_for c t n s) n ≡ true) ↔ IsSatisfied s t c n }
    ensures satisfied { (s : State) (t : ℕ) (c : CallValue) (h : Handle) → IsAllowedEgl s t ClientWaitSync c → sync_handle s c ≡ Some h → IsSatisfied s t c h.object → (step s t c).reply ≡ record (bare Done) { value = pos EGL_CONDITION_SATISFIED } }
    ensures waits { (s : State) (t : ℕ) (c : CallValue) (h : Handle) → IsAllowedEgl s t ClientWaitSync c → sync_handle s c ≡ Some h → IsUnsatisfied s t c h.object → waits_forever c ≡ true → (step s t c).reply ≡ bare Waiting }
    ensures expires { (s : State) (t : ℕ) (c : CallValue) (h : Handle) → IsAllowedEgl s t ClientWaitSync c → sync_handle s c ≡ Some h → IsUnsatisfied s t c h.object → waits_forever c ≡ false → (step s t c).reply ≡ record (bare Done) { value = pos EGL_TIMEOUT_EXPIRED } }
    ensures waiting { (s : State) (t : ℕ) (c : CallValue) (h : Handle) → IsAllowedEgl s t ClientWaitSync c → sync_handle s c ≡ Some h → t < length s.threads → IsUnsatisfied s t c h.object → waits_forever c ≡ true → (record_of (step s t c).state t).wait ≡ Some h.object }
    ensures free { (s : State) (t : ℕ) (c : CallValue) (h : Handle) → IsAllowedEgl s t ClientWaitSync c → sync_handle s c ≡ Some h → t < length s.threads → IsSatisfied s t c h.object ⊎ (waits_forever c ≡ false) → (record_of (step s t c).state t).wait ≡ None }
{}

/// Only calls that make a handle answer EGL_BAD_ALLOC.
pub fn creations_alone_want()
    ensures { (s : State) (t : ℕ) (k : EglKind) (c : CallValue) → IsEglCall s t k c → Answers s t c BadAlloc → makes_handle k ≡ true }
{}

/// A new pbuffer and a new surface of a window take the bytes that their refusals count, and a new context none; so in each history all pixels that live fit.
pub fn all_pixels_fit()
    ensures pbuffer { (s : State) (c : CallValue) → live_bytes (created_pbuffer s c).objects ≡ live_bytes s.objects + asked_bytes c }
    ensures window { (s : State) (c : CallValue) → live_bytes (created_window s c).objects ≡ live_bytes s.objects + window_bytes s c }
    ensures context { (s : State) (c : CallValue) → live_bytes (created_context s c).objects ≡ live_bytes s.objects }
    ensures step { (s : State) (t : ℕ) (c : CallValue) → PixelsFit s → PixelsFit (step s t c).state }
    ensures history { (windows : List WindowSpec) → windows_ok windows ≡ true → (video : ℕ) (entries : List Entry) → PixelsFit (replay_from (opening windows video) entries) }
{}

/// The state is sound before the first call, after a step wherever it was so before, and so in each history: no object is litter and no reference leads nowhere; a context or a surface is current to at most one thread (EGL 1.5, section 3.7.3). A thread has both surfaces or none, and a context wherever it has surfaces. Each valid or bound handle's number is below the next one, and no two valid handles have one; each surface has a storage of its own; and all pixels fit.
pub fn the_state_is_sound()
    ensures opening { (windows : List WindowSpec) → windows_ok windows ≡ true → (video : ℕ) → IsSound (opening windows video) }
    ensures step { (s : State) (t : ℕ) (c : CallValue) → IsSound s → IsSound (step s t c).state }
    ensures history { (windows : List WindowSpec) → windows_ok windows ≡ true → (video : ℕ) (entries : List Entry) → IsSound (replay_from (opening windows video) entries) }
{}

/// What goes by any change of a state whose handles have numbers of their own, and in whose groups no name stands twice, bounds by how much the state shrinks.
pub fn what_goes_bounds_the_size()
    ensures { (s new : State) → AllPairs (λ g h. g.number ≢ h.number) s.handles → AreNamesApart s → size s ≤ size new + objects_gone s new + refs_gone s new }
{}
