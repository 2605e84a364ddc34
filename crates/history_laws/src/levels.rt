//! The levels of textures.
ghost use Rattle.std.specs.Prelude.{◌≡◌, ◌≢◌, ℕ, List, Some, None};
ghost use Rattle.driver_objects.specs.declared.textures.BackedTexture.{BackedTexture};
ghost use Rattle.egl_calls.specs.Calls.{CallValue};
ghost use Rattle.egl_calls.specs.declared.entries.Entry.{Entry};
ghost use Rattle.egl_calls.specs.declared.kinds.GlKind.TheVariants.{ImageTargetTexture2d};
ghost use Rattle.egl_image.specs.declared.images.EglImage.{EglImage};
ghost use Rattle.egl_model.specs.History.{replay_from};
ghost use Rattle.egl_model.specs.Images.{target_image};
ghost use Rattle.egl_model.specs.Objects.{texture_in};
ghost use Rattle.egl_model.specs.State.{State, opening};
ghost use Rattle.egl_model.specs.Step.{step};
ghost use Rattle.egl_model.specs.Textures.{storage_at, target_texture};
ghost use Rattle.surface_store.specs.declared.windows.WindowSpec.{WindowSpec};
ghost use Rattle.model_laws.specs.Laws.{IsAllowedGl};
ghost use Rattle.history_laws.specs.Levels.{HaveLevels};

/// In each history every texture has its eleven levels, each with a storage or without (OpenGL ES 1.1, section 3.7.1). Before the first call there is no texture, and a step leaves it so wherever it was so before.
pub fn textures_have_eleven_levels()
    ensures opening { (windows : List WindowSpec) (video : ℕ) → HaveLevels (opening windows video) }
    ensures step { (s : State) (t : ℕ) (c : CallValue) → HaveLevels s → HaveLevels (step s t c).state }
    ensures history { (windows : List WindowSpec) (video : ℕ) (entries : List Entry) → HaveLevels (replay_from (opening windows video) entries) }
{}

/// Where a state has come about by calls, a glEGLImageTargetTexture2DOES leaves the bound texture with the image's storage at level 0 and with none at any other level (OES_EGL_image).
pub fn a_texture_of_an_image_has_its_pixels()
    ensures base { (windows : List WindowSpec) (video : ℕ) (entries : List Entry) (s : State) (t n : ℕ) (c : CallValue) (x : ℕ) (i : EglImage) (y z : BackedTexture) → s ≡ replay_from (opening windows video) entries → IsAllowedGl s t n ImageTargetTexture2d c → target_texture s n ≡ Some x → target_image s n c ≡ Some i → texture_in s.objects x ≡ Some y → texture_in (step s t c).state.objects x ≡ Some z → storage_at 0 z ≡ Some i.storage }
    ensures levels { (windows : List WindowSpec) (video : ℕ) (entries : List Entry) (s : State) (t n : ℕ) (c : CallValue) (x j : ℕ) (i : EglImage) (y z : BackedTexture) → s ≡ replay_from (opening windows video) entries → IsAllowedGl s t n ImageTargetTexture2d c → target_texture s n ≡ Some x → target_image s n c ≡ Some i → texture_in s.objects x ≡ Some y → texture_in (step s t c).state.objects x ≡ Some z → j ≢ 0 → storage_at j z ≡ None }
{}
