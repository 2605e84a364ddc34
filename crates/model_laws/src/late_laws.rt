//! What is true of draws that are made once their thread's part is out: the contracts of functions that do nothing.
ghost use Rattle.std.specs.Prelude.{◌≡◌, ℕ, true, List, IfSome};
ghost use Rattle.egl_calls.specs.Calls.{CallValue};
ghost use Rattle.pixel_rows.specs.Images.{ImageValue};
ghost use Rattle.egl_model.specs.Parts.{own_of, part_of};
ghost use Rattle.egl_model.specs.State.{State};
ghost use Rattle.egl_model.specs.Step.{step};
ghost use Rattle.model_laws.specs.Frame.{IsNone, IsReady};
ghost use Rattle.model_laws.specs.Hidden.{hide};
ghost use Rattle.model_laws.specs.Late.{IsOut, drawn_part, drawn_state, is_late, late_refusal, late_sampler, late_step};

/// Where a thread's part is out, nobody sees whether it has drawn.
pub fn a_draw_is_unseen_while_the_part_is_out()
    ensures { (s : State) (t : ℕ) (f : ImageValue → ImageValue) (out : List ℕ) → IsReady s t → IsOut t out → hide out (drawn_state s t f) ≡ hide out s }
{}

/// A part that went out before a draw is the part after it, once the draw is made on it.
pub fn a_draw_may_be_made_on_the_part()
    ensures { (s : State) (t : ℕ) (f : ImageValue → ImageValue) → IsReady s t → part_of (drawn_state s t f) t ≡ drawn_part f (part_of s t) }
{}

/// A draw to the framebuffer of the window system is refused by its thread's part alone, and then changes that alone; done, it changes nothing but the pixels of the thread's own surface.
pub fn a_late_draw_is_told_by_the_part()
    ensures { (s : State) (t : ℕ) (c : CallValue) → IsReady s t → is_late (part_of s t) c ≡ true → step s t c ≡ late_step s t c (late_refusal (part_of s t) c) }
{}

/// What a late draw samples is there while the parts of other threads are out.
pub fn a_late_draw_samples_what_is_seen()
    ensures { (s : State) (t : ℕ) (c : CallValue) (out : List ℕ) → IsReady s t → IsNone t out → late_sampler (hide out s) t c ≡ late_sampler s t c }
{}

/// The pixels of a thread's surfaces are its own: to write them takes no memory.
pub fn surfaces_own_their_pixels()
    ensures draw { (s : State) (t : ℕ) → IsReady s t → IfSome (own_of s t).draw (λ i. i.owned ≡ true) }
    ensures read { (s : State) (t : ℕ) → IsReady s t → IfSome (own_of s t).read (λ i. i.owned ≡ true) }
{}
