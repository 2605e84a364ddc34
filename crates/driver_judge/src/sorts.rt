//! What the answers of calls are: what of two drivers' answers is compared, and how.
ghost use Rattle.std.specs.Prelude.{◌≡◌, ◌==◌};
ghost use Rattle.std.specs.List.{list_any};
ghost use Rattle.driver_judge.specs.Sorts.{answers, attribute_sort, binding, config_attribute, own_attributes};

use call_table::{AnswerSort, egl_answers, gl_answers};
use display_table::HandleKind;
use egl_calls::Kind;
use egl_names::codes::{
    EGL_CONFIG_ID, EGL_MAX_PBUFFER_HEIGHT, EGL_MAX_PBUFFER_PIXELS, EGL_MAX_PBUFFER_WIDTH,
    EGL_MAX_SWAP_INTERVAL, EGL_MIN_SWAP_INTERVAL, EGL_NATIVE_VISUAL_ID, EGL_NATIVE_VISUAL_TYPE,
    GL_ARRAY_BUFFER_BINDING, GL_ELEMENT_ARRAY_BUFFER_BINDING, GL_FRAMEBUFFER_BINDING_OES,
    GL_RENDERBUFFER_BINDING_OES, GL_TEXTURE_BINDING_2D,
};
use share_group::NameKind;

/// Which handles a driver numbers for itself: displays, and those of a display.
#[derive(Clone, Copy, Debug, PartialEq, Eq, Drop)]
pub enum Mapped {
    Display,
    Handle(HandleKind),
}

/// What the answer of one call is.
#[derive(Clone, Copy, Debug, PartialEq, Eq, Drop)]
pub enum Sort {
    /// All of it is the same.
    Equal,
    /// Its value is the driver's own.
    Own,
    /// Its value is a new handle.
    NewHandle(HandleKind),
    /// Its value is a handle that stands for ours.
    SameHandle(Mapped),
    /// Its list has configs.
    ConfigList,
    /// Its value is a config.
    ConfigId,
    /// Its list has new names.
    NewNames(NameKind),
    /// All of it is the same, and names are freed.
    FreedNames(NameKind),
    /// Its value is a name that stands for ours.
    SameName(NameKind),
    /// Its bytes are pixels.
    PixelBytes,
}

/// What a call answers.
pub fn answers(kind: Kind) -> AnswerSort
    ensures { result ≡ answers kind }
{
    match kind {
        Kind::Egl(kind) => egl_answers(kind),
        Kind::Gl(kind) => gl_answers(kind),
        Kind::Own(_) => AnswerSort::Same,
    }
}

/// Whether an attribute of a config is each implementation's own.
fn is_own_attribute(attribute: u64) -> bool
    ensures { result ≡ list_any (λ own. attribute == own) own_attributes }
{
    attribute == EGL_NATIVE_VISUAL_ID
        || attribute == EGL_NATIVE_VISUAL_TYPE
        || attribute == EGL_MAX_PBUFFER_WIDTH
        || attribute == EGL_MAX_PBUFFER_HEIGHT
        || attribute == EGL_MAX_PBUFFER_PIXELS
        || attribute == EGL_MAX_SWAP_INTERVAL
        || attribute == EGL_MIN_SWAP_INTERVAL
}

/// What the value of an attribute of a config is.
pub fn config_attribute(attribute: u64) -> Sort
    ensures { result ≡ config_attribute attribute }
{
    if attribute == EGL_CONFIG_ID {
        Sort::ConfigId
    } else if is_own_attribute(attribute) {
        Sort::Own
    } else {
        Sort::Equal
    }
}

/// What the value of an attribute of a surface or of a context is.
pub fn attribute_sort(attribute: u64) -> Sort
    ensures { result ≡ attribute_sort attribute }
{
    if attribute == EGL_CONFIG_ID {
        Sort::ConfigId
    } else {
        Sort::Equal
    }
}

/// What a value is that a context answers.
#[tactic(auto, unfolding(crate::specs::Sorts::binding))]
pub fn binding(which: u64) -> Sort
    ensures { result ≡ binding which }
{
    if which == GL_TEXTURE_BINDING_2D {
        Sort::SameName(NameKind::Texture)
    } else if which == GL_ARRAY_BUFFER_BINDING || which == GL_ELEMENT_ARRAY_BUFFER_BINDING {
        Sort::SameName(NameKind::Buffer)
    } else if which == GL_RENDERBUFFER_BINDING_OES {
        Sort::SameName(NameKind::Renderbuffer)
    } else if which == GL_FRAMEBUFFER_BINDING_OES {
        Sort::SameName(NameKind::Framebuffer)
    } else {
        Sort::Equal
    }
}
