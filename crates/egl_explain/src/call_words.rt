//! The words for the calls and for their arguments.
use crate::pages::Page;
use call_table::{EGL_CALLS, Form, GL_CALLS, OWN_CALLS};

/// A call: its name, the forms of its arguments, and a word for each.
#[derive(Clone, Copy, Drop)]
pub struct CallWords {
    pub name: &'static str,
    pub forms: &'static [Form],
    pub words: &'static [&'static str],
}

/// An argument of a call: its form, and a word for it.
#[derive(Clone, Copy, Drop)]
pub struct Argument {
    pub form: Form,
    pub word: &'static str,
}

/// The words that stand for a number and have no code.
pub static NUMBER_WORDS: [&str; 25] = [
    "EGL_FALSE",
    "GL_FALSE",
    "EGL_DEFAULT_DISPLAY",
    "EGL_NO_DISPLAY",
    "EGL_NO_CONTEXT",
    "EGL_NO_SURFACE",
    "EGL_NO_SYNC",
    "EGL_NO_IMAGE",
    "EGL_TRUE",
    "GL_TRUE",
    "EGL_DONT_CARE",
    "EGL_FOREVER",
    "EGL_CONTEXT_MAJOR_VERSION",
    "EGL_PBUFFER_BIT",
    "EGL_PIXMAP_BIT",
    "EGL_WINDOW_BIT",
    "EGL_SWAP_BEHAVIOR_PRESERVED_BIT",
    "EGL_OPENGL_ES_BIT",
    "EGL_OPENVG_BIT",
    "EGL_OPENGL_ES2_BIT",
    "EGL_OPENGL_BIT",
    "EGL_SYNC_FLUSH_COMMANDS_BIT",
    "GL_COLOR_BUFFER_BIT",
    "GL_DEPTH_BUFFER_BIT",
    "GL_STENCIL_BUFFER_BIT",
];

/// What stands before and behind the word for an argument: in place of one with a star a variable may stand; lists stand in brackets.
fn marks(form: Form) -> (&'static str, &'static str) {
    match form {
        Form::NumberOrVariable => ("", "*"),
        Form::AttributeList | Form::NumberList => ("[", "]"),
        Form::NameList => ("[", "*]"),
        Form::Number | Form::Config | Form::PostNumber | Form::Timeout | Form::Payload => ("", ""),
    }
}

impl Argument {
    /// Puts the word, with the marks of its form.
    pub fn put(self, page: &mut Page) {
        let (before, behind) = marks(self.form);
        page.put(before);
        page.put(self.word);
        page.put(behind);
    }
}

/// The call that a word names.
pub fn call_of(word: &[u8]) -> Option<CallWords> {
    'egl: for (name, _, forms, words, _, _, _) in EGL_CALLS.iter() {
        if name.as_bytes() == word {
            return Some(CallWords { name, forms, words });
        }
    }
    'gl: for (name, _, forms, words, _, _, _) in GL_CALLS.iter() {
        if name.as_bytes() == word {
            return Some(CallWords { name, forms, words });
        }
    }
    'own: for (name, _, forms, words, _) in OWN_CALLS.iter() {
        if name.as_bytes() == word {
            return Some(CallWords { name, forms, words });
        }
    }
    None
}
