//! What attribute lists ask for: a record for each kind of list that a call makes something by, read in one pass over the pairs, so that the last pair of an attribute counts. A call's facts and its effect read its list by the same one.
ghost use Rattle.std.specs.Prelude.{◌≡◌, pos, if◌then◌else◌};
ghost use Rattle.std.specs.Ordering.{int_eq};
ghost use Rattle.egl_model.specs.Arguments.{listed};
ghost use Rattle.egl_model.specs.Surfaces.{asked_width, asked_height, asks_for_largest};
ghost use Rattle.egl_model.specs.Windows.{asks_for_single};

use egl_calls::{Call, unsigned};
use egl_names::codes::{
    EGL_CONTEXT_CLIENT_VERSION, EGL_CONTEXT_MINOR_VERSION, EGL_HEIGHT, EGL_LARGEST_PBUFFER,
    EGL_RENDER_BUFFER, EGL_SINGLE_BUFFER, EGL_WIDTH,
};

/// Of eglCreatePbufferSurface (EGL 1.5, section 3.5.2): the sides as they are asked for, and whether sides that are too long are cut.
#[derive(Clone, Copy)]
pub struct PbufferAttributes {
    pub width: i64,
    pub height: i64,
    pub largest: bool,
}

impl PbufferAttributes {
    /// Sets the field of a pair's attribute. A pair of another attribute sets none.
    fn set(&mut self, attribute: i64, value: i64)
        ensures width { self.new.width ≡ (if int_eq attribute (pos EGL_WIDTH) then value else self.old.width) }
        ensures height { self.new.height ≡ (if int_eq attribute (pos EGL_HEIGHT) then value else self.old.height) }
        ensures largest { self.new.largest ≡ (if int_eq attribute (pos EGL_LARGEST_PBUFFER) then int_eq value (pos 1) else self.old.largest) }
    {
        match unsigned(attribute) {
            EGL_WIDTH => self.width = value,
            EGL_HEIGHT => self.height = value,
            EGL_LARGEST_PBUFFER => self.largest = value == 1,
            _ => (),
        }
    }

    pub fn read(call: &Call) -> Self
        ensures width { result.width ≡ asked_width call.now }
        ensures height { result.height ≡ asked_height call.now }
        ensures largest { result.largest ≡ asks_for_largest call.now }
    {
        let list = call.list.as_slice();
        let mut asked = PbufferAttributes {
            width: 0,
            height: 0,
            largest: false,
        };
        for k in 0..list.len() / 2 {
            asked.set(list[2 * k], list[2 * k + 1]);
        }
        asked
    }
}

/// Of eglCreateWindowSurface (section 3.5.1): whether what is drawn shows at once.
#[derive(Clone, Copy)]
pub struct WindowAttributes {
    pub single: bool,
}

impl WindowAttributes {
    /// Sets the field of a pair's attribute. A pair of another attribute sets none.
    fn set(&mut self, attribute: i64, value: i64)
        ensures { self.new.single ≡ (if int_eq attribute (pos EGL_RENDER_BUFFER) then int_eq value (pos EGL_SINGLE_BUFFER) else self.old.single) }
    {
        if unsigned(attribute) == EGL_RENDER_BUFFER {
            self.single = unsigned(value) == EGL_SINGLE_BUFFER;
        }
    }

    pub fn read(call: &Call) -> Self
        ensures { result.single ≡ asks_for_single call.now }
    {
        let list = call.list.as_slice();
        let mut asked = WindowAttributes { single: false };
        for k in 0..list.len() / 2 {
            asked.set(list[2 * k], list[2 * k + 1]);
        }
        asked
    }
}

/// Of eglCreateContext (section 3.7.1): the version of OpenGL ES.
#[derive(Clone, Copy)]
pub(crate) struct ContextAttributes {
    pub version: i64,
    pub minor_version: i64,
}

impl ContextAttributes {
    /// Sets the field of a pair's attribute. A pair of another attribute sets none.
    fn set(&mut self, attribute: i64, value: i64)
        ensures version { self.new.version ≡ (if int_eq attribute (pos EGL_CONTEXT_CLIENT_VERSION) then value else self.old.version) }
        ensures minor { self.new.minor_version ≡ (if int_eq attribute (pos EGL_CONTEXT_MINOR_VERSION) then value else self.old.minor_version) }
    {
        match unsigned(attribute) {
            EGL_CONTEXT_CLIENT_VERSION => self.version = value,
            EGL_CONTEXT_MINOR_VERSION => self.minor_version = value,
            _ => (),
        }
    }

    pub fn read(call: &Call) -> Self
        ensures version { result.version ≡ listed call.now EGL_CONTEXT_CLIENT_VERSION (pos 1) }
        ensures minor { result.minor_version ≡ listed call.now EGL_CONTEXT_MINOR_VERSION (pos 0) }
    {
        let list = call.list.as_slice();
        let mut asked = ContextAttributes {
            version: 1,
            minor_version: 0,
        };
        for k in 0..list.len() / 2 {
            asked.set(list[2 * k], list[2 * k + 1]);
        }
        asked
    }
}
