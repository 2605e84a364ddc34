//! What a driver takes over from another that it is compared with: the error by which that one refused a call, and a fence that it signalled earlier.
ghost use Rattle.std.specs.Prelude.{◌≡◌, ◌<◌};
ghost use Rattle.egl_model.specs.Currents.{current_context};
ghost use Rattle.egl_model.specs.State.{set_error};
ghost use Rattle.egl_model.specs.Syncs.{serve, sync_handle};
ghost use Rattle.driver_core.specs.Judging.{noted_on};

use crate::machine::Driver;
use egl_calls::{Call, EglError, GlError};

impl Driver {
    /// Refuses a call of EGL by an error: it is what eglGetError answers the thread next (EGL 1.5, section 3.1). All else stays.
    pub fn refuse_egl(&mut self, thread: u32, error: EglError)
        requires { thread < self.old.made }
        ensures { self.new ≡ record self.old { state = set_error self.old.state thread error } }
    {
        self.set_error(thread, error);
    }

    /// Refuses a call of OpenGL ES by an error: the thread's current context notes it, where it keeps none (OpenGL ES 1.1, section 2.5). All else stays, and without a current context everything does.
    pub fn refuse_gl(&mut self, thread: u32, error: GlError)
        requires { thread < self.old.made }
        ensures { self.new ≡ record self.old { state = noted_on (current_context self.old.state thread) error self.old.state } }
    {
        match self.current_context(thread) {
            Some(context) => self.note_error(context, error),
            None => (),
        }
    }

    /// Signals the fence that a call names behind its display, as eglWaitSync does (EGL 1.5, section 3.8.1.2). Where it names none, nothing changes.
    pub fn serve_fence(&mut self, call: &Call)
        ensures { self.new ≡ record self.old { state = serve (sync_handle self.old.state call.now) self.old.state } }
    {
        self.serve(call);
    }
}
