//! What is current to a thread: eglGetCurrentContext, eglGetCurrentSurface and eglGetCurrentDisplay (EGL 1.5, section 3.7.4).
ghost use Rattle.std.specs.Prelude.{◌≡◌, ◌<◌, option_copied};
ghost use Rattle.std.specs.Option.{option_map};
ghost use Rattle.egl_calls.specs.Ranges.{IsNumber};
ghost use Rattle.egl_model.specs.Currents.{current_context, bound_surface, display_at, draw_storage, handle_of, read_storage};
ghost use Rattle.egl_model.specs.MakeCurrent.{current_number, surface_number, current_display};
ghost use Rattle.driver_facts.specs.Tables.{state_in};

use crate::tables::Tables;
use driver_objects::BackedSurface;
use egl_calls::Call;
use egl_calls::arguments::number;
use egl_calls::places::READDRAW;
use egl_model::Bound;
use egl_names::codes::EGL_DRAW;

/// The handle by which something was made current, and 0 where nothing is.
pub fn handle_of(bound: Option<Bound>) -> u32
    ensures { result ≡ handle_of bound }
{
    match bound {
        Some(bound) => bound.handle,
        None => 0,
    }
}

impl Tables {
    /// The number by which the current context was made current, or 0.
    pub fn current_number(&self, thread: u32) -> i64
        requires { thread < self.now.threads.made }
        ensures value { result ≡ current_number (state_in self.now) thread }
        ensures number { IsNumber result }
    {
        i64::from(handle_of(self.record(thread).context))
    }

    /// The number by which the surface that a call asks for was made current, or 0.
    pub fn surface_number(&self, thread: u32, call: &Call) -> i64
        requires { thread < self.now.threads.made }
        ensures value { result ≡ surface_number (state_in self.now) thread call.now }
        ensures number { IsNumber result }
    {
        let kept = self.record(thread);
        if number(call, READDRAW) == EGL_DRAW {
            i64::from(handle_of(kept.draw))
        } else {
            i64::from(handle_of(kept.read))
        }
    }

    /// The display of the current context, or 0.
    pub fn current_display(&self, thread: u32) -> i64
        requires { thread < self.now.threads.made }
        ensures value { result ≡ current_display (state_in self.now) thread }
        ensures number { IsNumber result }
    {
        i64::from(self.display_at(self.current_context(thread)))
    }

    /// The object of the current context.
    pub fn current_context(&self, thread: u32) -> Option<u64>
        requires { thread < self.now.threads.made }
        ensures { result ≡ current_context (state_in self.now) thread }
    {
        match self.record(thread).context {
            Some(bound) => Some(bound.object),
            None => None,
        }
    }

    /// The display of a context, and 0 where there is none.
    pub fn display_at(&self, context: Option<u64>) -> u32
        ensures { result ≡ display_at (state_in self.now) context }
    {
        match context {
            Some(n) => match self.objects.context(n) {
                Some(context) => context.display,
                None => 0,
            },
            None => 0,
        }
    }

    /// A bound surface.
    pub fn bound_surface(&self, bound: Option<Bound>) -> Option<&BackedSurface>
        ensures { option_copied result ≡ bound_surface (state_in self.now) bound }
    {
        match bound {
            Some(bound) => self.objects.surface(bound.object),
            None => None,
        }
    }

    /// The storage of a bound surface.
    fn storage_of(&self, bound: Option<Bound>) -> Option<u64>
        ensures { result ≡ option_map (λ x. x.storage) (bound_surface (state_in self.now) bound) }
    {
        match self.bound_surface(bound) {
            Some(backed) => Some(backed.storage),
            None => None,
        }
    }

    /// The storage to which a thread draws.
    pub fn draw_storage(&self, thread: u32) -> Option<u64>
        requires { thread < self.now.threads.made }
        ensures { result ≡ draw_storage (state_in self.now) thread }
    {
        self.storage_of(self.record(thread).draw)
    }

    /// The storage from which a thread reads.
    pub fn read_storage(&self, thread: u32) -> Option<u64>
        requires { thread < self.now.threads.made }
        ensures { result ≡ read_storage (state_in self.now) thread }
    {
        self.storage_of(self.record(thread).read)
    }
}
