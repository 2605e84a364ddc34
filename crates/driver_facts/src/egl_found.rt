//! What a call of EGL names, looked up once: its rows ask for it, and its effect takes it over.
ghost use Rattle.std.specs.Prelude.{◌≡◌};
ghost use Rattle.egl_model.specs.Handles.{handle_at};
ghost use Rattle.egl_model.specs.MakeCurrent.{context_handle, draw_handle, read_handle};
ghost use Rattle.driver_facts.specs.Found.{IsFound, image_source};
ghost use Rattle.driver_facts.specs.Tables.{state_in};

use crate::tables::Tables;
use call_table::{Role, egl_role};
use display_table::{Handle, HandleKind};
use egl_calls::places::NAMED;
use egl_calls::{Call, Kind};

/// What was looked up before a call's rows are tried, by what the call is for: handles, or the object of which there is to be an image. None where nothing was looked up.
#[derive(Clone, Copy, Drop)]
pub struct EglFound {
    pub named: Option<(HandleKind, Option<Handle>)>,
    pub draw: Option<Option<Handle>>,
    pub read: Option<Option<Handle>>,
    pub context: Option<Option<Handle>>,
    pub source: Option<Option<u64>>,
}

impl Tables {
    /// Looks up what more than one row of a call asks for.
    pub fn egl_found(&self, call: &Call) -> EglFound
        ensures { IsFound (state_in self.now) call.now result }
    {
        let nothing = EglFound {
            named: None,
            draw: None,
            read: None,
            context: None,
            source: None,
        };
        let Kind::Egl(kind) = call.kind else {
            return nothing;
        };
        match egl_role(kind) {
            Role::Destroys(kind) => EglFound {
                named: Some((kind, self.handle_at(call, NAMED, kind))),
                ..nothing
            },
            Role::MakesCurrent => EglFound {
                named: None,
                draw: Some(self.draw_handle(call)),
                read: Some(self.read_handle(call)),
                context: Some(self.context_handle(call)),
                source: None,
            },
            Role::Creates(HandleKind::Image) => EglFound {
                source: Some(self.image_source(call)),
                ..nothing
            },
            _ => nothing,
        }
    }

    /// The valid handle of a kind that a call names after its display.
    pub fn named_handle(&self, call: &Call, kind: HandleKind, found: &EglFound) -> Option<Handle>
        requires { IsFound (state_in self.now) call.now found.now }
        ensures { result ≡ handle_at (state_in self.now) call.now NAMED kind }
    {
        match found.named {
            Some((other, handle)) if other == kind => handle,
            _ => self.handle_at(call, NAMED, kind),
        }
    }

    /// What eglMakeCurrent is given to draw to.
    pub fn found_draw(&self, call: &Call, found: &EglFound) -> Option<Handle>
        requires { IsFound (state_in self.now) call.now found.now }
        ensures { result ≡ draw_handle (state_in self.now) call.now }
    {
        match found.draw {
            Some(handle) => handle,
            None => self.draw_handle(call),
        }
    }

    /// What it is given to read from.
    pub fn found_read(&self, call: &Call, found: &EglFound) -> Option<Handle>
        requires { IsFound (state_in self.now) call.now found.now }
        ensures { result ≡ read_handle (state_in self.now) call.now }
    {
        match found.read {
            Some(handle) => handle,
            None => self.read_handle(call),
        }
    }

    /// The context that it is given.
    pub fn found_context(&self, call: &Call, found: &EglFound) -> Option<Handle>
        requires { IsFound (state_in self.now) call.now found.now }
        ensures { result ≡ context_handle (state_in self.now) call.now }
    {
        match found.context {
            Some(handle) => handle,
            None => self.context_handle(call),
        }
    }

    /// The object of which an eglCreateImage makes an image.
    pub fn found_source(&self, call: &Call, found: &EglFound) -> Option<u64>
        requires { IsFound (state_in self.now) call.now found.now }
        ensures { result ≡ image_source (state_in self.now) call.now }
    {
        match found.source {
            Some(source) => source,
            None => self.image_source(call),
        }
    }
}
