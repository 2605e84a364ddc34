//! eglCreateContext (EGL 1.5, section 3.7.1) and eglQueryContext (section 3.7.4).
ghost use Rattle.driver_facts.specs.Groups.{IsGroup};
ghost use Rattle.std.specs.Prelude.{IfSome, ◌≡◌, ◌<◌, Some, None};
ghost use Rattle.egl_calls.specs.Ranges.{IsNumber};
ghost use Rattle.egl_calls.specs.Arguments.{signed};
ghost use Rattle.egl_model.specs.Arguments.{number};
ghost use Rattle.egl_model.specs.Contexts.{share_handle, is_share, is_share_here, shared_group, context_value_at, value_of_context, context_value};
ghost use Rattle.egl_model.specs.Facts.{is_context_attribute};
ghost use Rattle.egl_model.specs.Objects.{context_in};
ghost use Rattle.std.specs.Option.{option_map, option_and_then};
ghost use Rattle.driver_facts.specs.Tables.{state_in};

use crate::tables::Tables;
use display_table::{Handle, HandleKind};
use driver_objects::Context;
use egl_calls::Call;
use egl_calls::arguments::{is_zero, number, signed};
use egl_calls::places::{ATTRIBUTE, NAMED, SHARE_CONTEXT};
use egl_names::codes::{
    EGL_BACK_BUFFER, EGL_CONFIG_ID, EGL_CONTEXT_CLIENT_TYPE, EGL_CONTEXT_CLIENT_VERSION, EGL_NONE,
    EGL_OPENGL_ES_API, EGL_RENDER_BUFFER,
};

/// The value of an attribute of a context with a config, which a thread draws with or none.
fn context_value_at(config: u32, is_drawn: bool, attribute: u64) -> Option<i64>
    ensures value { result ≡ context_value_at config is_drawn attribute }
    ensures number { IfSome result IsNumber }
{
    match attribute {
        EGL_CONFIG_ID => Some(i64::from(config)),
        EGL_CONTEXT_CLIENT_TYPE => Some(EGL_OPENGL_ES_API as i64),
        EGL_CONTEXT_CLIENT_VERSION => Some(1),
        EGL_RENDER_BUFFER if is_drawn => Some(EGL_BACK_BUFFER as i64),
        EGL_RENDER_BUFFER => Some(EGL_NONE as i64),
        _ => None,
    }
}

/// Whether contexts have an attribute: all have the same.
pub(crate) fn is_context_attribute(attribute: u64) -> bool
    ensures { result ≡ is_context_attribute attribute }
{
    context_value_at(0, false, attribute).is_some()
}

impl Tables {
    /// The handle of the context to share with.
    fn share_handle(&self, call: &Call) -> Option<Handle>
        ensures { result ≡ share_handle (state_in self.now) call.now }
    {
        self.displays
            .handle_anywhere(signed(call, SHARE_CONTEXT), HandleKind::Context)
    }

    pub(crate) fn is_share(&self, call: &Call) -> bool
        ensures { result ≡ is_share (state_in self.now) call.now }
    {
        is_zero(call, SHARE_CONTEXT) || self.share_handle(call).is_some()
    }

    pub(crate) fn is_share_here(&self, call: &Call) -> bool
        ensures { result ≡ is_share_here (state_in self.now) call.now }
    {
        is_zero(call, SHARE_CONTEXT)
            || self
                .handle_at(call, SHARE_CONTEXT, HandleKind::Context)
                .is_some()
    }

    /// The group of the context with which a handle shares.
    fn group_of(&self, handle: Option<Handle>) -> Option<u64>
        ensures value { result ≡ option_map (λ x. x.group) (option_and_then (λ h. context_in (state_in self.now).objects h.object) handle) }
        ensures group { IfSome result (IsGroup (state_in self.now).objects) }
    {
        self.objects.leads_down();
        match handle {
            Some(handle) => match self.objects.context(handle.object) {
                Some(context) => Some(context.group),
                None => None,
            },
            None => None,
        }
    }

    /// The group of the context that is shared with, if one is.
    pub fn shared_group(&self, call: &Call) -> Option<u64>
        ensures value { result ≡ shared_group (state_in self.now) call.now }
        ensures group { IfSome result (IsGroup (state_in self.now).objects) }
    {
        if is_zero(call, SHARE_CONTEXT) {
            None
        } else {
            self.group_of(self.share_handle(call))
        }
    }

    /// The value of an attribute of the context of a handle.
    fn value_of_context(&self, attribute: u64, handle: Option<Handle>) -> Option<i64>
        ensures value { result ≡ value_of_context (state_in self.now) attribute handle }
        ensures number { IfSome result IsNumber }
    {
        let object = handle?.object;
        let context = self.objects.context(object)?;
        context_value_at(
            context.config,
            self.threads.is_drawn_with(object),
            attribute,
        )
    }

    /// The value of an attribute of the context that a call names after its display (section 3.7.4).
    pub fn context_value(&self, call: &Call) -> Option<i64>
        ensures value { result ≡ context_value (state_in self.now) call.now }
        ensures number { IfSome result IsNumber }
    {
        self.value_of_context(
            number(call, ATTRIBUTE),
            self.handle_at(call, NAMED, HandleKind::Context),
        )
    }
}
