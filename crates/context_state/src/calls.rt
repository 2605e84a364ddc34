//! The calls that ask and set the state of their context alone.
ghost use Rattle.std.specs.Prelude.{◌≡◌, ◌<◌, ◌==◌, true, false, pos, None};
ghost use Rattle.egl_calls.specs.Errors.{gl_code};
ghost use Rattle.egl_calls.specs.Ranges.{IsNumber};
ghost use Rattle.egl_calls.specs.declared.kinds.Kind.TheVariants.{Gl};
ghost use Rattle.egl_calls.specs.declared.errors.GlError.TheVariants.{NoError};
ghost use Rattle.context_state.specs.Arguments.{box, colour, has_negative_side, mask};
ghost use Rattle.context_state.specs.Calls.{aligned, answered, apply, changed, parameter, refused, switched, value};
ghost use Rattle.context_state.specs.Kinds.{is_context_call};
ghost use Rattle.context_state.specs.Parts.{is_alignment};
ghost use Rattle.context_state.specs.Refusals.{refusal};

use crate::arguments::{box_of, colour, mask};
use crate::bindings::name_bound;
use crate::kinds::context_call;
use crate::parts::ContextPart;
use crate::refusals::refusal;
use egl_calls::arguments::number;
use egl_calls::places::{CAP, ENVIRONMENT_PARAM, INDEX, PARAM, PNAME};
use egl_calls::{Bytes, Call, GlError, GlKind, Numbers, Outcome, Reply};
use egl_names::codes::{
    GL_MAX_TEXTURE_SIZE, GL_PACK_ALIGNMENT, GL_REPLACE, GL_SCISSOR_BOX, GL_SCISSOR_TEST,
    GL_TEXTURE_2D, GL_UNPACK_ALIGNMENT, GL_VIEWPORT,
};
use std::alloc::Global;

/// The longest side of a texture, in pixels: the answer for GL_MAX_TEXTURE_SIZE.
const MAX_TEXTURE_SIZE: i64 = 1_024;

fn answered(alloc: Global, value: i64) -> Reply
    requires { IsNumber value }
    ensures { result ≡ answered value }
{
    Reply {
        outcome: Outcome::Done,
        value,
        list: Numbers::new(alloc),
        bytes: Bytes::new(alloc),
    }
}

fn refused(alloc: Global, error: GlError) -> Reply
    ensures { result ≡ refused error }
{
    Reply {
        outcome: Outcome::Gl(error),
        value: 0,
        list: Numbers::new(alloc),
        bytes: Bytes::new(alloc),
    }
}

impl ContextPart {
    fn kept_error(&self) -> i64
        ensures value { result ≡ pos (gl_code self.now.error) }
        ensures number { IsNumber result }
    {
        i64::from(self.error.code())
    }

    fn parameter(&self, pname: u64, index: usize) -> i64
        requires { index < 4 }
        ensures value { result ≡ parameter pname index self.now }
        ensures number { IsNumber result }
    {
        if pname == GL_VIEWPORT {
            return self.viewport[index];
        }
        if pname == GL_SCISSOR_BOX {
            return self.scissor_box[index];
        }
        if pname == GL_MAX_TEXTURE_SIZE {
            return MAX_TEXTURE_SIZE;
        }
        if pname == GL_UNPACK_ALIGNMENT {
            return i64::from(self.unpack_alignment);
        }
        if pname == GL_PACK_ALIGNMENT {
            return i64::from(self.pack_alignment);
        }
        i64::from(name_bound(pname, &self.bound))
    }

    fn value(&self, kind: GlKind, call: &Call) -> i64
        requires { refusal kind call.now ≡ None }
        ensures value { result ≡ value kind call.now self.now }
        ensures number { IsNumber result }
    {
        match kind {
            GlKind::GetError => self.kept_error(),
            GlKind::GetIntegerv => self.parameter(
                number(call, PNAME),
                number(call, INDEX) as usize,
            ),
            _ => 0,
        }
    }

    fn clear_error(&mut self)
        ensures { self.new ≡ record self.old { error = NoError } }
    {
        self.error = GlError::NoError;
    }

    fn switch(&mut self, cap: u64, on: bool)
        ensures { self.new ≡ switched cap on self.old }
    {
        if cap == GL_TEXTURE_2D {
            self.is_texture_enabled = on;
        }
        if cap == GL_SCISSOR_TEST {
            self.is_scissor_enabled = on;
        }
    }

    fn set_scissor_box(&mut self, call: &Call)
        requires kind { is_context_call call.now.kind ≡ true }
        requires sides { has_negative_side call.now ≡ false }
        ensures { self.new ≡ record self.old { scissor_box = box call.now } }
    {
        self.scissor_box = box_of(call);
    }

    fn set_viewport(&mut self, call: &Call)
        requires kind { is_context_call call.now.kind ≡ true }
        requires sides { has_negative_side call.now ≡ false }
        ensures { self.new ≡ record self.old { viewport = box call.now } }
    {
        self.viewport = box_of(call);
    }

    fn set_clear_color(&mut self, call: &Call)
        ensures { self.new ≡ record self.old { clear_color = colour call.now } }
    {
        self.clear_color = colour(call);
    }

    fn set_color(&mut self, call: &Call)
        ensures { self.new ≡ record self.old { color = colour call.now } }
    {
        self.color = colour(call);
    }

    fn set_mask(&mut self, call: &Call)
        ensures { self.new ≡ record self.old { mask = mask call.now } }
    {
        self.mask = mask(call);
    }

    fn set_environment(&mut self, param: u64)
        ensures { self.new ≡ record self.old { is_replacing = param == GL_REPLACE } }
    {
        self.is_replacing = param == GL_REPLACE;
    }

    fn align(&mut self, pname: u64, n: u64)
        requires { is_alignment n ≡ true }
        ensures { self.new ≡ aligned pname n self.old }
    {
        let n = n as u32;
        if pname == GL_PACK_ALIGNMENT {
            self.pack_alignment = n;
        }
        if pname == GL_UNPACK_ALIGNMENT {
            self.unpack_alignment = n;
        }
    }

    fn change(&mut self, kind: GlKind, call: &Call)
        requires kind { call.now.kind ≡ Gl kind }
        requires own { is_context_call call.now.kind ≡ true }
        requires allowed { refusal kind call.now ≡ None }
        ensures { self.new ≡ changed kind call.now self.old }
    {
        match kind {
            GlKind::GetError => self.clear_error(),
            GlKind::Enable => self.switch(number(call, CAP), true),
            GlKind::Disable => self.switch(number(call, CAP), false),
            GlKind::Scissor => self.set_scissor_box(call),
            GlKind::Viewport => self.set_viewport(call),
            GlKind::ClearColorx => self.set_clear_color(call),
            GlKind::Color4x => self.set_color(call),
            GlKind::ColorMask => self.set_mask(call),
            GlKind::TexEnvx => self.set_environment(number(call, ENVIRONMENT_PARAM)),
            GlKind::PixelStorei => self.align(number(call, PNAME), number(call, PARAM)),
            GlKind::ClearDepthx | GlKind::ClearStencil | GlKind::GetIntegerv => {}
            _ => unreachable!(),
        }
    }

    /// Does a call of OpenGL ES that asks or sets this state alone: one of those that `is_context_call` names. A refused one keeps its error, if none is kept, and changes nothing else. It takes no memory.
    pub fn apply(&mut self, alloc: Global, call: &Call) -> Reply
        requires { is_context_call call.now.kind ≡ true }
        ensures reply { result ≡ (apply call.now self.old).reply }
        ensures part { self.new ≡ (apply call.now self.old).part }
    {
        let Some(kind) = context_call(call.kind) else {
            unreachable!()
        };
        if let Some(error) = refusal(kind, call) {
            self.note_error(error);
            return refused(alloc, error);
        }
        let value = self.value(kind, call);
        self.change(kind, call);
        answered(alloc, value)
    }
}
