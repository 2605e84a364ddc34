//! Renderbuffers (OES_framebuffer_object).
ghost use Rattle.std.specs.Prelude.{◌≡◌, None, Some, option_copied};
ghost use Rattle.egl_calls.specs.Ranges.{IsNumber};
ghost use Rattle.egl_model.specs.Arguments.{number};
ghost use Rattle.egl_model.specs.Renderbuffers.{renderbuffer_bytes, renderbuffer_of, renderbuffer_parameter, side_of, target_renderbuffer};
ghost use Rattle.driver_facts.specs.Tables.{state_in};

use crate::tables::Tables;
use driver_objects::BackedRenderbuffer;
use egl_calls::Call;
use egl_calls::arguments::number;
use egl_calls::limits::LONGEST_SIDE;
use egl_calls::places::{BOUND_PNAME, STORED_FORMAT, STORED_HEIGHT, STORED_WIDTH};
use egl_names::codes::GL_RENDERBUFFER_WIDTH_OES;
use framebuffer_objects::{Renderbuffer, format_of};
use pixel_formats::bytes_of;

/// The bytes of the pixels that a glRenderbufferStorageOES gives; a longer side is another refusal's.
pub(crate) fn renderbuffer_bytes(call: &Call) -> u64
    ensures { result ≡ renderbuffer_bytes call.now }
{
    match format_of(number(call, STORED_FORMAT)) {
        Some(format) => {
            number(call, STORED_WIDTH).min(LONGEST_SIDE)
                * number(call, STORED_HEIGHT).min(LONGEST_SIDE)
                * bytes_of(format) as u64
        }
        None => 0,
    }
}

/// A side of a renderbuffer, by the code of the parameter's name.
fn side_of(renderbuffer: &Renderbuffer, pname: u64) -> u32
    ensures { result ≡ side_of pname renderbuffer.now }
{
    if pname == GL_RENDERBUFFER_WIDTH_OES {
        renderbuffer.width()
    } else {
        renderbuffer.height()
    }
}

impl Tables {
    /// The number of the renderbuffer on which calls work: of what the context has bound.
    pub fn target_renderbuffer(&self, context: u64) -> Option<u64>
        ensures { result ≡ target_renderbuffer (state_in self.now) context }
    {
        match self.objects.context(context) {
            Some(context) => context.bound.renderbuffer,
            None => None,
        }
    }

    /// That renderbuffer.
    fn renderbuffer_of(&self, context: u64) -> Option<&BackedRenderbuffer>
        ensures { option_copied result ≡ renderbuffer_of (state_in self.now) context }
    {
        match self.target_renderbuffer(context) {
            Some(renderbuffer) => self.objects.renderbuffer(renderbuffer),
            None => None,
        }
    }

    /// The value of a parameter of the renderbuffer on which calls work; 0 where there is none.
    pub fn renderbuffer_parameter(&self, context: u64, call: &Call) -> i64
        ensures value { result ≡ renderbuffer_parameter call.now (renderbuffer_of (state_in self.now) context) }
        ensures number { IsNumber result }
    {
        match self.renderbuffer_of(context) {
            Some(backed) => side_of(&backed.renderbuffer, number(call, BOUND_PNAME)) as i64,
            None => 0,
        }
    }
}
