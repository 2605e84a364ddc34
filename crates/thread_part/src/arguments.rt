//! What a call's numbers say, and which calls are refused.
ghost use Rattle.std.specs.Prelude.{◌≡◌, ◌<◌, ◌==◌, pos};
ghost use Rattle.egl_model.specs.State.{api_code};
ghost use Rattle.egl_names.specs.declared.codes.TheConstants.{EGL_DRAW as ADraw};
ghost use Rattle.egl_calls.specs.Ranges.{IsNumber};
ghost use Rattle.egl_calls.specs.Arguments.{signed};
ghost use Rattle.egl_model.specs.Arguments.{number};
ghost use Rattle.egl_model.specs.Displays.{display_of};
ghost use Rattle.egl_model.specs.Drawing.{clears_colour, read_form, read_rect};
ghost use Rattle.model_laws.specs.Local.{local_refusal};

use call_rules::EglFacts;
use egl_calls::arguments::{number, signed};
use egl_calls::places::{DISPLAY_ID, HEIGHT, MASK, READDRAW, TYPE, WIDTH, X, Y};
use egl_calls::{Call, EglError};
use egl_model::ClientApi;
use egl_names::codes::{EGL_DRAW, EGL_OPENGL_ES_API, GL_UNSIGNED_SHORT_5_6_5};
use pixel_formats::Format;
use pixel_rows::Rect;

/// The display that eglGetDisplay answers, or 0 (EGL 1.5, section 3.2).
pub fn display_of(call: &Call) -> i64
    ensures value { result ≡ display_of (signed call.now 0) }
    ensures number { IsNumber result }
{
    let id = signed(call, DISPLAY_ID);
    if id == 0 {
        1
    } else if id == 1 {
        2
    } else {
        0
    }
}

/// The code of an API's name (EGL 1.5, section 3.7).
pub fn api_code(api: ClientApi) -> i64
    ensures value { result ≡ pos (api_code api) }
    ensures number { IsNumber result }
{
    match api {
        ClientApi::OpenGlEs => EGL_OPENGL_ES_API as i64,
    }
}

/// Whether eglGetCurrentSurface asks for the surface that is drawn to.
pub fn asks_for_draw(call: &Call) -> bool
    ensures { result ≡ (number call.now 0 == ADraw) }
{
    number(call, READDRAW) == EGL_DRAW
}

/// Whether the mask of glClear has the bit of the colour buffer.
pub fn clears_colour(call: &Call) -> bool
    ensures { result ≡ clears_colour call.now }
{
    rect_pipeline::clears_colour(signed(call, MASK))
}

/// The rectangle that glReadPixels reads.
pub fn read_rect(call: &Call) -> Rect
    ensures { result ≡ read_rect call.now }
{
    Rect {
        x: signed(call, X),
        y: signed(call, Y),
        w: signed(call, WIDTH),
        h: signed(call, HEIGHT),
    }
}

/// The form of the bytes that glReadPixels reads.
pub fn read_form(call: &Call) -> Format
    ensures { result ≡ read_form call.now }
{
    if number(call, TYPE) == GL_UNSIGNED_SHORT_5_6_5 {
        Format::Rgb565
    } else {
        Format::Rgba8888
    }
}

/// The error of a local call of EGL, if it is refused.
pub fn local_refusal(call: &Call) -> Option<EglError>
    ensures { result ≡ local_refusal call.now }
{
    call_rules::egl_refusal(call, &EglFacts::none())
}
