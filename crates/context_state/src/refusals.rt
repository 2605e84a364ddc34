//! When a call is refused.
ghost use Rattle.std.specs.Prelude.{◌≡◌};
ghost use Rattle.context_state.specs.Arguments.{may_enable, may_disable, is_environment, is_store, is_box_name, is_parameter, is_index};
ghost use Rattle.context_state.specs.Parts.{is_alignment};
ghost use Rattle.context_state.specs.Refusals.{context_holds, context_rows, refusal};

use crate::arguments::has_negative_side;
use crate::bindings::is_binding_code;
use call_table::{GlCondition, gl_rules};
use egl_calls::arguments::{number, signed};
use egl_calls::places::{CAP, ENVIRONMENT_PARAM, ENVIRONMENT_PNAME, INDEX, PARAM, PNAME, TARGET};
use egl_calls::{Call, GlError, GlKind};
use egl_names::codes::{
    GL_ALPHA_TEST, GL_BLEND, GL_CULL_FACE, GL_DEPTH_TEST, GL_DITHER, GL_FOG, GL_LIGHTING,
    GL_MAX_TEXTURE_SIZE, GL_MODULATE, GL_PACK_ALIGNMENT, GL_REPLACE, GL_SCISSOR_BOX,
    GL_SCISSOR_TEST, GL_STENCIL_TEST, GL_TEXTURE_2D, GL_TEXTURE_ENV, GL_TEXTURE_ENV_MODE,
    GL_UNPACK_ALIGNMENT, GL_VIEWPORT,
};
use refusal_rows::{Judge, Verdict};

fn may_enable(cap: u64) -> bool
    ensures { result ≡ may_enable cap }
{
    cap == GL_TEXTURE_2D || cap == GL_SCISSOR_TEST || cap == GL_DITHER
}

fn may_disable(cap: u64) -> bool
    ensures { result ≡ may_disable cap }
{
    cap == GL_TEXTURE_2D
        || cap == GL_SCISSOR_TEST
        || cap == GL_DITHER
        || cap == GL_BLEND
        || cap == GL_DEPTH_TEST
        || cap == GL_ALPHA_TEST
        || cap == GL_STENCIL_TEST
        || cap == GL_CULL_FACE
        || cap == GL_LIGHTING
        || cap == GL_FOG
}

fn is_environment(target: u64, pname: u64, param: u64) -> bool
    ensures { result ≡ is_environment target pname param }
{
    target == GL_TEXTURE_ENV
        && pname == GL_TEXTURE_ENV_MODE
        && (param == GL_MODULATE || param == GL_REPLACE)
}

/// Whether a code is that of a parameter of glPixelStorei (OpenGL ES 1.1, section 3.6.1).
fn is_store(pname: u64) -> bool
    ensures { result ≡ is_store pname }
{
    pname == GL_UNPACK_ALIGNMENT || pname == GL_PACK_ALIGNMENT
}

/// Whether rows of pixels may be aligned to so many bytes: 1, 2, 4 or 8.
fn is_alignment(n: u64) -> bool
    ensures { result ≡ is_alignment n }
{
    n == 1 || n == 2 || n == 4 || n == 8
}

fn is_box_name(pname: u64) -> bool
    ensures { result ≡ is_box_name pname }
{
    pname == GL_VIEWPORT || pname == GL_SCISSOR_BOX
}

/// Whether a code is that of a parameter of glGetIntegerv (section 6.2).
fn is_parameter(pname: u64) -> bool
    ensures { result ≡ is_parameter pname }
{
    is_binding_code(pname) || is_box_name(pname) || pname == GL_MAX_TEXTURE_SIZE || is_store(pname)
}

/// Whether a parameter of glGetIntegerv has a value at a place: the boxes have four, each other parameter one.
fn is_index(pname: u64, index: i64) -> bool
    ensures { result ≡ is_index pname index }
{
    let last = if is_box_name(pname) { 3 } else { 0 };
    index >= 0 && index <= last
}

/// A call whose conditions are asked.
#[derive(Drop)]
struct ContextCase<'a> {
    call: &'a Call,
}

impl<'a> Judge<GlCondition> for ContextCase<'a> {
    ghost meets = { λ a x. context_holds x a.call.now };

    fn holds(&self, condition: GlCondition) -> bool {
        let call = self.call;
        match condition {
            GlCondition::NoEnabledCapability => !may_enable(number(call, CAP)),
            GlCondition::NoCapability => !may_disable(number(call, CAP)),
            GlCondition::NegativeBox => has_negative_side(call),
            GlCondition::NoEnvironment => !is_environment(
                number(call, TARGET),
                number(call, ENVIRONMENT_PNAME),
                number(call, ENVIRONMENT_PARAM),
            ),
            GlCondition::NoStore => !is_store(number(call, PNAME)),
            GlCondition::NoAlignment => !is_alignment(number(call, PARAM)),
            GlCondition::NoContextParameter => !is_parameter(number(call, PNAME)),
            GlCondition::NoIndex => !is_index(number(call, PNAME), signed(call, INDEX)),
            _ => false,
        }
    }
}

/// Whether a condition of a call that asks or sets its context's own state holds; no other does.
pub fn context_meets(condition: GlCondition, call: &Call) -> bool
    ensures { result ≡ context_holds condition call.now }
{
    let case = ContextCase { call };
    case.holds(condition)
}

/// What the rows of a call tell, in the order of the tests.
pub fn verdict<V: Verdict<GlError>>(kind: GlKind, call: &Call) -> V
    ensures { result ≡ V.told (context_rows kind call.now) }
{
    V::judge(&ContextCase { call }, gl_rules(kind))
}

/// The error that refuses a call, and None where it isn't refused: that of the first of its rows that holds.
pub fn refusal(kind: GlKind, call: &Call) -> Option<GlError>
    ensures { result ≡ refusal kind call.now }
{
    verdict(kind, call)
}
