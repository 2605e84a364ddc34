//! When each call of EGL is refused.
ghost use Rattle.std.specs.Prelude.{◌≡◌, ◌+◌, nat_lt, ◌<◌};
ghost use Rattle.call_rules.specs.EglRules.{egl_refusal, egl_judged, egl_holds, no_facts, has_attributes, has_code, is_one_alone, is_release_by, is_wrong, is_long, is_later_version, is_supported_version};

use crate::egl_facts::EglFacts;
use call_table::{EglCondition, Role, egl_role, egl_rules};
use egl_calls::arguments::{is_zero, number};
use egl_calls::places::{
    API, ATTRIBUTE, CONTEXT, DRAW, FLAGS, IMAGE_SOURCE, READ, READDRAW, SYNC_TYPE, VALUE,
};
use egl_calls::{Call, EglError, Kind};
use egl_names::codes::{
    EGL_BUFFER_DESTROYED, EGL_BUFFER_PRESERVED, EGL_DRAW, EGL_GL_RENDERBUFFER, EGL_GL_TEXTURE_2D,
    EGL_OPENGL_ES_API, EGL_READ, EGL_SWAP_BEHAVIOR, EGL_SYNC_FENCE,
};
use refusal_rows::{Judge, Verdict};

/// Whether a side of a pbuffer is above 2,048.
pub fn is_long(side: i64) -> bool
    ensures { result ≡ is_long side }
{
    side > 2_048
}

/// Whether so many in all are more than the limit.
pub fn exceeds(limit: u64, live: u64, new: u64) -> bool
    ensures { result ≡ nat_lt limit (live + new) }
{
    u128::from(live) + u128::from(new) > u128::from(limit)
}

/// Whether there is such a version of OpenGL ES, which no config supports.
pub fn is_later_version(version: i64, minor: i64) -> bool
    ensures { result ≡ is_later_version version minor }
{
    version == 2 && minor == 0 || version == 3 && (minor == 0 || minor == 1 || minor == 2)
}

/// Whether it is OpenGL ES 1.0 or 1.1.
pub fn is_supported_version(version: i64, minor: i64) -> bool
    ensures { result ≡ is_supported_version version minor }
{
    version == 1 && (minor == 0 || minor == 1)
}

/// Whether the number at a place is the code of a name.
fn has_code(call: &Call, place: usize, code: u64) -> bool
    requires { place < 8 }
    ensures { result ≡ has_code call.now place code }
{
    number(call, place) == code
}

/// Whether an attribute list has anything.
fn has_attributes(call: &Call) -> bool
    ensures { result ≡ has_attributes call.now }
{
    call.list.len() > 0
}

/// Whether a number is given at a place that isn't what it has to be.
fn is_wrong(call: &Call, place: usize, is_valid: bool) -> bool
    requires { place < 8 }
    ensures { result ≡ is_wrong call.now place is_valid }
{
    !is_zero(call, place) && !is_valid
}

/// Whether a surface to draw to is given without one to read from, or the other way round.
fn is_one_alone(call: &Call) -> bool
    ensures { result ≡ is_one_alone call.now }
{
    is_zero(call, DRAW) && !is_zero(call, READ) || !is_zero(call, DRAW) && is_zero(call, READ)
}

/// Whether a call only releases what is current (section 3.7.3): it is given neither surfaces nor a context.
fn is_release_by(role: Role, call: &Call) -> bool
    ensures { result ≡ is_release_by role call.now }
{
    matches!(role, Role::MakesCurrent)
        && is_zero(call, DRAW)
        && is_zero(call, READ)
        && is_zero(call, CONTEXT)
}

/// A call, and the facts about the state in which it is made.
#[derive(Drop)]
struct EglCase<'a> {
    call: &'a Call,
    facts: &'a EglFacts,
}

impl<'a> Judge<EglCondition> for EglCase<'a> {
    ghost meets = { λ c x. egl_holds x c.call.now c.facts.now };

    fn holds(&self, condition: EglCondition) -> bool {
        let EglCase { call, facts } = *self;
        match condition {
            EglCondition::NoDisplay => !facts.is_display,
            EglCondition::NotInitialized => !facts.is_initialized,
            EglCondition::NoConfig => !facts.is_config,
            EglCondition::NoSurface => !facts.is_surface,
            EglCondition::NoContext => !facts.is_context,
            EglCondition::NoSync => !facts.is_sync,
            EglCondition::NoImage => !facts.is_image,
            EglCondition::NoConfigAttribute => !facts.is_config_attribute,
            EglCondition::NoSurfaceAttribute => !facts.is_surface_attribute,
            EglCondition::NoContextAttribute => !facts.is_context_attribute,
            EglCondition::NoSyncAttribute => !facts.is_sync_attribute,
            EglCondition::WrongConfigList => !facts.is_config_list,
            EglCondition::WrongWindowList => !facts.is_window_list,
            EglCondition::WrongPbufferList => !facts.is_pbuffer_list,
            EglCondition::WrongContextList => !facts.is_context_list,
            EglCondition::WrongImageList => !facts.is_image_list,
            EglCondition::SomeList => has_attributes(call),
            EglCondition::NoWindowVideo => {
                exceeds(facts.video_limit, facts.live_bytes, facts.window_bytes)
            }
            EglCondition::NoPbufferVideo => {
                exceeds(facts.video_limit, facts.live_bytes, facts.pbuffer_bytes)
            }
            EglCondition::NoHandle => facts.are_handles_used_up,
            EglCondition::NoWindowBit => !facts.is_window_config && facts.is_config,
            EglCondition::NoWindow => !facts.is_window,
            EglCondition::WindowUsed => facts.is_window_used,
            EglCondition::NegativeSide => facts.width < 0 || facts.height < 0,
            EglCondition::LongSide => {
                (is_long(facts.width) || is_long(facts.height)) && !facts.is_largest
            }
            EglCondition::NoSwapAttribute => !has_code(call, ATTRIBUTE, EGL_SWAP_BEHAVIOR),
            EglCondition::NoSwapBehavior => {
                !(has_code(call, VALUE, EGL_BUFFER_PRESERVED)
                    || has_code(call, VALUE, EGL_BUFFER_DESTROYED))
            }
            EglCondition::NoApi => !has_code(call, API, EGL_OPENGL_ES_API),
            EglCondition::NoShare => !facts.is_share,
            EglCondition::ShareElsewhere => !facts.is_share_here && facts.is_share,
            EglCondition::LaterVersion => is_later_version(facts.version, facts.minor_version),
            EglCondition::NoVersion => {
                !is_supported_version(facts.version, facts.minor_version)
                    && !is_later_version(facts.version, facts.minor_version)
            }
            EglCondition::WrongSurface => {
                is_wrong(call, DRAW, facts.is_draw) || is_wrong(call, READ, facts.is_read)
            }
            EglCondition::WrongContext => is_wrong(call, CONTEXT, facts.is_given_context),
            EglCondition::WithoutContext => is_zero(call, CONTEXT),
            EglCondition::OneSurface => is_one_alone(call),
            EglCondition::NotCompatible => is_wrong(call, DRAW, facts.is_compatible),
            EglCondition::ContextElsewhere => facts.is_context_elsewhere,
            EglCondition::SurfaceElsewhere => facts.is_surface_elsewhere,
            EglCondition::NoReaddraw => {
                !(has_code(call, READDRAW, EGL_DRAW) || has_code(call, READDRAW, EGL_READ))
            }
            EglCondition::NoFence => !has_code(call, SYNC_TYPE, EGL_SYNC_FENCE),
            EglCondition::NoContextHere => !facts.is_current_here,
            EglCondition::SomeFlags => !is_zero(call, FLAGS),
            EglCondition::NotCurrent => !facts.is_current,
            EglCondition::NoImageSource => {
                !(has_code(call, IMAGE_SOURCE, EGL_GL_TEXTURE_2D)
                    || has_code(call, IMAGE_SOURCE, EGL_GL_RENDERBUFFER))
            }
            EglCondition::NoPixels => !facts.is_source && facts.is_context,
            EglCondition::NotComplete => facts.is_incomplete,
            EglCondition::NoLevel => !facts.is_level && facts.is_source,
            EglCondition::Sibling => facts.is_sibling,
            EglCondition::NotDrawnTo => !facts.is_drawn_to && facts.is_surface,
        }
    }
}

/// Whether a condition that asks for nothing but the call holds. One that asks for more holds as it does where no fact does.
pub fn egl_call_meets(condition: EglCondition, call: &Call) -> bool
    ensures { result ≡ egl_holds condition call.now no_facts }
{
    let facts = &EglFacts::none();
    let case = EglCase { call, facts };
    case.holds(condition)
}

/// What the rows of a call of EGL tell, in the order of the tests, their conditions held against a judge. A call of another interface has no row.
pub fn egl_verdict<V: Verdict<EglError>, J: Judge<EglCondition>>(judge: &J, call: &Call) -> V
    ensures { result ≡ V.told (egl_judged (J.meets judge.now) call.now.kind call.now) }
{
    let Kind::Egl(kind) = call.kind else {
        return V::tell(&[]);
    };
    if is_release_by(egl_role(kind), call) {
        return V::tell(&[(judge.holds(EglCondition::NoDisplay), EglError::BadDisplay)]);
    }
    V::judge(judge, egl_rules(kind))
}

/// The error that a call of EGL answers, and None where it isn't refused: that of the first of its rows that holds.
#[tactic(auto, unfolding(crate::specs::EglRules::egl_refusal))]
pub fn egl_refusal(call: &Call, facts: &EglFacts) -> Option<EglError>
    ensures { result ≡ egl_refusal call.now facts.now }
{
    egl_verdict(&EglCase { call, facts }, call)
}
