//! When each call of OpenGL ES is refused.
ghost use Rattle.std.specs.Prelude.{◌≡◌, ◌<◌, ◌||◌, ◌&&◌, not};
ghost use Rattle.egl_calls.specs.Arguments.{number, signed};
ghost use Rattle.call_rules.specs.TextureRules.{is_image_format, is_image_type, is_no_level_side, is_outside_side};
ghost use Rattle.call_rules.specs.GlRules.{gl_refusal, gl_judged, gl_holds, no_gl_facts, draws_nothing, is_clear_mask, is_read_format, is_read_type, is_read_pair, read_format, read_type};

use crate::attachment_rules::{attaches, is_attachment_parameter};
use crate::buffer_rules::{is_buffer_parameter, is_buffer_target, is_usage};
use crate::copy_rules::has_alpha;
use crate::egl_rules::exceeds;
use crate::gl_facts::GlFacts;
use crate::renderbuffer_rules::{is_no_side, is_renderbuffer_parameter};
use crate::texture_rules::{
    is_image_format, is_image_type, is_no_count, is_no_level, is_no_level_side, is_outside_side,
};
use call_table::{GlCondition, gl_rules, own_rules};
use context_state::{context_gl_call, context_meets};
use egl_calls::arguments::{is_zero, number, signed};
use egl_calls::places::{
    ATTACHED_LEVEL, ATTACHED_TARGET, ATTACHMENT, ATTACHMENT_PNAME, BORDER, BOUND_NAME, BOUND_PARAM,
    BOUND_PNAME, BUFFER_OFFSET, BUFFER_PART_SIZE, BUFFER_SIZE, BUFFER_USAGE, COPIED_BORDER,
    COPIED_HEIGHT, COPIED_PART_HEIGHT, COPIED_PART_WIDTH, COPIED_WIDTH, COUNT, DRAWN_HEIGHT,
    DRAWN_WIDTH, FORMAT, HEIGHT, IMAGE_FORMAT, IMAGE_HEIGHT, IMAGE_TYPE, IMAGE_WIDTH,
    INTERNAL_FORMAT, LEVEL, MASK, PART_HEIGHT, PART_WIDTH, STORED_FORMAT, STORED_HEIGHT,
    STORED_WIDTH, TARGET, TYPE, WIDTH, X_OFFSET, Y_OFFSET,
};
use egl_calls::{Call, GlError, Kind, unsigned};
use egl_names::codes::{
    GL_COLOR_BUFFER_BIT, GL_DEPTH_BUFFER_BIT, GL_FRAMEBUFFER_ATTACHMENT_OBJECT_NAME_OES,
    GL_FRAMEBUFFER_OES, GL_RENDERBUFFER_OES, GL_RGB, GL_RGBA, GL_STENCIL_BUFFER_BIT, GL_TEXTURE_2D,
    GL_TEXTURE_CROP_RECT_OES, GL_UNSIGNED_BYTE, GL_UNSIGNED_SHORT_5_6_5,
};
use framebuffer_objects::{is_attachment, is_internal};
use refusal_rows::{Judge, Verdict};
use texture_objects::{form_of, is_parameter_pair};

const BUFFER_BITS: u64 = GL_COLOR_BUFFER_BIT | GL_DEPTH_BUFFER_BIT | GL_STENCIL_BUFFER_BIT;

fn is_clear_mask(mask: i64) -> bool
    ensures { result ≡ is_clear_mask mask }
{
    mask >= 0 && (unsigned(mask) | BUFFER_BITS) == BUFFER_BITS
}

fn is_read_format(format: u64) -> bool
    ensures { result ≡ is_read_format format }
{
    format == GL_RGBA || format == GL_RGB
}

fn is_read_type(kind: u64) -> bool
    ensures { result ≡ is_read_type kind }
{
    kind == GL_UNSIGNED_BYTE || kind == GL_UNSIGNED_SHORT_5_6_5
}

fn is_read_pair(format: u64, kind: u64) -> bool
    ensures { result ≡ is_read_pair format kind }
{
    format == GL_RGBA && kind == GL_UNSIGNED_BYTE
        || format == GL_RGB && kind == GL_UNSIGNED_SHORT_5_6_5
}

/// Whether there is the format, and the type of its components, of pixels that are read.
fn has_read_kind(call: &Call) -> bool
    ensures { result ≡ (is_read_format (read_format call.now) && is_read_type (read_type call.now)) }
{
    is_read_format(number(call, FORMAT)) && is_read_type(number(call, TYPE))
}

/// The same of pixels that are given.
fn has_image_kind(call: &Call) -> bool
    ensures { result ≡ (is_image_format (number call.now IMAGE_FORMAT) && is_image_type (number call.now IMAGE_TYPE)) }
{
    is_image_format(number(call, IMAGE_FORMAT)) && is_image_type(number(call, IMAGE_TYPE))
}

/// Whether there are pixels to be read, and they have no alpha.
fn lacks_alpha(facts: &GlFacts) -> bool
    ensures { result ≡ (not facts.now.has_read_alpha && facts.now.is_framebuffer_complete) }
{
    !facts.has_read_alpha && facts.is_framebuffer_complete
}

fn draws_nothing(call: &Call) -> bool
    ensures { result ≡ draws_nothing call.now }
{
    signed(call, DRAWN_WIDTH) < 1 || signed(call, DRAWN_HEIGHT) < 1
}

fn has_no_level_side(call: &Call, width: usize, height: usize) -> bool
    requires { (width < 8) × (height < 8) }
    ensures { result ≡ (is_no_level_side (number call.now LEVEL) (signed call.now width) || is_no_level_side (number call.now LEVEL) (signed call.now height)) }
{
    let level = number(call, LEVEL);
    is_no_level_side(level, signed(call, width)) || is_no_level_side(level, signed(call, height))
}

/// Whether a part doesn't lie within a level's sides; its own stand at two places.
pub fn is_outside(
    call: &Call,
    is_stored: bool,
    stored_width: u64,
    stored_height: u64,
    width: usize,
    height: usize,
) -> bool
    requires { (width < 8) × (height < 8) }
    ensures { result ≡ (is_outside_side is_stored stored_width (signed call.now X_OFFSET) (signed call.now width) || is_outside_side is_stored stored_height (signed call.now Y_OFFSET) (signed call.now height)) }
{
    is_outside_side(
        is_stored,
        stored_width,
        signed(call, X_OFFSET),
        signed(call, width),
    ) || is_outside_side(
        is_stored,
        stored_height,
        signed(call, Y_OFFSET),
        signed(call, height),
    )
}

/// A call, and the facts about the state in which it is made.
#[derive(Drop)]
struct GlCase<'a> {
    call: &'a Call,
    facts: &'a GlFacts,
}

impl<'a> Judge<GlCondition> for GlCase<'a> {
    ghost meets = { λ c x. gl_holds x c.call.now c.facts.now };

    fn holds(&self, condition: GlCondition) -> bool {
        let GlCase { call, facts } = *self;
        match condition {
            GlCondition::NoTextureTarget => number(call, TARGET) != GL_TEXTURE_2D,
            GlCondition::NoBufferTarget => !is_buffer_target(number(call, TARGET)),
            GlCondition::NoRenderbufferTarget => number(call, TARGET) != GL_RENDERBUFFER_OES,
            GlCondition::NoFramebufferTarget => number(call, TARGET) != GL_FRAMEBUFFER_OES,
            GlCondition::NoBufferBound => !facts.is_buffer_bound,
            GlCondition::NoRenderbufferBound => !facts.is_renderbuffer_bound,
            GlCondition::NoFramebufferBound => !facts.is_framebuffer_bound,
            GlCondition::WrongCount => is_no_count(signed(call, COUNT)),
            GlCondition::NegativeName => signed(call, BOUND_NAME) < 0,
            GlCondition::NoImageVideo => {
                exceeds(facts.video_limit, facts.live_bytes, facts.image_bytes)
            }
            GlCondition::NoCopiedVideo => {
                exceeds(facts.video_limit, facts.live_bytes, facts.copied_bytes)
            }
            GlCondition::NoDataVideo => {
                exceeds(facts.video_limit, facts.live_bytes, facts.data_bytes)
            }
            GlCondition::NoStorageVideo => {
                exceeds(facts.video_limit, facts.live_bytes, facts.storage_bytes)
            }
            GlCondition::NotComplete => !facts.is_framebuffer_complete,
            GlCondition::NoBufferBit => !is_clear_mask(signed(call, MASK)),
            GlCondition::WrongReadSides => {
                is_no_side(signed(call, WIDTH)) || is_no_side(signed(call, HEIGHT))
            }
            GlCondition::NoReadKind => { !has_read_kind(call) }
            GlCondition::NoReadPair => {
                !is_read_pair(number(call, FORMAT), number(call, TYPE)) && has_read_kind(call)
            }
            GlCondition::DrawsNothing => draws_nothing(call),
            GlCondition::NoCropParameter => number(call, BOUND_PNAME) != GL_TEXTURE_CROP_RECT_OES,
            GlCondition::WrongCropLength => call.list.len() != 4,
            GlCondition::NoTextureParameter => {
                !is_parameter_pair(number(call, BOUND_PNAME), number(call, BOUND_PARAM))
            }
            GlCondition::NoImageKind => { !has_image_kind(call) }
            GlCondition::NoImagePair => {
                form_of(signed(call, IMAGE_FORMAT), signed(call, IMAGE_TYPE)).is_none()
                    && has_image_kind(call)
            }
            GlCondition::NoInternalFormat => !is_image_format(number(call, INTERNAL_FORMAT)),
            GlCondition::NoLevel => is_no_level(signed(call, LEVEL)),
            GlCondition::WrongLevelSides => has_no_level_side(call, IMAGE_WIDTH, IMAGE_HEIGHT),
            GlCondition::SomeBorder => !is_zero(call, BORDER),
            GlCondition::OtherFormat => {
                number(call, INTERNAL_FORMAT) != number(call, IMAGE_FORMAT)
            }
            GlCondition::NoStorage => !facts.is_stored,
            GlCondition::OutsideLevel => {
                is_outside(
                    call,
                    facts.is_stored,
                    facts.stored_width,
                    facts.stored_height,
                    PART_WIDTH,
                    PART_HEIGHT,
                )
            }
            GlCondition::OtherLevelFormat => {
                number(call, IMAGE_FORMAT) != facts.stored_base && facts.is_stored
            }
            GlCondition::WrongCopiedSides => has_no_level_side(call, COPIED_WIDTH, COPIED_HEIGHT),
            GlCondition::SomeCopiedBorder => !is_zero(call, COPIED_BORDER),
            GlCondition::NoInternalAlpha => {
                has_alpha(number(call, INTERNAL_FORMAT)) && lacks_alpha(facts)
            }
            GlCondition::CopiedOutsideLevel => {
                is_outside(
                    call,
                    facts.is_stored,
                    facts.stored_width,
                    facts.stored_height,
                    COPIED_PART_WIDTH,
                    COPIED_PART_HEIGHT,
                )
            }
            GlCondition::NoLevelAlpha => has_alpha(facts.stored_base) && lacks_alpha(facts),
            GlCondition::NoUsage => !is_usage(number(call, BUFFER_USAGE)),
            GlCondition::NegativeSize => signed(call, BUFFER_SIZE) < 0,
            GlCondition::NegativePart => {
                signed(call, BUFFER_OFFSET) < 0 || signed(call, BUFFER_PART_SIZE) < 0
            }
            GlCondition::PartBehindEnd => {
                exceeds(
                    facts.buffer_size,
                    number(call, BUFFER_OFFSET),
                    number(call, BUFFER_PART_SIZE),
                ) && facts.is_buffer_bound
            }
            GlCondition::NoBufferParameter => !is_buffer_parameter(number(call, BOUND_PNAME)),
            GlCondition::NoRenderbufferFormat => !is_internal(number(call, STORED_FORMAT)),
            GlCondition::WrongStorageSides => {
                is_no_side(signed(call, STORED_WIDTH)) || is_no_side(signed(call, STORED_HEIGHT))
            }
            GlCondition::NoRenderbufferParameter => {
                !is_renderbuffer_parameter(number(call, BOUND_PNAME))
            }
            GlCondition::NoAttachment => !is_attachment(number(call, ATTACHMENT)),
            GlCondition::NoTextureNamed => attaches(call) && !facts.is_texture_named,
            GlCondition::NoRenderbufferNamed => attaches(call) && !facts.is_renderbuffer_named,
            GlCondition::NoAttachedTarget => {
                attaches(call) && number(call, ATTACHED_TARGET) != GL_TEXTURE_2D
            }
            GlCondition::SomeAttachedLevel => attaches(call) && !is_zero(call, ATTACHED_LEVEL),
            GlCondition::NoAttachedRenderbufferTarget => {
                number(call, ATTACHED_TARGET) != GL_RENDERBUFFER_OES
            }
            GlCondition::NoAttachmentParameter => {
                !is_attachment_parameter(number(call, ATTACHMENT_PNAME))
            }
            GlCondition::NothingAttached => {
                number(call, ATTACHMENT_PNAME) == GL_FRAMEBUFFER_ATTACHMENT_OBJECT_NAME_OES
                    && !facts.is_attached
                    && facts.is_framebuffer_bound
            }
            GlCondition::NoImage => !facts.is_image,
            GlCondition::NotRenderable => !facts.is_renderable && facts.is_image,
            GlCondition::NoEnabledCapability
            | GlCondition::NoCapability
            | GlCondition::NegativeBox
            | GlCondition::NoEnvironment
            | GlCondition::NoStore
            | GlCondition::NoAlignment
            | GlCondition::NoContextParameter
            | GlCondition::NoIndex => context_meets(condition, call),
        }
    }
}

/// Whether a condition that asks for nothing but the call holds. One that asks for more holds as it does where no fact does.
pub fn gl_call_meets(condition: GlCondition, call: &Call) -> bool
    ensures { result ≡ gl_holds condition call.now no_gl_facts }
{
    let facts = &GlFacts::none();
    let case = GlCase { call, facts };
    case.holds(condition)
}

/// What the rows of a call of OpenGL ES, or of a `readBuffer`, tell, in the order of the tests, their conditions held against a judge. Another call has no row.
pub fn gl_verdict<V: Verdict<GlError>, J: Judge<GlCondition>>(judge: &J, call: &Call) -> V
    ensures { result ≡ V.told (gl_judged (J.meets judge.now) call.now.kind call.now) }
{
    match call.kind {
        Kind::Gl(kind) => match context_gl_call(kind) {
            Some(own) => context_state::verdict(own, call),
            None => V::judge(judge, gl_rules(kind)),
        },
        Kind::Own(kind) => V::judge(judge, own_rules(kind)),
        Kind::Egl(_) => V::tell(&[]),
    }
}

/// The error that a call of OpenGL ES, or a `readBuffer`, keeps in its context and comes out with, and None where it isn't refused: that of the first of its rows that holds.
#[tactic(auto, unfolding(crate::specs::GlRules::gl_refusal))]
pub fn gl_refusal(call: &Call, facts: &GlFacts) -> Option<GlError>
    ensures { result ≡ gl_refusal call.now facts.now }
{
    gl_verdict(&GlCase { call, facts }, call)
}
