//! What refuses a call of OpenGL ES, asked of the tables when its row is tried.
ghost use Rattle.std.specs.Prelude.{◌≡◌, ◌+◌, ◌<◌, ◌||◌, ◌&&◌, false, is_some, length, nat_lt, not};
ghost use Rattle.std.specs.Option.{option_map_or};
ghost use Rattle.call_rules.specs.GlRules.{gl_holds, gl_rows_by};
ghost use Rattle.call_rules.specs.TextureRules.{is_outside_side};
ghost use Rattle.egl_calls.specs.Arguments.{signed};
ghost use Rattle.egl_calls.specs.Ranges.{is_client_wait};
ghost use Rattle.egl_model.specs.Arguments.{number};
ghost use Rattle.egl_model.specs.Buffers.{buffer_of};
ghost use Rattle.egl_model.specs.Framebuffers.{bound_framebuffer, is_complete};
ghost use Rattle.egl_model.specs.GlFacts.{gl_facts_of, has_read_alpha, stored_level};
ghost use Rattle.egl_model.specs.Names.{group_of, object_named};
ghost use Rattle.egl_model.specs.Sweep.{live_bytes};
ghost use Rattle.egl_model.specs.Textures.{image_bytes};
ghost use Rattle.texture_objects.specs.Forms.{base_code};
ghost use Rattle.driver_facts.specs.Tables.{state_in};

use crate::copies::copied_bytes;
use crate::names::name_of;
use crate::renderbuffers::renderbuffer_bytes;
use crate::tables::Tables;
use call_rules::{attaches, exceeds, gl_call_meets, has_alpha, is_outside};
use call_table::GlCondition;
use egl_calls::arguments::{number, signed};
use egl_calls::limits::LONGEST_TEXTURE_SIDE;
use egl_calls::places::{
    ATTACHED_NAME, ATTACHMENT_PNAME, BUFFER_OFFSET, BUFFER_PART_SIZE, BUFFER_SIZE,
    COPIED_PART_HEIGHT, COPIED_PART_WIDTH, IMAGE_FORMAT, IMAGE_HEIGHT, IMAGE_TYPE, IMAGE_WIDTH,
    INTERNAL_FORMAT, LEVEL, PART_HEIGHT, PART_WIDTH, X_OFFSET, Y_OFFSET,
};
use egl_calls::{Call, GlError};
use egl_names::codes::GL_FRAMEBUFFER_ATTACHMENT_OBJECT_NAME_OES;
use pixel_formats::{Format, bytes_of};
use refusal_rows::{Judge, Verdict};
use share_group::NameKind;
use texture_objects::{base_code, form_of};

/// The bytes of the level that a glTexImage2D gives; a longer side is another refusal's.
fn image_bytes(call: &Call) -> u64
    ensures { result ≡ image_bytes call.now }
{
    let form = form_of(signed(call, IMAGE_FORMAT), signed(call, IMAGE_TYPE));
    number(call, IMAGE_WIDTH).min(LONGEST_TEXTURE_SIDE)
        * number(call, IMAGE_HEIGHT).min(LONGEST_TEXTURE_SIDE)
        * bytes_of(form.unwrap_or(Format::Rgba8888)) as u64
}

/// The level that a call names, of the texture on which calls work: whether it has storage, its sides and the code of its base format, each 0 where it has none.
#[derive(Clone, Copy, Drop)]
struct LevelForm {
    is_stored: bool,
    width: u64,
    height: u64,
    base: u64,
}

/// A call of a thread, its current context, and the tables that are asked about it.
#[derive(Drop)]
struct GlAsked<'a> {
    tables: &'a Tables,
    thread: u32,
    context: u64,
    call: &'a Call,
    ghost made: { thread < tables.now.threads.made },
    ghost numbers: { is_client_wait call.now.kind ≡ false },
}

impl Tables {
    fn level_form(&self, context: u64, call: &Call) -> LevelForm
        ensures stored { result.is_stored ≡ is_some (stored_level (state_in self.now) context call.now) }
        ensures width { result.width ≡ option_map_or (λ v. v.width) (stored_level (state_in self.now) context call.now) 0 }
        ensures height { result.height ≡ option_map_or (λ v. v.height) (stored_level (state_in self.now) context call.now) 0 }
        ensures base { result.base ≡ option_map_or (λ v. base_code v.format) (stored_level (state_in self.now) context call.now) 0 }
    {
        let none = LevelForm {
            is_stored: false,
            width: 0,
            height: 0,
            base: 0,
        };
        let Some(storage) = self.level_storage(context, number(call, LEVEL)) else {
            return none;
        };
        match self.objects.storage(storage) {
            Some(storage) => LevelForm {
                is_stored: true,
                width: storage.width() as u64,
                height: storage.height() as u64,
                base: base_code(storage.format()),
            },
            None => none,
        }
    }

    /// What the rows of a call of OpenGL ES, or of a `readBuffer`, tell, in the order of the tests.
    pub(crate) fn gl_verdict<V: Verdict<GlError>>(
        &self,
        thread: u32,
        context: u64,
        call: &Call,
    ) -> V
        requires made { thread < self.now.threads.made }
        requires numbers { is_client_wait call.now.kind ≡ false }
        ensures { result ≡ V.told (gl_rows_by call.now.kind call.now (gl_facts_of (state_in self.now) thread context call.now)) }
    {
        let asked = GlAsked {
            tables: self,
            thread,
            context,
            call,
        };
        call_rules::gl_verdict(&asked, call)
    }
}

impl<'a> GlAsked<'a> {
    fn level(&self) -> LevelForm
        ensures stored { result.is_stored ≡ is_some (stored_level (state_in self.now.tables.now) self.now.context self.now.call.now) }
        ensures width { result.width ≡ option_map_or (λ v. v.width) (stored_level (state_in self.now.tables.now) self.now.context self.now.call.now) 0 }
        ensures height { result.height ≡ option_map_or (λ v. v.height) (stored_level (state_in self.now.tables.now) self.now.context self.now.call.now) 0 }
        ensures base { result.base ≡ option_map_or (λ v. base_code v.format) (stored_level (state_in self.now.tables.now) self.now.context self.now.call.now) 0 }
    {
        self.tables.level_form(self.context, self.call)
    }

    /// Whether a part of the level, whose sides stand at two places, doesn't lie within it.
    fn is_outside(&self, width: usize, height: usize) -> bool
        requires { (width < 8) × (height < 8) }
        ensures { result ≡ (is_outside_side (is_some (stored_level (state_in self.now.tables.now) self.now.context self.now.call.now)) (option_map_or (λ v. v.width) (stored_level (state_in self.now.tables.now) self.now.context self.now.call.now) 0) (signed self.now.call.now X_OFFSET) (signed self.now.call.now width) || is_outside_side (is_some (stored_level (state_in self.now.tables.now) self.now.context self.now.call.now)) (option_map_or (λ v. v.height) (stored_level (state_in self.now.tables.now) self.now.context self.now.call.now) 0) (signed self.now.call.now Y_OFFSET) (signed self.now.call.now height)) }
    {
        let level = self.level();
        is_outside(
            self.call,
            level.is_stored,
            level.width,
            level.height,
            width,
            height,
        )
    }

    /// Whether so many bytes more are too many.
    fn exceeds(&self, new: u64) -> bool
        ensures { result ≡ nat_lt (state_in self.now.tables.now).video (live_bytes (state_in self.now.tables.now).objects + new) }
    {
        exceeds(self.tables.video, self.tables.objects.live_bytes(), new)
    }

    /// Whether the part ends behind the end of the buffer that is bound.
    fn is_behind_end(&self) -> bool
        ensures { result ≡ (nat_lt (option_map_or (λ b. length b.contents) (buffer_of (state_in self.now.tables.now) self.now.context self.now.call.now) 0) (number self.now.call.now BUFFER_OFFSET + number self.now.call.now BUFFER_PART_SIZE) && is_some (buffer_of (state_in self.now.tables.now) self.now.context self.now.call.now)) }
    {
        exceeds(
            self.tables.buffer_size(self.context, self.call),
            number(self.call, BUFFER_OFFSET),
            number(self.call, BUFFER_PART_SIZE),
        ) && self.tables.is_buffer_bound(self.context, self.call)
    }

    /// Whether there are pixels to be read, and they have no alpha.
    fn lacks_alpha(&self) -> bool
        ensures { result ≡ (not (has_read_alpha (state_in self.now.tables.now) self.now.thread) && is_complete (bound_framebuffer (state_in self.now.tables.now) self.now.thread)) }
    {
        !self.tables.has_read_alpha(self.thread)
            && self.tables.has_complete_framebuffer(self.thread)
    }

    /// Whether the name that is to be attached has an object of the kind.
    fn is_named(&self, kind: NameKind) -> bool
        ensures { result ≡ is_some (object_named (state_in self.now.tables.now) (group_of (state_in self.now.tables.now) self.now.context) kind (number self.now.call.now ATTACHED_NAME)) }
    {
        let name = name_of(self.call, ATTACHED_NAME);
        self.tables.object_named(self.context, kind, name).is_some()
    }
}

impl<'a> Judge<GlCondition> for GlAsked<'a> {
    ghost meets = { λ a x. gl_holds x a.call.now (gl_facts_of (state_in a.tables.now) a.thread a.context a.call.now) };

    fn holds(&self, condition: GlCondition) -> bool {
        let GlAsked {
            tables,
            thread,
            context,
            call,
        } = *self;
        match condition {
            GlCondition::NoBufferBound => !tables.is_buffer_bound(context, call),
            GlCondition::NoRenderbufferBound => tables.target_renderbuffer(context).is_none(),
            GlCondition::NoFramebufferBound => tables.target_framebuffer(context).is_none(),
            GlCondition::NoImageVideo => self.exceeds(image_bytes(call)),
            GlCondition::NoCopiedVideo => self.exceeds(copied_bytes(call)),
            GlCondition::NoDataVideo => self.exceeds(number(call, BUFFER_SIZE)),
            GlCondition::NoStorageVideo => self.exceeds(renderbuffer_bytes(call)),
            GlCondition::NotComplete => !tables.has_complete_framebuffer(thread),
            GlCondition::NoStorage => !self.level().is_stored,
            GlCondition::OutsideLevel => self.is_outside(PART_WIDTH, PART_HEIGHT),
            GlCondition::OtherLevelFormat => {
                let level = self.level();
                number(call, IMAGE_FORMAT) != level.base && level.is_stored
            }
            GlCondition::NoInternalAlpha => {
                has_alpha(number(call, INTERNAL_FORMAT)) && self.lacks_alpha()
            }
            GlCondition::CopiedOutsideLevel => {
                self.is_outside(COPIED_PART_WIDTH, COPIED_PART_HEIGHT)
            }
            GlCondition::NoLevelAlpha => { has_alpha(self.level().base) && self.lacks_alpha() }
            GlCondition::PartBehindEnd => self.is_behind_end(),
            GlCondition::NoTextureNamed => attaches(call) && !self.is_named(NameKind::Texture),
            GlCondition::NoRenderbufferNamed => {
                attaches(call) && !self.is_named(NameKind::Renderbuffer)
            }
            GlCondition::NothingAttached => {
                number(call, ATTACHMENT_PNAME) == GL_FRAMEBUFFER_ATTACHMENT_OBJECT_NAME_OES
                    && tables.attachment_of(context, call).is_none()
                    && tables.target_framebuffer(context).is_some()
            }
            GlCondition::NoImage => tables.target_handle(context, call).is_none(),
            GlCondition::NotRenderable => {
                !tables.is_renderable(tables.target_image(context, call))
                    && tables.target_handle(context, call).is_some()
            }
            _ => gl_call_meets(condition, call),
        }
    }
}
