//! What refuses a call of EGL, asked of the tables when its row is tried.
ghost use Rattle.std.specs.Prelude.{◌≡◌, ◌+◌, ◌<◌, ◌||◌, ◌&&◌, int_lt, is_some, nat_lt, not, pos};
ghost use Rattle.std.proofs.Props.{props};
ghost use Rattle.call_rules.specs.EglRules.{egl_holds, egl_rows_by, is_later_version, is_long, is_supported_version};
ghost use Rattle.egl_calls.specs.Arguments.{signed};
ghost use Rattle.egl_model.specs.Arguments.{listed};
ghost use Rattle.egl_model.specs.Facts.{facts_of, is_compatible, is_current_here, is_surface_elsewhere};
ghost use Rattle.egl_model.specs.Handles.{handle_at};
ghost use Rattle.egl_model.specs.Images.{source_storage};
ghost use Rattle.egl_model.specs.Surfaces.{asked_height, asked_width, asks_for_largest, side_of, surface_bytes};
ghost use Rattle.egl_model.specs.Sweep.{live_bytes};
ghost use Rattle.egl_model.specs.Windows.{named_spec};
ghost use Rattle.egl_names.specs.declared.codes.TheConstants.{EGL_CONTEXT_CLIENT_VERSION, EGL_CONTEXT_MINOR_VERSION};
ghost use Rattle.config_match.specs.Compatible.{are_compatible};
ghost use Rattle.egl_model.specs.MakeCurrent.{config_of_context, config_of_surface, context_handle, draw_handle, read_handle};
ghost use Rattle.driver_facts.specs.Found.{IsFound, image_source};
ghost use Rattle.driver_facts.specs.Tables.{KnowsRoots, state_in};

use crate::attributes::{ContextAttributes, PbufferAttributes};
use crate::configs::{is_config_attribute, is_list_allowed};
use crate::contexts::is_context_attribute;
use crate::displays::is_display;
use crate::egl_found::EglFound;
use crate::surfaces::{is_surface_attribute, side_of, surface_bytes};
use crate::syncs::is_sync_attribute;
use crate::tables::Tables;
use crate::windows::is_window_config;
use attrib_lists::Allowed;
use call_rules::{
    egl_call_meets, egl_verdict, exceeds, is_later_version, is_long, is_supported_version,
};
use call_table::EglCondition;
use config_match::Configs;
use display_table::{Handle, HandleKind};
use egl_calls::arguments::{is_zero, number, signed};
use egl_calls::places::{ATTRIBUTE, CONFIG, CONTEXT, DISPLAY, DRAW, NAMED, READ};
use egl_calls::{Call, EglError};
use refusal_rows::{Judge, Verdict};

/// A call of a thread, and the tables that are asked about it.
#[derive(Drop)]
struct EglAsked<'a> {
    tables: &'a Tables,
    thread: u32,
    call: &'a Call,
    found: &'a EglFound,
    ghost is_found: { IsFound (state_in tables.now) call.now found.now } by { Prim.hlevel props },
    ghost made: { thread < tables.now.threads.made },
    ghost roots: { KnowsRoots tables.now },
}

/// The bytes of the pixels of a new pbuffer.
fn pbuffer_bytes(call: &Call) -> u64
    ensures { result ≡ surface_bytes (signed call.now CONFIG) (side_of (asked_width call.now)) (side_of (asked_height call.now)) }
{
    let asked = PbufferAttributes::read(call);
    surface_bytes(
        signed(call, CONFIG),
        side_of(asked.width),
        side_of(asked.height),
    )
}

/// Whether a side of a pbuffer is negative.
fn has_negative_side(call: &Call) -> bool
    ensures { result ≡ (int_lt (asked_width call.now) (pos 0) || int_lt (asked_height call.now) (pos 0)) }
{
    let asked = PbufferAttributes::read(call);
    asked.width < 0 || asked.height < 0
}

/// Whether a side of a pbuffer is too long, and isn't to be cut.
fn is_too_long(call: &Call) -> bool
    ensures { result ≡ ((is_long (asked_width call.now) || is_long (asked_height call.now)) && not (asks_for_largest call.now)) }
{
    let asked = PbufferAttributes::read(call);
    (is_long(asked.width) || is_long(asked.height)) && !asked.largest
}

/// Whether a context is to have a version that there is, and that no config supports.
fn asks_for_later(call: &Call) -> bool
    ensures { result ≡ is_later_version (listed call.now EGL_CONTEXT_CLIENT_VERSION (pos 1)) (listed call.now EGL_CONTEXT_MINOR_VERSION (pos 0)) }
{
    let asked = ContextAttributes::read(call);
    is_later_version(asked.version, asked.minor_version)
}

/// Whether it is to have one that configs support.
fn asks_for_supported(call: &Call) -> bool
    ensures { result ≡ is_supported_version (listed call.now EGL_CONTEXT_CLIENT_VERSION (pos 1)) (listed call.now EGL_CONTEXT_MINOR_VERSION (pos 0)) }
{
    let asked = ContextAttributes::read(call);
    is_supported_version(asked.version, asked.minor_version)
}

impl Tables {
    fn is_current_here(&self, thread: u32, call: &Call) -> bool
        requires { thread < self.now.threads.made }
        ensures { result ≡ is_current_here (state_in self.now) thread call.now }
    {
        let context = self.current_context(thread);
        context.is_some() && u64::from(self.display_at(context)) == number(call, DISPLAY)
    }

    /// What the rows of a call of EGL tell, in the order of the tests.
    pub(crate) fn egl_verdict<V: Verdict<EglError>>(
        &self,
        thread: u32,
        call: &Call,
        found: &EglFound,
    ) -> V
        requires made { thread < self.now.threads.made }
        requires roots { KnowsRoots self.now }
        requires found { IsFound (state_in self.now) call.now found.now }
        ensures { result ≡ V.told (egl_rows_by call.now.kind call.now (facts_of (state_in self.now) thread call.now)) }
    {
        let asked = EglAsked {
            tables: self,
            thread,
            call,
            found,
        };
        egl_verdict(&asked, call)
    }
}

impl<'a> EglAsked<'a> {
    /// Whether the handle that the call names after its display is valid there and of a kind.
    fn is_valid(&self, kind: HandleKind) -> bool
        ensures { result ≡ is_some (handle_at (state_in self.now.tables.now) self.now.call.now NAMED kind) }
    {
        self.tables
            .named_handle(self.call, kind, self.found)
            .is_some()
    }

    /// Whether so many bytes more are too many.
    fn exceeds(&self, new: u64) -> bool
        ensures { result ≡ nat_lt (state_in self.now.tables.now).video (live_bytes (state_in self.now.tables.now).objects + new) }
    {
        exceeds(self.tables.video, self.tables.objects.live_bytes(), new)
    }

    /// The bytes of the pixels of a new surface of the window that the call names.
    fn window_bytes(&self) -> u64
        ensures { result ≡ surface_bytes (signed self.now.call.now CONFIG) (named_spec (state_in self.now.tables.now) self.now.call.now).w (named_spec (state_in self.now.tables.now) self.now.call.now).h }
    {
        let spec = self.tables.named_spec(self.call);
        surface_bytes(signed(self.call, CONFIG), spec.w, spec.h)
    }

    fn draw_handle(&self) -> Option<Handle>
        ensures { result ≡ draw_handle (state_in self.now.tables.now) self.now.call.now }
    {
        self.tables.found_draw(self.call, self.found)
    }

    fn read_handle(&self) -> Option<Handle>
        ensures { result ≡ read_handle (state_in self.now.tables.now) self.now.call.now }
    {
        self.tables.found_read(self.call, self.found)
    }

    fn context_handle(&self) -> Option<Handle>
        ensures { result ≡ context_handle (state_in self.now.tables.now) self.now.call.now }
    {
        self.tables.found_context(self.call, self.found)
    }

    /// The object of which there is to be an image.
    fn image_source(&self) -> Option<u64>
        ensures { result ≡ image_source (state_in self.now.tables.now) self.now.call.now }
    {
        self.tables.found_source(self.call, self.found)
    }

    /// The config of a surface is compatible with the context's.
    fn fits_context(&self, surface: Option<Handle>) -> bool
        ensures { result ≡ are_compatible (config_of_context (state_in self.now.tables.now) (context_handle (state_in self.now.tables.now) self.now.call.now)) (config_of_surface (state_in self.now.tables.now) surface) }
    {
        let config = self.tables.config_of_context(self.context_handle());
        Configs::standard().are_compatible(config, self.tables.config_of_surface(surface))
    }

    /// Whether the context's config is compatible with those of both surfaces, where all three are there.
    fn is_compatible(&self) -> bool
        ensures { result ≡ is_compatible (state_in self.now.tables.now) self.now.call.now }
    {
        let context = self.context_handle();
        let draw = self.draw_handle();
        let read = self.read_handle();
        !(context.is_some() && draw.is_some() && read.is_some())
            || self.fits_context(draw) && self.fits_context(read)
    }

    fn is_surface_elsewhere(&self) -> bool
        ensures { result ≡ is_surface_elsewhere (state_in self.now.tables.now) self.now.thread self.now.call.now }
    {
        let EglAsked { tables, thread, .. } = *self;
        tables.is_surface_taken(thread, self.draw_handle())
            || tables.is_surface_taken(thread, self.read_handle())
    }

    /// The pixels of a new image.
    fn pixels(&self) -> Option<u64>
        ensures { result ≡ source_storage (state_in self.now.tables.now) self.now.call.now }
    {
        self.tables.level_of_source(self.image_source(), self.call)
    }
}

impl<'a> Judge<EglCondition> for EglAsked<'a> {
    ghost meets = { λ a x. egl_holds x a.call.now (facts_of (state_in a.tables.now) a.thread a.call.now) };

    fn holds(&self, condition: EglCondition) -> bool {
        let EglAsked {
            tables,
            thread,
            call,
            ..
        } = *self;
        match condition {
            EglCondition::NoDisplay => !is_display(number(call, DISPLAY)),
            EglCondition::NotInitialized => !tables.displays.is_init(signed(call, DISPLAY)),
            EglCondition::NoConfig => !Configs::standard().is_config(signed(call, CONFIG)),
            EglCondition::NoSurface => !self.is_valid(HandleKind::Surface),
            EglCondition::NoContext => !self.is_valid(HandleKind::Context),
            EglCondition::NoSync => !self.is_valid(HandleKind::Sync),
            EglCondition::NoImage => !self.is_valid(HandleKind::Image),
            EglCondition::NoConfigAttribute => !is_config_attribute(signed(call, ATTRIBUTE)),
            EglCondition::NoSurfaceAttribute => !is_surface_attribute(signed(call, ATTRIBUTE)),
            EglCondition::NoContextAttribute => !is_context_attribute(number(call, ATTRIBUTE)),
            EglCondition::NoSyncAttribute => !is_sync_attribute(number(call, ATTRIBUTE)),
            EglCondition::WrongConfigList => !is_list_allowed(Allowed::Config, call),
            EglCondition::WrongWindowList => !is_list_allowed(Allowed::Window, call),
            EglCondition::WrongPbufferList => !is_list_allowed(Allowed::Pbuffer, call),
            EglCondition::WrongContextList => !is_list_allowed(Allowed::Context, call),
            EglCondition::WrongImageList => !is_list_allowed(Allowed::Image, call),
            EglCondition::NoWindowVideo => self.exceeds(self.window_bytes()),
            EglCondition::NoPbufferVideo => self.exceeds(pbuffer_bytes(call)),
            EglCondition::NoHandle => tables.displays.are_used_up(),
            EglCondition::NoWindowBit => {
                let config = signed(call, CONFIG);
                !is_window_config(config) && Configs::standard().is_config(config)
            }
            EglCondition::NoWindow => tables.named_place(call).is_none(),
            EglCondition::WindowUsed => tables.is_used_at(tables.named_place(call)),
            EglCondition::NegativeSide => has_negative_side(call),
            EglCondition::LongSide => is_too_long(call),
            EglCondition::NoShare => !tables.is_share(call),
            EglCondition::ShareElsewhere => !tables.is_share_here(call) && tables.is_share(call),
            EglCondition::LaterVersion => asks_for_later(call),
            EglCondition::NoVersion => !asks_for_supported(call) && !asks_for_later(call),
            EglCondition::WrongSurface => {
                !is_zero(call, DRAW) && self.draw_handle().is_none()
                    || !is_zero(call, READ) && self.read_handle().is_none()
            }
            EglCondition::WrongContext => {
                !is_zero(call, CONTEXT) && self.context_handle().is_none()
            }
            EglCondition::NotCompatible => !is_zero(call, DRAW) && !self.is_compatible(),
            EglCondition::ContextElsewhere => {
                tables.is_context_taken(thread, self.context_handle())
            }
            EglCondition::SurfaceElsewhere => self.is_surface_elsewhere(),
            EglCondition::NoContextHere => !tables.is_current_here(thread, call),
            EglCondition::NotCurrent => tables.current_context(thread).is_none(),
            EglCondition::NoPixels => {
                !tables.is_source(self.image_source()) && self.is_valid(HandleKind::Context)
            }
            EglCondition::NotComplete => tables.is_incomplete(self.image_source()),
            EglCondition::NoLevel => {
                self.pixels().is_none() && tables.is_source(self.image_source())
            }
            EglCondition::Sibling => tables.is_sibling(self.pixels()),
            EglCondition::NotDrawnTo => {
                let surface = tables.handle_at(call, NAMED, HandleKind::Surface);
                !tables.draws_to(thread, surface) && surface.is_some()
            }
            _ => egl_call_meets(condition, call),
        }
    }
}
