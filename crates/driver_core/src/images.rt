//! EGL images (EGL 1.5, section 3.9; OES_EGL_image).
ghost use Rattle.std.specs.Prelude.{◌≡◌, ◌<◌, true, false, pos, None, Some, IfOk, OnErr, OnOk, IsSome};
ghost use Rattle.egl_calls.specs.Ranges.{IsNumber, is_client_wait, unsigned};
ghost use Rattle.egl_calls.specs.declared.kinds.Kind.TheVariants.{Gl as GlCall};
ghost use Rattle.egl_calls.specs.declared.kinds.GlKind.TheVariants.{ImageTargetRenderbufferStorage};
ghost use Rattle.egl_model.specs.Arguments.{number};
ghost use Rattle.egl_model.specs.Displays.{is_display};
ghost use Rattle.egl_model.specs.GlCalls.{gl_refusal};
ghost use Rattle.egl_model.specs.Images.{add_image, created_image, image_kind, renderbuffer_of_image, source_storage, target_image, texture_of_image};
ghost use Rattle.egl_model.specs.Objects.{storage_in};
ghost use Rattle.egl_model.specs.Renderbuffers.{target_renderbuffer};
ghost use Rattle.egl_model.specs.Sweep.{sweep};
ghost use Rattle.egl_model.specs.Textures.{target_texture};
ghost use Rattle.driver_core.specs.Costs.{IsCheap};
ghost use Rattle.driver_facts.specs.Groups.{IsPixels};
ghost use Rattle.driver_facts.specs.Found.{IsFound};

use crate::handles::new_handle;
use crate::machine::Driver;
use display_table::HandleKind;
use driver_facts::EglFound;
use driver_objects::Object;
use egl_calls::arguments::{number, signed};
use egl_calls::places::DISPLAY;
use egl_calls::{Call, NoMemory, unsigned};
use egl_image::EglImage;
use framebuffer_objects::Renderbuffer;
use ref_store::Steps;
use std::sync::ledger::Ledger;

impl Driver {
    fn add_image(&mut self, display: i64, storage: u64) -> Result<i64, NoMemory>
        requires display { is_display (unsigned display) ≡ true }
        requires numbers { self.old.state.next_handle < 2147483648 }
        requires storage { IsSome (storage_in self.old.state.objects storage) }
        ensures value { IfOk result (λ v. v ≡ pos self.old.state.next_handle) }
        ensures number { IfOk result IsNumber }
        ensures state { OnOk result (self.new ≡ record self.old { state = add_image self.old.state (unsigned display) storage }) }
        ensures err { OnErr result (self.new ≡ self.old) }
    {
        self.tables.objects.reserve(1)?;
        let object = self.tables.objects.len();
        let handle = new_handle(
            &mut self.tables.displays,
            display,
            HandleKind::Image,
            object,
        )?;
        self.tables
            .objects
            .make_over(Object::Image(EglImage { storage }));
        Ok(handle)
    }

    /// Makes an image of the level or the renderbuffer that a call names, and gives its handle.
    pub(crate) fn create_image(&mut self, call: &Call, found: &EglFound) -> Result<i64, NoMemory>
        requires found { IsFound self.old.state call.now found.now }
        requires kind { is_client_wait call.now.kind ≡ false }
        requires display { is_display (number call.now 0) ≡ true }
        requires source { IsSome (source_storage self.old.state call.now) }
        requires numbers { self.old.state.next_handle < 2147483648 }
        ensures value { IfOk result (λ v. v ≡ pos self.old.state.next_handle) }
        ensures number { IfOk result IsNumber }
        ensures state { OnOk result (self.new ≡ record self.old { state = created_image self.old.state call.now }) }
        ensures err { OnErr result (self.new ≡ self.old) }
    {
        let source = self.tables.found_source(call, found);
        match self.tables.level_of_source(source, call) {
            Some(storage) => self.add_image(signed(call, DISPLAY), storage),
            None => unreachable!(),
        }
    }

    /// Level 0 of a texture gets the pixels of an image, and the other levels lose theirs.
    fn share_with_texture<L: Ledger>(&mut self, texture: u64, image: EglImage, steps: &mut Steps<L>)
        requires { IsPixels self.old.state.objects image.storage }
        ensures state { self.new ≡ record self.old { state = sweep (texture_of_image (Some image) (Some texture) self.old.state) } }
        ensures steps { IsCheap self.old.state self.new.state steps.old steps.new }
    {
        self.tables
            .objects
            .link_image(texture, image.storage, steps);
        self.tables.objects.left();
    }

    /// Gives the texture on which calls work the pixels of the image that a call names. It takes no memory.
    pub(crate) fn target_texture_image<L: Ledger>(
        &mut self,
        context: u64,
        call: &Call,
        steps: &mut Steps<L>,
    )
        ensures state { self.new ≡ record self.old { state = sweep (texture_of_image (target_image self.old.state context call.now) (target_texture self.old.state context) self.old.state) } }
        ensures steps { IsCheap self.old.state self.new.state steps.old steps.new }
    {
        let Some(image) = self.tables.target_image(context, call) else {
            self.settled();
            return;
        };
        match self.tables.target_texture(context) {
            Some(texture) => self.share_with_texture(texture, image, steps),
            None => self.settled(),
        }
    }

    /// A colour with the sides of a storage.
    fn image_kind(&self, storage: u64) -> Renderbuffer
        ensures { result ≡ image_kind (storage_in self.now.state.objects storage) }
    {
        let mut kind = Renderbuffer::new();
        if let Some(storage) = self.tables.objects.storage(storage) {
            kind.target(storage.width(), storage.height());
        }
        kind
    }

    /// A renderbuffer gets the pixels of an image.
    fn share_with_renderbuffer<L: Ledger>(
        &mut self,
        renderbuffer: u64,
        image: EglImage,
        steps: &mut Steps<L>,
    )
        requires { IsSome (storage_in self.old.state.objects image.storage) }
        ensures state { self.new ≡ record self.old { state = sweep (renderbuffer_of_image (Some image) (Some renderbuffer) self.old.state) } }
        ensures steps { IsCheap self.old.state self.new.state steps.old steps.new }
    {
        let kind = self.image_kind(image.storage);
        self.tables.objects.set_kind(renderbuffer, kind);
        self.tables
            .objects
            .link_pixels(renderbuffer, 0, Some(image.storage), steps);
        self.tables.objects.left();
    }

    /// Gives the renderbuffer on which calls work the pixels of the image that a call names. It takes no memory.
    pub(crate) fn target_renderbuffer_image<L: Ledger>(
        &mut self,
        thread: u32,
        context: u64,
        call: &Call,
        steps: &mut Steps<L>,
    )
        requires kind { call.now.kind ≡ GlCall ImageTargetRenderbufferStorage }
        requires allowed { gl_refusal self.old.state thread context ImageTargetRenderbufferStorage call.now ≡ None }
        ensures state { self.new ≡ record self.old { state = sweep (renderbuffer_of_image (target_image self.old.state context call.now) (target_renderbuffer self.old.state context) self.old.state) } }
        ensures steps { IsCheap self.old.state self.new.state steps.old steps.new }
    {
        let _ = thread;
        let Some(image) = self.tables.target_image(context, call) else {
            self.settled();
            return;
        };
        match self.tables.target_renderbuffer(context) {
            Some(renderbuffer) => self.share_with_renderbuffer(renderbuffer, image, steps),
            None => self.settled(),
        }
    }
}
