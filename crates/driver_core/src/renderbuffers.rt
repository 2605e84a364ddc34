//! Renderbuffers (OES_framebuffer_object).
ghost use Rattle.std.specs.Prelude.{◌≡◌, ◌≤◌, true, None, Some, IfOk, OnErr, OnOk};
ghost use Rattle.std.specs.Option.{option_map};
ghost use Rattle.egl_calls.specs.declared.kinds.Kind.TheVariants.{Gl as GlCall};
ghost use Rattle.egl_calls.specs.declared.kinds.GlKind.TheVariants.{RenderbufferStorage};
ghost use Rattle.framebuffer_objects.specs.InternalFormats.{is_internal};
ghost use Rattle.pixel_rows.specs.Images.{frozen};
ghost use Rattle.driver_objects.specs.Storages.{stored};
ghost use Rattle.egl_model.specs.Arguments.{number};
ghost use Rattle.egl_model.specs.GlCalls.{gl_refusal};
ghost use Rattle.egl_model.specs.Renderbuffers.{new_kind, new_pixels, stored_as, target_renderbuffer};
ghost use Rattle.egl_model.specs.Sweep.{sweep};
ghost use Rattle.driver_core.specs.Costs.{IsCheap};

use crate::machine::Driver;
use driver_objects::{Object, Storage};
use egl_calls::arguments::{number, signed};
use egl_calls::places::{STORED_FORMAT, STORED_HEIGHT, STORED_WIDTH};
use egl_calls::{Call, NoMemory};
use framebuffer_objects::Renderbuffer;
use pixel_rows::Image;
use ref_store::Steps;
use std::alloc::Global;
use std::sync::ledger::Ledger;

/// The storage of new pixels, frozen, where there are any.
fn stored_pixels(pixels: Option<Image>) -> Result<Option<Storage>, NoMemory>
    ensures { IfOk result (λ o. o ≡ option_map (λ i. stored (frozen i)) pixels) }
{
    let Some(image) = pixels else {
        return Ok(None);
    };
    match image.freeze() {
        Ok(image) => Ok(Some(Storage::new(image))),
        Err(_) => Err(NoMemory),
    }
}

/// The kind and the sides that a glRenderbufferStorageOES gives a renderbuffer, and the storage of its pixels: none for depth and stencil.
fn new_pixels(
    alloc: Global,
    kind: &mut Renderbuffer,
    call: &Call,
) -> Result<Option<Storage>, NoMemory>
    requires format { is_internal (number call.now 1) ≡ true }
    requires sides { (number call.now 2 ≤ 2048) × (number call.now 3 ≤ 2048) }
    ensures kind { OnOk result (kind.new ≡ new_kind call.now) }
    ensures pixels { IfOk result (λ o. o ≡ new_pixels call.now) }
{
    let width = number(call, STORED_WIDTH) as u32;
    let height = number(call, STORED_HEIGHT) as u32;
    let pixels = kind.storage(alloc, signed(call, STORED_FORMAT), width, height)?;
    stored_pixels(pixels)
}

impl Driver {
    /// A renderbuffer gets another kind and other sides, and no pixels.
    fn drop_storage<L: Ledger>(
        &mut self,
        renderbuffer: u64,
        kind: Renderbuffer,
        steps: &mut Steps<L>,
    )
        ensures state { self.new ≡ record self.old { state = sweep (stored_as kind None (Some renderbuffer) self.old.state) } }
        ensures steps { IsCheap self.old.state self.new.state steps.old steps.new }
    {
        self.tables.objects.set_kind(renderbuffer, kind);
        self.tables
            .objects
            .link_pixels(renderbuffer, 0, None, steps);
        self.tables.objects.left();
    }

    /// A renderbuffer gets another kind and other sides, and new pixels. Their storage is held until the renderbuffer refers to it.
    fn add_storage<L: Ledger>(
        &mut self,
        renderbuffer: u64,
        kind: Renderbuffer,
        storage: Storage,
        steps: &mut Steps<L>,
    ) -> Result<(), NoMemory>
        ensures state { OnOk result (self.new ≡ record self.old { state = sweep (stored_as kind (Some storage) (Some renderbuffer) self.old.state) }) }
        ensures steps { IsCheap self.old.state self.new.state steps.old steps.new }
        ensures err { OnErr result (self.new ≡ self.old) }
    {
        self.tables.objects.reserve(1)?;
        self.tables.objects.set_kind(renderbuffer, kind);
        let new = self.tables.objects.len();
        self.tables.objects.make_one(Object::Storage(storage));
        self.tables
            .objects
            .link_pixels(renderbuffer, 0, Some(new), steps);
        self.tables.objects.release(new, steps);
        self.tables.objects.left();
        Ok(())
    }

    /// The same of the renderbuffer on which calls work, with pixels or without.
    fn give_storage<L: Ledger>(
        &mut self,
        context: u64,
        kind: Renderbuffer,
        storage: Option<Storage>,
        steps: &mut Steps<L>,
    ) -> Result<(), NoMemory>
        ensures state { OnOk result (self.new ≡ record self.old { state = sweep (stored_as kind storage (target_renderbuffer self.old.state context) self.old.state) }) }
        ensures steps { IsCheap self.old.state self.new.state steps.old steps.new }
        ensures err { OnErr result (self.new ≡ self.old) }
    {
        let Some(renderbuffer) = self.tables.target_renderbuffer(context) else {
            self.settled();
            return Ok(());
        };
        match storage {
            Some(storage) => self.add_storage(renderbuffer, kind, storage, steps),
            None => {
                self.drop_storage(renderbuffer, kind, steps);
                Ok(())
            }
        }
    }

    /// Gives the renderbuffer on which calls work what a glRenderbufferStorageOES gives it.
    pub(crate) fn set_storage<L: Ledger>(
        &mut self,
        alloc: Global,
        thread: u32,
        context: u64,
        call: &Call,
        steps: &mut Steps<L>,
    ) -> Result<(), NoMemory>
        requires kind { call.now.kind ≡ GlCall RenderbufferStorage }
        requires allowed { gl_refusal self.old.state thread context RenderbufferStorage call.now ≡ None }
        ensures state { OnOk result (self.new ≡ record self.old { state = sweep (stored_as (new_kind call.now) (new_pixels call.now) (target_renderbuffer self.old.state context) self.old.state) }) }
        ensures steps { IsCheap self.old.state self.new.state steps.old steps.new }
        ensures err { OnErr result (self.new ≡ self.old) }
    {
        let _ = thread;
        let mut kind = Renderbuffer::new();
        let pixels = new_pixels(alloc, &mut kind, call)?;
        self.give_storage(context, kind, pixels, steps)
    }
}
