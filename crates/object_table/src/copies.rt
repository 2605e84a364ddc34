//! Pixels that are copied from one storage of a table to another (OpenGL ES 1.1, section 3.7.2).
ghost use Rattle.std.specs.Prelude.{◌≡◌, ◌≢◌, pos, ◌≤ℤ◌, Some, IfOk, IfSome, OnOk, OnErr};
ghost use Rattle.std.specs.Option.{option_copied, option_map};
ghost use Rattle.pixel_rows.specs.Rects.{IsInside};
ghost use Rattle.rect_pipeline.specs.Copying.{moved};
ghost use Rattle.driver_objects.specs.Storages.{copied_image, recopied_storage, stored, IsCopiedSide};
ghost use Rattle.egl_model.specs.Copies.{pixels_of};
ghost use Rattle.egl_model.specs.Objects.{as_storage, with_storage, change_storage, storage_in};
ghost use Rattle.egl_model.specs.Parts.{image_in};
ghost use Rattle.ref_store.specs.Kept.{at, shown_in, AllIn};
ghost use Rattle.object_table.specs.Changes.{ChangesOne};
ghost use Rattle.object_table.specs.Copies.{image_of, image_under};
ghost use Rattle.object_table.specs.Nodes.{object_in};

use crate::storages::storage_at;
use crate::stored::Stored;
use crate::table::ObjectTable;
use driver_objects::{Object, Storage};
use egl_calls::NoMemory;
use pixel_formats::Format;
use pixel_rows::{Image, Rect};
use ref_store::Store;
use std::alloc::Global;

/// The pixels of a storage that isn't taken out of the store.
fn image_at(store: &Store<Stored>, n: u64) -> Option<&Image>
    ensures { option_copied result ≡ image_of (shown_in (at store.now.nodes n)) }
{
    match store.get(n) {
        Some(stored) => match &stored.object {
            Object::Storage(storage) => storage.image(),
            _ => None,
        },
        None => None,
    }
}

fn share_at(store: &Store<Stored>, n: u64) -> Result<Option<Image>, NoMemory>
    requires { AllIn store.now.nodes }
    ensures { IfOk result (λ o. o ≡ image_in (object_in (at store.now.nodes n))) }
{
    match storage_at(store, n) {
        Some(storage) => storage.share_image(),
        None => Ok(None),
    }
}

fn copy_in(
    object: &mut Object,
    x: u32,
    y: u32,
    from: Option<&Image>,
    rect: Rect,
) -> Result<(), NoMemory>
    requires sides { (pos 0 ≤ℤ rect.w) × (pos 0 ≤ℤ rect.h) }
    requires inside { IfSome (as_storage (Some object.old)) (λ v. IsInside (moved rect x y) v.width v.height) }
    ensures ok { OnOk result (Some object.new ≡ with_storage (recopied_storage x y rect (option_copied from.entry)) (Some object.old)) }
    ensures err { OnErr result (object.new ≡ object.old) }
{
    match object {
        Object::Storage(storage) => storage.copy(x, y, from, rect),
        _ => Ok(()),
    }
}

fn copy_to(
    store: &mut Store<Stored>,
    into: u64,
    x: u32,
    y: u32,
    from: Option<&Image>,
    rect: Rect,
) -> Result<(), NoMemory>
    requires sides { (pos 0 ≤ℤ rect.w) × (pos 0 ≤ℤ rect.h) }
    requires inside { IfSome (as_storage (object_in (at store.old.nodes into))) (λ v. IsInside (moved rect x y) v.width v.height) }
    requires all_in { AllIn store.old.nodes }
    ensures ok { OnOk result (ChangesOne store.old into (with_storage (recopied_storage x y rect (option_copied from.entry))) store.new) }
    ensures err { OnErr result (ChangesOne store.old into (λ o. o) store.new) }
{
    if store.get(into).is_none() {
        return Ok(());
    }
    let mut stored = store.take_node(into);
    match copy_in(&mut stored.object, x, y, from, rect) {
        Ok(()) => {
            store.put_node(into, stored);
            Ok(())
        }
        Err(error) => {
            store.put_node(into, stored);
            Err(error)
        }
    }
}

/// Copies within one storage, from a share of its pixels.
fn copy_within(
    store: &mut Store<Stored>,
    n: u64,
    x: u32,
    y: u32,
    rect: Rect,
) -> Result<(), NoMemory>
    requires sides { (pos 0 ≤ℤ rect.w) × (pos 0 ≤ℤ rect.h) }
    requires inside { IfSome (as_storage (object_in (at store.old.nodes n))) (λ v. IsInside (moved rect x y) v.width v.height) }
    requires all_in { AllIn store.old.nodes }
    ensures ok { OnOk result (ChangesOne store.old n (with_storage (recopied_storage x y rect (image_in (object_in (at store.old.nodes n))))) store.new) }
    ensures err { OnErr result (ChangesOne store.old n (λ o. o) store.new) }
{
    let image = share_at(store, n)?;
    copy_to(store, n, x, y, image.as_ref(), rect)
}

/// Copies from one storage to another, where it stands.
fn copy_between(
    store: &mut Store<Stored>,
    from: u64,
    into: u64,
    x: u32,
    y: u32,
    rect: Rect,
) -> Result<(), NoMemory>
    requires apart { from ≢ into }
    requires sides { (pos 0 ≤ℤ rect.w) × (pos 0 ≤ℤ rect.h) }
    requires inside { IfSome (as_storage (object_in (at store.old.nodes into))) (λ v. IsInside (moved rect x y) v.width v.height) }
    requires all_in { AllIn store.old.nodes }
    ensures ok { OnOk result (ChangesOne store.old into (with_storage (recopied_storage x y rect (image_in (object_in (at store.old.nodes from))))) store.new) }
    ensures err { OnErr result (ChangesOne store.old into (λ o. o) store.new) }
{
    if store.get(into).is_none() {
        return Ok(());
    }
    let mut stored = store.take_node(into);
    match copy_in(&mut stored.object, x, y, image_at(store, from), rect) {
        Ok(()) => {
            store.put_node(into, stored);
            Ok(())
        }
        Err(error) => {
            store.put_node(into, stored);
            Err(error)
        }
    }
}

fn copy_at(
    store: &mut Store<Stored>,
    from: Option<u64>,
    into: u64,
    x: u32,
    y: u32,
    rect: Rect,
) -> Result<(), NoMemory>
    requires sides { (pos 0 ≤ℤ rect.w) × (pos 0 ≤ℤ rect.h) }
    requires inside { IfSome (as_storage (object_in (at store.old.nodes into))) (λ v. IsInside (moved rect x y) v.width v.height) }
    requires all_in { AllIn store.old.nodes }
    ensures ok { OnOk result (ChangesOne store.old into (with_storage (recopied_storage x y rect (image_under store.old.nodes from))) store.new) }
    ensures err { OnErr result (ChangesOne store.old into (λ o. o) store.new) }
{
    let Some(from) = from else {
        return copy_to(store, into, x, y, None, rect);
    };
    if from == into {
        copy_within(store, into, x, y, rect)
    } else {
        copy_between(store, from, into, x, y, rect)
    }
}

impl ObjectTable {
    /// The storage of the pixels of a rectangle of another in a format, frozen (OpenGL ES 1.1, section 3.7.2). There is none where the pixels are out of the driver.
    pub fn copied(
        &self,
        alloc: Global,
        from: u64,
        format: Format,
        rect: Rect,
    ) -> Result<Option<Storage>, NoMemory>
        requires wide { IsCopiedSide rect.w }
        requires high { IsCopiedSide rect.h }
        ensures { IfOk result (λ o. o ≡ option_map (λ i. stored (copied_image format i rect)) (pixels_of self.now.objects (Some from))) }
    {
        match self.storage(from) {
            Some(storage) => storage.copied(alloc, format, rect),
            None => Ok(None),
        }
    }

    /// Copies a rectangle of the pixels of a storage to a place of another, or of itself (section 3.7.2); of none nothing is copied. Where memory runs out nothing has changed.
    pub fn copy(
        &mut self,
        from: Option<u64>,
        into: u64,
        x: u32,
        y: u32,
        rect: Rect,
    ) -> Result<(), NoMemory>
        requires sides { (pos 0 ≤ℤ rect.w) × (pos 0 ≤ℤ rect.h) }
        requires inside { IfSome (storage_in self.old.objects into) (λ v. IsInside (moved rect x y) v.width v.height) }
        ensures ok { OnOk result (self.new ≡ record self.old { objects = change_storage (recopied_storage x y rect (pixels_of self.old.objects from)) into self.old.objects }) }
        ensures err { OnErr result (self.new ≡ self.old) }
    {
        copy_at(&mut self.store, from, into, x, y, rect)
    }
}
