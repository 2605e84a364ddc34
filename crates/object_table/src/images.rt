//! EGL images, and the pixels of which they are made (EGL 1.5, section 3.9; OES_EGL_image).
ghost use Rattle.std.specs.Prelude.{◌≡◌, ◌+◌, ◌<◌, ◌≤◌, Some, None, not, ◌&&◌, IsSome, is_some, slice_index_or};
ghost use Rattle.std.specs.List.{list_any};
ghost use Rattle.egl_model.specs.Images.{above_base, is_incomplete_in, is_source_in, levels_dropped};
ghost use Rattle.egl_model.specs.Links.{rank_in};
ghost use Rattle.egl_model.specs.Objects.{as_egl_image, change_texture, egl_image_in};
ghost use Rattle.egl_model.specs.Textures.{change_pixels, pixels_at, with_level};
ghost use Rattle.texture_objects.specs.Levels.{is_complete};
ghost use Rattle.ref_store.specs.Kept.{at, AllIn};
ghost use Rattle.object_table.specs.Links.{IsLeft};
ghost use Rattle.object_table.specs.Nodes.{object_in};
ghost use Rattle.object_table.specs.Samples.{stored_in};
ghost use Rattle.object_table.specs.Sources.{emptied, has_pixels_by, is_incomplete_by, is_source_by};
ghost use Rattle.object_table.specs.Tables.{weight_of};

use crate::reads::object_at;
use crate::samples::shapes_at;
use crate::storages::storage_at;
use crate::stored::Stored;
use crate::table::ObjectTable;
use crate::textures::level_in;
use driver_objects::{BackedTexture, Object};
use egl_image::EglImage;
use ref_store::{Steps, Store};
use std::sync::ledger::Ledger;
use texture_objects::{LEVELS, Shape};

/// The last level of a texture.
const LAST_LEVEL: u64 = 10;

fn pixels_at(store: &Store<Stored>, n: u64, level: u64) -> Option<u64>
    requires { AllIn store.now.nodes }
    ensures { result ≡ pixels_at level (object_in (at store.now.nodes n)) }
{
    match object_at(store, n) {
        Some(Object::Texture(texture)) => level_in(&texture.levels, level),
        Some(Object::Renderbuffer(renderbuffer)) => {
            if level == 0 {
                renderbuffer.storage
            } else {
                None
            }
        }
        _ => None,
    }
}

fn image_at(store: &Store<Stored>, n: u64) -> Option<EglImage>
    requires { AllIn store.now.nodes }
    ensures { result ≡ as_egl_image (object_in (at store.now.nodes n)) }
{
    match object_at(store, n) {
        Some(Object::Image(image)) => Some(*image),
        _ => None,
    }
}

/// Whether some level has a shape.
fn any_shape(shapes: &[Option<Shape>]) -> bool
    ensures { result ≡ list_any is_some shapes.now }
{
    shapes.iter().any(|shape| shape.is_some())
}

/// Whether there is a storage with sides above 0.
fn has_pixels_at(store: &Store<Stored>, storage: Option<u64>) -> bool
    requires { AllIn store.now.nodes }
    ensures { result ≡ has_pixels_by (stored_in store.now.nodes) storage }
{
    let Some(storage) = storage else {
        return false;
    };
    match storage_at(store, storage) {
        Some(storage) => storage.width() > 0 && storage.height() > 0,
        None => false,
    }
}

fn is_source_at(store: &Store<Stored>, n: u64) -> bool
    requires { AllIn store.now.nodes }
    ensures { result ≡ is_source_by (stored_in store.now.nodes) (object_in (at store.now.nodes n)) }
{
    match object_at(store, n) {
        Some(Object::Texture(texture)) => any_shape(&shapes_at(store, &texture.levels)),
        Some(Object::Renderbuffer(renderbuffer)) => has_pixels_at(store, renderbuffer.storage),
        _ => false,
    }
}

/// Whether a texture with these shapes at its levels has one above level 0, and isn't complete.
fn is_partial(texture: &BackedTexture, shapes: &[Option<Shape>; LEVELS]) -> bool
    ensures { result ≡ (list_any is_some (above_base shapes.now) && not (is_complete texture.now.texture shapes.now)) }
{
    any_shape(&shapes[1..]) && !texture.texture.is_complete(shapes)
}

fn is_incomplete_at(store: &Store<Stored>, n: u64) -> bool
    requires { AllIn store.now.nodes }
    ensures { result ≡ is_incomplete_by (stored_in store.now.nodes) (object_in (at store.now.nodes n)) }
{
    match object_at(store, n) {
        Some(Object::Texture(texture)) => {
            is_partial(texture, &shapes_at(store, &texture.levels))
        }
        _ => false,
    }
}

impl ObjectTable {
    /// The storage of a level of a texture, or with level 0 that of a renderbuffer, where it has one.
    pub fn pixels(&self, n: u64, level: u64) -> Option<u64>
        ensures { result ≡ pixels_at level (slice_index_or self.now.objects n None) }
    {
        pixels_at(&self.store, n, level)
    }

    /// The EGL image of a number.
    pub fn image(&self, n: u64) -> Option<EglImage>
        ensures { result ≡ egl_image_in self.now.objects n }
    {
        image_at(&self.store, n)
    }

    /// Whether there is a texture with pixels at some level, or a renderbuffer with any, of this number.
    pub fn is_source(&self, n: u64) -> bool
        ensures { result ≡ is_source_in self.now.objects (slice_index_or self.now.objects n None) }
    {
        is_source_at(&self.store, n)
    }

    /// Whether there is a texture of this number that has a level above 0, and isn't complete.
    pub fn is_incomplete(&self, n: u64) -> bool
        ensures { result ≡ is_incomplete_in self.now.objects (slice_index_or self.now.objects n None) }
    {
        is_incomplete_at(&self.store, n)
    }

    // A level of a texture loses its storage.
    fn drop_level<L: Ledger>(&mut self, n: u64, level: u64, steps: &mut Steps<L>)
        requires { level < 11 }
        ensures objects { IsLeft (change_texture (with_level level None) n self.old.objects) self.new.objects }
        ensures holds { self.new.holds ≡ self.old.holds }
        ensures steps { steps.new + weight_of self.new.objects ≤ steps.old + weight_of self.old.objects }
    {
        if self.level(n, level).is_some() {
            self.has_levels(n);
            let _ = self.link(n, level, None, steps);
        }
    }

    // All levels of a texture above 0 lose theirs.
    fn drop_levels<L: Ledger>(&mut self, n: u64, steps: &mut Steps<L>)
        ensures objects { IsLeft (change_texture (emptied 10) n self.old.objects) self.new.objects }
        ensures holds { self.new.holds ≡ self.old.holds }
        ensures steps { steps.new + weight_of self.new.objects ≤ steps.old + weight_of self.old.objects }
    {
        'each: for k in 0..LAST_LEVEL {
            self.drop_level(n, k + 1, steps);
        }
    }

    /// Gives a texture the pixels of a storage at level 0 and none at the others, or gives them to a renderbuffer. What nothing reaches any more from what is held is gone then. It takes no memory.
    pub fn link_image<L: Ledger>(&mut self, n: u64, storage: u64, steps: &mut Steps<L>)
        requires { IsSome (slice_index_or self.old.objects storage None) × (rank_in (slice_index_or self.old.objects storage None) < 1) }
        ensures objects { IsLeft (change_pixels 0 (Some storage) n (levels_dropped 10 n self.old.objects)) self.new.objects }
        ensures holds { self.new.holds ≡ self.old.holds }
        ensures steps { steps.new + weight_of self.new.objects ≤ steps.old + 2 + weight_of self.old.objects }
    {
        let has_levels = self.is_texture(n);
        self.link_pixels(n, 0, Some(storage), steps);
        if has_levels {
            self.drop_levels(n, steps);
        }
    }
}
