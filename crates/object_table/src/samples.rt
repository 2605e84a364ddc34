//! What a draw samples of a texture (OES_draw_texture).
ghost use Rattle.std.specs.Prelude.{◌≡◌, ◌&&◌, pos, ◌<ℤ◌, nat_lt, option_copied, IfOk, IfSome};
ghost use Rattle.std.specs.Option.{option_and_then, option_map};
ghost use Rattle.rect_pipeline.specs.Samplers.{HasSides, sampled};
ghost use Rattle.egl_model.specs.Draws.{sampler_in, sampler_over};
ghost use Rattle.egl_model.specs.Objects.{as_texture, texture_in};
ghost use Rattle.ref_store.specs.Kept.{at, AllIn};
ghost use Rattle.object_table.specs.Nodes.{object_in};
ghost use Rattle.object_table.specs.Samples.{sampler_from, sampler_with, shape_by, shapes_by, stored_in};

use crate::reads::object_at;
use crate::storages::storage_at;
use crate::stored::Stored;
use crate::table::ObjectTable;
use crate::textures::level_in;
use driver_objects::{BackedTexture, Object, Storage};
use egl_calls::NoMemory;
use pixel_rows::{Image, Rect};
use ref_store::Store;
use texture_objects::{LEVELS, Shape, Texture};

/// What a draw samples of a complete texture: a share of the pixels of one level, the parameters, and the sides of level 0.
#[derive(Drop)]
pub struct Sampled {
    pub image: Image,
    pub texture: Texture,
    pub base_w: u32,
    pub base_h: u32,
}

fn stored_at(store: &Store<Stored>, n: Option<u64>) -> Option<&Storage>
    requires { AllIn store.now.nodes }
    ensures { option_copied result ≡ option_and_then (stored_in store.now.nodes) n }
{
    match n {
        Some(n) => storage_at(store, n),
        None => None,
    }
}

fn shape_at(store: &Store<Stored>, n: Option<u64>) -> Option<Shape>
    requires { AllIn store.now.nodes }
    ensures { result ≡ shape_by (stored_in store.now.nodes) n }
{
    match stored_at(store, n) {
        Some(storage) => Some(Shape {
            format: storage.format(),
            w: storage.width(),
            h: storage.height(),
        }),
        None => None,
    }
}

/// The shapes of a texture's levels.
pub(crate) fn shapes_at(
    store: &Store<Stored>,
    levels: &[Option<u64>; LEVELS],
) -> [Option<Shape>; LEVELS]
    requires { AllIn store.now.nodes }
    ensures { result ≡ shapes_by (stored_in store.now.nodes) levels.now }
{
    let mut shapes = [None; LEVELS];
    'levels: for k in 0..LEVELS {
        shapes[k] = shape_at(store, levels[k]);
    }
    shapes
}

fn has_sides(base: Shape, storage: &Storage) -> bool
    ensures { result ≡ ((nat_lt 0 base.w && nat_lt 0 base.h) && (nat_lt 0 storage.now.width && nat_lt 0 storage.now.height)) }
{
    (base.w > 0 && base.h > 0) && (storage.width() > 0 && storage.height() > 0)
}

/// What is sampled of a level, by the shape of level 0.
fn sample_level(
    store: &Store<Stored>,
    texture: &Texture,
    base: Option<Shape>,
    level: Option<u64>,
) -> Result<Option<Sampled>, NoMemory>
    requires { AllIn store.now.nodes }
    ensures value { IfOk result (λ o. option_map (λ s. sampled s.image s.texture s.base_w s.base_h) o ≡ sampler_over texture.now base (option_and_then (stored_in store.now.nodes) level)) }
    ensures sides { IfOk result (λ o. IfSome o (λ s. HasSides (sampled s.image s.texture s.base_w s.base_h))) }
{
    let Some(base) = base else {
        return Ok(None);
    };
    let Some(storage) = stored_at(store, level) else {
        return Ok(None);
    };
    if !has_sides(base, storage) {
        return Ok(None);
    }
    match storage.share_image()? {
        Some(image) => Ok(Some(Sampled {
            image,
            texture: texture.same_params(),
            base_w: base.w,
            base_h: base.h,
        })),
        None => Ok(None),
    }
}

/// What a draw of a rectangle samples of a texture.
fn sample(
    store: &Store<Stored>,
    texture: &BackedTexture,
    rect: Rect,
) -> Result<Option<Sampled>, NoMemory>
    requires all_in { AllIn store.now.nodes }
    requires wide { pos 0 <ℤ rect.w }
    requires high { pos 0 <ℤ rect.h }
    ensures value { IfOk result (λ o. option_map (λ s. sampled s.image s.texture s.base_w s.base_h) o ≡ sampler_with (stored_in store.now.nodes) (shapes_by (stored_in store.now.nodes) texture.now.levels) rect texture.now) }
    ensures sides { IfOk result (λ o. IfSome o (λ s. HasSides (sampled s.image s.texture s.base_w s.base_h))) }
{
    let shapes = shapes_at(store, &texture.levels);
    if !texture.texture.is_complete(&shapes) {
        return Ok(None);
    }
    let level = texture.texture.level_for(&shapes, rect.w, rect.h);
    sample_level(
        store,
        &texture.texture,
        shapes[0],
        level_in(&texture.levels, u64::from(level)),
    )
}

fn sample_at(store: &Store<Stored>, n: u64, rect: Rect) -> Result<Option<Sampled>, NoMemory>
    requires all_in { AllIn store.now.nodes }
    requires wide { pos 0 <ℤ rect.w }
    requires high { pos 0 <ℤ rect.h }
    ensures value { IfOk result (λ o. option_map (λ s. sampled s.image s.texture s.base_w s.base_h) o ≡ sampler_from (stored_in store.now.nodes) rect (as_texture (object_in (at store.now.nodes n)))) }
    ensures sides { IfOk result (λ o. IfSome o (λ s. HasSides (sampled s.image s.texture s.base_w s.base_h))) }
{
    match object_at(store, n) {
        Some(Object::Texture(texture)) => sample(store, texture, rect),
        _ => Ok(None),
    }
}

impl ObjectTable {
    /// What a draw of a rectangle, in 16.16 fixed point, samples of a texture: none where it isn't complete. Of frozen pixels none is copied.
    pub fn sample(&self, n: u64, rect: Rect) -> Result<Option<Sampled>, NoMemory>
        requires wide { pos 0 <ℤ rect.w }
        requires high { pos 0 <ℤ rect.h }
        ensures value { IfOk result (λ o. option_map (λ s. sampled s.image s.texture s.base_w s.base_h) o ≡ option_and_then (sampler_in self.now.objects rect) (texture_in self.now.objects n)) }
        ensures sides { IfOk result (λ o. IfSome o (λ s. HasSides (sampled s.image s.texture s.base_w s.base_h))) }
    {
        sample_at(&self.store, n, rect)
    }
}
