//! The calls that draw a scene.
ghost use Rattle.std.specs.Prelude.{◌≡◌, ◌++◌, ◌<◌, ◌≤◌, ◌+ℤ◌, ℕ, pos, [], All, length, map, slice_index, true, IfOk, OnOk, Some};
ghost use Rattle.egl_calls.specs.Ranges.{IsNumber};
ghost use Rattle.sprite_scene.specs.Draws as draws;
ghost use Rattle.sprite_scene.specs.Parts.{HasBytes, IsDrawnPart, IsPlaced, IsTiled};
ghost use Rattle.sprite_scene.specs.Calls as values;
ghost use Rattle.sprite_scene.specs.Runs.{Draws};
ghost use Rattle.scene_reader.specs.Items as items;
ghost use Rattle.scene_reader.specs.Scenes.{AreItems};

use crate::call_lists::Calls;
use crate::texels::smooth_texels;
use egl_calls::{NoMemory, Payload};
use scene_reader::{Atlas, Item, ScaledPart, Scene, TiledPart, atlas_with, least_power};
use std::alloc::Global;

/// The names of the textures of smooth parts follow those of the atlases.
const FIRST_SMOOTH_NAME: u32 = 65;

fn push_smooth(
    calls: &mut Calls,
    alloc: Global,
    name: u32,
    atlas: &Atlas,
    drawn: &ScaledPart,
) -> Result<(), NoMemory>
    requires part { IsDrawnPart atlas.now drawn.now }
    requires x { IsNumber drawn.now.x }
    requires y { IsNumber drawn.now.y }
    ensures { OnOk result (calls.new ≡ calls.old ++ values.smooth_calls name (Some atlas.now) drawn.now) }
{
    let texels = Payload::new(alloc, smooth_texels(alloc, atlas, drawn)?)?;
    calls.push_texture(
        alloc,
        name,
        least_power(drawn.width),
        least_power(drawn.height),
        texels,
    )?;
    calls.push_crop(alloc, 0, 0, drawn.width, drawn.height)?;
    calls.push_draw(alloc, drawn)
}

/// A place so many pixels on.
fn moved(start: i64, by: u32) -> i64
    requires start { IsPlaced start }
    requires by { by ≤ 1048576 }
    ensures value { result ≡ start +ℤ pos by }
    ensures number { IsNumber result }
{
    start + i64::from(by)
}

/// One of the parts of a tile.
#[tactic(auto, using(crate::proofs::Products::area_small))]
fn tile_at(tile: &TiledPart, column: u32, row: u32) -> ScaledPart
    requires tile { IsTiled tile.now }
    requires column { column < tile.now.columns }
    requires row { row < tile.now.rows }
    ensures value { result ≡ draws.tile_at tile.now column row }
    ensures x { IsNumber result.x }
    ensures y { IsNumber result.y }
{
    ScaledPart {
        part: tile.part,
        x: moved(tile.x, column * tile.part.width),
        y: moved(tile.y, row * tile.part.height),
        width: tile.part.width,
        height: tile.part.height,
    }
}

#[tactic(auto, using(crate::proofs::TexelLaws::call_more, crate::proofs::TexelLaws::no_call))]
fn push_tile_row(
    calls: &mut Calls,
    alloc: Global,
    tile: &TiledPart,
    row: u32,
) -> Result<(), NoMemory>
    requires tile { IsTiled tile.now }
    requires row { row < tile.now.rows }
    ensures { OnOk result (calls.new ≡ calls.old ++ map values.draw_tex (draws.tile_row tile.now row)) }
{
    'columns: for column in 0..tile.columns {
        calls.push_draw(alloc, &tile_at(tile, column, row))?;
    }
    Ok(())
}

#[tactic(auto, using(crate::proofs::TexelLaws::row_more, crate::proofs::TexelLaws::no_row, crate::proofs::TexelLaws::tiles_are))]
fn push_tiles(calls: &mut Calls, alloc: Global, tile: &TiledPart) -> Result<(), NoMemory>
    requires { IsTiled tile.now }
    ensures { OnOk result (calls.new ≡ calls.old ++ map values.draw_tex (draws.tiles tile.now)) }
{
    'rows: for row in 0..tile.rows {
        push_tile_row(calls, alloc, tile, row)?;
    }
    Ok(())
}

/// The calls of an item behind others, on a target of these sides.
#[tactic(auto, using(crate::proofs::ItemFacts::smooth_fits, crate::proofs::ItemFacts::tile_fits, crate::proofs::ItemFacts::clip_x, crate::proofs::ItemFacts::clip_y, crate::proofs::ItemFacts::smooth_atlas, crate::proofs::ItemFacts::sprite_item))]
fn push_item(
    calls: &mut Calls,
    alloc: Global,
    w: u32,
    h: u32,
    before: &[Item],
    item: &Item,
) -> Result<(), NoMemory>
    requires items { AreItems [] before.now }
    requires item { items.is_item before.now item.now ≡ true }
    requires few { length before.now ≤ 4000 }
    ensures { OnOk result (calls.new ≡ calls.old ++ values.item_calls w h before.now item.now) }
{
    match item {
        Item::Atlas(atlas) => {
            calls.push_texture(
                alloc,
                atlas.id,
                atlas.width,
                atlas.height,
                atlas.texels.share()?,
            )
        }
        Item::Sprite(drawn) => {
            calls.push_bind(alloc, drawn.part.atlas)?;
            calls.push_crop_part(alloc, &drawn.part)?;
            calls.push_draw(alloc, drawn)
        }
        Item::Smooth(drawn) => match atlas_with(before, drawn.part.atlas) {
            Some(atlas) => {
                let name = FIRST_SMOOTH_NAME + before.len() as u32;
                push_smooth(calls, alloc, name, atlas, drawn)
            }
            None => Ok(()),
        },
        Item::Tile(tile) => {
            calls.push_bind(alloc, tile.part.atlas)?;
            calls.push_crop_part(alloc, &tile.part)?;
            push_tiles(calls, alloc, tile)
        }
        Item::Clip(clip) => calls.push_scissor(alloc, clip.x, clip.y, clip.width, clip.height),
        Item::NoClip => calls.push_scissor(alloc, 0, 0, w, h),
    }
}

#[tactic(auto, using(crate::proofs::TexelLaws::item_more, crate::proofs::TexelLaws::all_items, crate::proofs::ItemFacts::item_at, crate::proofs::ItemFacts::taken_items))]
fn push_items(calls: &mut Calls, alloc: Global, scene: &Scene) -> Result<(), NoMemory>
    ensures { OnOk result (calls.new ≡ calls.old ++ values.calls_from scene.now.width scene.now.height [] scene.now.items) }
{
    let items = scene.items.as_slice();
    'each: for k in 0..items.len() {
        push_item(
            calls,
            alloc,
            scene.width,
            scene.height,
            &items[..k],
            &items[k],
        )?;
    }
    Ok(())
}

fn push_all(calls: &mut Calls, alloc: Global, scene: &Scene) -> Result<(), NoMemory>
    ensures { OnOk result (calls.new ≡ calls.old ++ values.calls_of scene.now) }
{
    calls.push_opening(alloc, scene.width, scene.height)?;
    push_items(calls, alloc, scene)?;
    calls.push_read(alloc, scene.width, scene.height)
}

/// Bytes are below 256.
fn know_bytes(bytes: &[u8])
    ensures { (k : ℕ) → slice_index bytes.now k < 256 }
{}

fn know_item(item: &Item)
    ensures { HasBytes item.now }
{
    match item {
        Item::Atlas(atlas) => know_bytes(atlas.texels.bytes().as_slice()),
        Item::Sprite(_) => {}
        Item::Smooth(_) => {}
        Item::Tile(_) => {}
        Item::Clip(_) => {}
        Item::NoClip => {}
    }
}

/// The texels of each atlas of a scene are bytes.
#[tactic(auto, using(crate::proofs::TexelLaws::all_more, crate::proofs::TexelLaws::none_yet, crate::proofs::TexelLaws::all_taken))]
fn texels_are_bytes(items: &[Item])
    ensures { All HasBytes items.now }
{
    'each: for item in items {
        know_item(item);
    }
}

/// What is true of each scene: made in order by the one thread of a driver, the calls are done and leave the scene's picture.
#[tactic(auto, using(crate::proofs::Finishing::scene_draws))]
pub fn calls_draw(scene: &Scene)
    ensures texels { All HasBytes scene.now.items }
    ensures picture { Draws scene.now (values.calls_of scene.now) }
{
    texels_are_bytes(scene.items.as_slice());
}

/// The calls that draw a scene. Made in order by the one thread of a driver without windows and with 1,073,741,824 bytes for pixels, each is done, and the last one, a glReadPixels of the whole target, has the bytes of the scene's picture.
pub fn emit(alloc: Global, scene: &Scene) -> Result<Calls, NoMemory>
    ensures calls { IfOk result (λ cs. cs ≡ values.calls_of scene.now) }
    ensures picture { IfOk result (λ cs. Draws scene.now cs) }
{
    calls_draw(scene);
    let mut calls = Calls::new(alloc);
    push_all(&mut calls, alloc, scene)?;
    Ok(calls)
}
