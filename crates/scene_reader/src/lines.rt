//! What the lines of a scene say.
ghost use Rattle.std.specs.Prelude.{◌≡◌, ◌≤◌, length, map, true, IfOk};
ghost use Rattle.scene_reader.specs.Items as rules;
ghost use Rattle.scene_reader.specs.Lines as values;
ghost use Rattle.scene_reader.specs.Reading.{GivesSaid};

use crate::items::{Atlas, ClipBox, Item, Part, ScaledPart, TiledPart};
use crate::limits::texel_bytes;
use crate::numbers::{integer_of, natural_of};
use crate::placing::{is_clip, is_new_atlas, is_scaled, is_tiled};
use egl_calls::Payload;
use std::alloc::Global;
use trace_reader::payloads::payload_word;
use trace_reader::word_cuts::word_at;
use trace_reader::{LineError, Reason};

/// An atlas without its texels.
#[derive(Clone, Copy, Drop)]
pub struct AtlasFrame {
    pub id: u32,
    pub width: u32,
    pub height: u32,
}

/// The texels that a word says, of which there are so many bytes. They are made only where they are so many.
#[tactic(auto, unfolding(crate::specs::Lines::texels_of), using(crate::proofs::TexelLaws::other_size, crate::proofs::TexelLaws::same_size))]
fn texels_of(alloc: Global, size: u128, word: &[u8]) -> Result<Payload, LineError>
    requires { size ≤ 4194304 }
    ensures value { GivesSaid (values.texels_of size word.now) result }
    ensures size { IfOk result (λ t. length t ≡ size) }
{
    let Some(said) = payload_word(word) else {
        return Err(LineError::Defective(Reason::Argument));
    };
    if said.size() != size {
        return Err(LineError::Defective(Reason::Argument));
    }
    let Ok(payload) = said.into_payload(alloc) else {
        return Err(LineError::NoMemory);
    };
    match payload {
        Some(texels) => Ok(texels),
        None => Err(LineError::Defective(Reason::Argument)),
    }
}

/// The id of an atlas, which none before has, and its sides.
#[tactic(auto, unfolding(crate::specs::Lines::frame_of), using(crate::proofs::TexelLaws::new_width, crate::proofs::TexelLaws::new_height))]
fn frame_of(before: &[Item], words: &[&[u8]]) -> Result<AtlasFrame, Reason>
    ensures value { result ≡ values.frame_of before.now (map (λ w. w.now) words.now) }
    ensures new { IfOk result (λ f. rules.is_new_atlas before.now f.id f.width f.height ≡ true) }
    ensures width { IfOk result (λ f. f.width ≤ 1024) }
    ensures height { IfOk result (λ f. f.height ≤ 1024) }
{
    if words.len() != 5 {
        return Err(Reason::Argument);
    }
    let id = natural_of(word_at(words, 1))?;
    let width = natural_of(word_at(words, 2))?;
    let height = natural_of(word_at(words, 3))?;
    if is_new_atlas(before, id, width, height) {
        Ok(AtlasFrame { id, width, height })
    } else {
        Err(Reason::Argument)
    }
}

/// A new atlas, with its texels in memory.
#[tactic(auto, unfolding(crate::specs::Lines::atlas_of))]
fn atlas_of(alloc: Global, before: &[Item], words: &[&[u8]]) -> Result<Atlas, LineError>
    ensures value { GivesSaid (values.atlas_of before.now (map (λ w. w.now) words.now)) result }
    ensures allowed { IfOk result (λ a. rules.is_atlas before.now a ≡ true) }
{
    let frame = match frame_of(before, words) {
        Ok(frame) => frame,
        Err(reason) => return Err(LineError::Defective(reason)),
    };
    let size = texel_bytes(frame.width, frame.height);
    let texels = texels_of(alloc, size, word_at(words, 4))?;
    Ok(Atlas {
        id: frame.id,
        width: frame.width,
        height: frame.height,
        texels,
    })
}

/// The part of an atlas that a line names.
#[tactic(auto, unfolding(crate::specs::Lines::part_of))]
fn part_of(words: &[&[u8]]) -> Result<Part, Reason>
    ensures { result ≡ values.part_of (map (λ w. w.now) words.now) }
{
    let atlas = natural_of(word_at(words, 1))?;
    let u = natural_of(word_at(words, 2))?;
    let v = natural_of(word_at(words, 3))?;
    let width = natural_of(word_at(words, 4))?;
    let height = natural_of(word_at(words, 5))?;
    Ok(Part {
        atlas,
        u,
        v,
        width,
        height,
    })
}

/// A part that is drawn scaled: behind the part's words, where it begins and how large it is there.
#[tactic(auto, unfolding(crate::specs::Lines::scaled_of))]
fn scaled_of(before: &[Item], words: &[&[u8]]) -> Result<ScaledPart, Reason>
    ensures value { result ≡ values.scaled_of before.now (map (λ w. w.now) words.now) }
    ensures allowed { IfOk result (λ s. rules.is_scaled before.now s ≡ true) }
{
    if words.len() != 10 {
        return Err(Reason::Argument);
    }
    let part = part_of(words)?;
    let x = integer_of(word_at(words, 6))?;
    let y = integer_of(word_at(words, 7))?;
    let width = natural_of(word_at(words, 8))?;
    let height = natural_of(word_at(words, 9))?;
    let scaled = ScaledPart {
        part,
        x,
        y,
        width,
        height,
    };
    if is_scaled(before, scaled) {
        Ok(scaled)
    } else {
        Err(Reason::Argument)
    }
}

/// A part that is drawn in columns and rows: behind the part's words, where the first begins and how many there are.
#[tactic(auto, unfolding(crate::specs::Lines::tiled_of))]
fn tiled_of(before: &[Item], words: &[&[u8]]) -> Result<TiledPart, Reason>
    ensures value { result ≡ values.tiled_of before.now (map (λ w. w.now) words.now) }
    ensures allowed { IfOk result (λ t. rules.is_tiled before.now t ≡ true) }
{
    if words.len() != 10 {
        return Err(Reason::Argument);
    }
    let part = part_of(words)?;
    let x = integer_of(word_at(words, 6))?;
    let y = integer_of(word_at(words, 7))?;
    let columns = natural_of(word_at(words, 8))?;
    let rows = natural_of(word_at(words, 9))?;
    let tiled = TiledPart {
        part,
        x,
        y,
        columns,
        rows,
    };
    if is_tiled(before, tiled) {
        Ok(tiled)
    } else {
        Err(Reason::Argument)
    }
}

#[tactic(auto, unfolding(crate::specs::Lines::clip_of))]
fn clip_of(words: &[&[u8]]) -> Result<ClipBox, Reason>
    ensures value { result ≡ values.clip_of (map (λ w. w.now) words.now) }
    ensures allowed { IfOk result (λ c. rules.is_clip c ≡ true) }
{
    if words.len() != 5 {
        return Err(Reason::Argument);
    }
    let x = integer_of(word_at(words, 1))?;
    let y = integer_of(word_at(words, 2))?;
    let width = natural_of(word_at(words, 3))?;
    let height = natural_of(word_at(words, 4))?;
    let clip = ClipBox {
        x,
        y,
        width,
        height,
    };
    if is_clip(clip) {
        Ok(clip)
    } else {
        Err(Reason::Argument)
    }
}

/// An item that takes no memory: one that isn't an atlas.
#[tactic(auto, unfolding(crate::specs::Lines::drawn_of))]
fn drawn_of(before: &[Item], words: &[&[u8]]) -> Result<Item, Reason>
    ensures value { result ≡ values.drawn_of before.now (map (λ w. w.now) words.now) }
    ensures allowed { IfOk result (λ i. rules.is_item before.now i ≡ true) }
{
    let first = word_at(words, 0);
    if first == b"sprite".as_slice() {
        return Ok(Item::Sprite(scaled_of(before, words)?));
    }
    if first == b"smooth".as_slice() {
        return Ok(Item::Smooth(scaled_of(before, words)?));
    }
    if first == b"tile".as_slice() {
        return Ok(Item::Tile(tiled_of(before, words)?));
    }
    if first == b"clip".as_slice() {
        return Ok(Item::Clip(clip_of(words)?));
    }
    if first != b"noclip".as_slice() {
        return Err(Reason::Name);
    }
    if words.len() == 1 {
        Ok(Item::NoClip)
    } else {
        Err(Reason::Argument)
    }
}

/// The item that the words of a line say behind these, but for the limits.
#[tactic(auto, unfolding(crate::specs::Lines::item_of))]
pub fn item_of(alloc: Global, before: &[Item], words: &[&[u8]]) -> Result<Item, LineError>
    ensures value { GivesSaid (values.item_of before.now (map (λ w. w.now) words.now)) result }
    ensures allowed { IfOk result (λ i. rules.is_item before.now i ≡ true) }
{
    if word_at(words, 0) == b"atlas".as_slice() {
        return Ok(Item::Atlas(atlas_of(alloc, before, words)?));
    }
    match drawn_of(before, words) {
        Ok(item) => Ok(item),
        Err(reason) => Err(LineError::Defective(reason)),
    }
}
