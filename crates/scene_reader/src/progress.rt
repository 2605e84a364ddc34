//! What was read of a scene.
ghost use Rattle.std.specs.Prelude.{◌≡◌, [], true};
ghost use Rattle.scene_reader.specs.Items.{is_item};
ghost use Rattle.scene_reader.specs.Lines.{with_item};
ghost use Rattle.scene_reader.specs.Reading.{GivesItems};
ghost use Rattle.scene_reader.specs.Scenes.{IsSide, has_room};

use crate::headers::Sides;
use crate::items::Item;
use crate::limits::{draws, texture_bytes};
use crate::scenes::Scene;
use std::alloc::Global;
use std::marker::Model;
use trace_reader::{LineError, Reason};

/// How many items a scene may have.
const MOST_ITEMS: usize = 4_000;

/// How many draws they may make.
const MOST_DRAWS: u128 = 20_000;

/// How many bytes their textures may have.
const MOST_BYTES: u128 = 8_388_608;

/// The items that were read, how many draws they make, and how many bytes their textures have. Its value are the items.
#[derive(Drop)]
pub struct Progress {
    items: Vec<Item>,
    draws: u128,
    bytes: u128,
}

impl Model for Progress {
    ghost use Rattle.std.specs.Prelude.{List};
    ghost use Rattle.scene_reader.specs.declared.items.Item.{Item as ItemValue};
    ghost use Rattle.scene_reader.specs.Scenes.{IsRead};

    ghost Value = { List ItemValue };

    ghost view = { λ p. p.items.items };

    ghost invariant = { λ p. IsRead p.items.items p.draws p.bytes };
}

impl Progress {
    pub fn new(alloc: Global) -> Self
        ensures { result ≡ [] }
    {
        Progress {
            items: Vec::new(alloc),
            draws: 0,
            bytes: 0,
        }
    }

    pub fn items(&self) -> &[Item]
        ensures { result.now ≡ self.now }
    {
        self.items.as_slice()
    }

    /// Whether one more item passes no limit.
    fn has_room(&self, item: &Item) -> bool
        ensures { result ≡ has_room self.now item.now }
    {
        self.items.len() < MOST_ITEMS
            && self.draws + draws(item) <= MOST_DRAWS
            && self.bytes + texture_bytes(item) <= MOST_BYTES
    }

    /// Adds an item, where that passes no limit.
    pub fn add(&mut self, item: Item) -> Result<(), LineError>
        requires { is_item self.old item ≡ true }
        ensures { GivesItems (with_item self.old item) self.old self.new result }
    {
        if !self.has_room(&item) {
            return Err(LineError::Defective(Reason::Limit));
        }
        let draws = draws(&item);
        let bytes = texture_bytes(&item);
        let Ok(()) = self.items.push(item) else {
            return Err(LineError::NoMemory);
        };
        self.draws += draws;
        self.bytes += bytes;
        Ok(())
    }

    /// The scene of these sides and the items that were read.
    pub fn into_scene(self, sides: Sides) -> Scene
        requires width { IsSide sides.width }
        requires height { IsSide sides.height }
        ensures { result ≡ record { width = sides.width; height = sides.height; items = self } }
    {
        Scene {
            width: sides.width,
            height: sides.height,
            items: self.items,
        }
    }
}
