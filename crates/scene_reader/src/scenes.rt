//! Scenes.
use crate::items::Item;
use std::marker::Model;

/// A scene: its sides in pixels, and its items in the order of their lines.
pub struct Scene {
    pub width: u32,
    pub height: u32,
    pub items: Vec<Item>,
}

// Written out, so that no crate above proves the drops of what it owns.
impl Drop for Scene {
    fn drop(self) {
        let Scene {
            width: _,
            height: _,
            items: _,
        } = self;
    }
}

impl Model for Scene {
    ghost use Rattle.scene_reader.specs.Scenes.{SceneValue, IsScene};

    ghost Value = { SceneValue };

    ghost view = { λ s. record { width = s.width; height = s.height; items = s.items.items } };

    ghost invariant = { λ s. IsScene (record { width = s.width; height = s.height; items = s.items.items }) };
}
