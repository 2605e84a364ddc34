//! The fronts of placed windows, as they are at one time.
ghost use Rattle.std.specs.Prelude.{◌≡◌, map, IfOk};
ghost use Rattle.screen_compose.specs.Fronts as values;

use crate::layers::Layer;
use crate::placed::Placed;
use egl_calls::NoMemory;
use std::alloc::Global;
use std::marker::Model;

/// What each window of a list shows, and how many entries the history had by then.
#[derive(Drop)]
pub struct Fronts {
    layers: Vec<Layer>,
    at: u64,
}

impl Model for Fronts {
    ghost use Rattle.screen_compose.specs.Fronts.{FrontsValue};

    ghost Value = { FrontsValue };

    ghost view = { λ f. record { layers = f.layers.items; at = f.at } };
}

fn bare_layers(alloc: Global, placed: &[Placed]) -> Result<Vec<Layer>, NoMemory>
    ensures { IfOk result (λ l. l.items ≡ map values.bare_layer placed.now) }
{
    let mut layers = Vec::new(alloc);
    'each: for p in placed {
        let Ok(()) = layers.push(Layer::bare(*p)) else {
            return Err(NoMemory);
        };
    }
    Ok(layers)
}

impl Fronts {
    pub(crate) fn from_layers(layers: Vec<Layer>, at: u64) -> Fronts
        ensures { result ≡ record { layers = layers.items; at = at } }
    {
        Fronts { layers, at }
    }

    /// Nothing yet of each window.
    pub(crate) fn none(alloc: Global, placed: &[Placed]) -> Result<Fronts, NoMemory>
        ensures { IfOk result (λ f. f ≡ values.no_fronts placed.now) }
    {
        Ok(Fronts {
            layers: bare_layers(alloc, placed)?,
            at: 0,
        })
    }

    /// How many entries the history had.
    pub fn at(&self) -> u64
        ensures { result ≡ self.now.at }
    {
        self.at
    }

    /// The windows in their order, the lowest first.
    pub(crate) fn layers(&self) -> &[Layer]
        ensures { result.now ≡ self.now.layers }
    {
        &self.layers
    }
}
