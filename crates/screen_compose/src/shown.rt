//! What placed windows show.
ghost use Rattle.std.specs.Prelude.{◌≡◌, ◌<◌, length, map, IfOk, IfSome, option_copied};
ghost use Rattle.std.specs.Option.{option_map};
ghost use Rattle.egl_calls.specs.Ranges.{unsigned};
ghost use Rattle.surface_store.specs.WindowTables as tables;
ghost use Rattle.screen_compose.specs.Fronts.{AreOf, rows_in};
ghost use Rattle.screen_compose.specs.Shown as values;

use crate::fronts::Fronts;
use crate::layers::{Front, Layer};
use crate::placed::Placed;
use driver_core::Driver;
use egl_calls::{NoMemory, unsigned};
use std::alloc::Global;
use surface_store::Window;

#[tactic(auto, using(surface_store::proofs::WindowLaws::place_inside))]
fn place_of(windows: &[Window], id: u64) -> Option<usize>
    ensures place { result ≡ tables.place_of id windows.now }
    ensures inside { IfSome result (λ k. k < length windows.now) }
{
    windows
        .iter()
        .position(|window| unsigned(window.id()) == id)
}

/// The window of an id.
fn window_of(windows: &[Window], id: u64) -> Option<&Window>
    ensures { option_copied result ≡ tables.window_of id windows.now }
{
    windows.get(place_of(windows, id)?)
}

/// What the window of an id shows.
fn front_of(alloc: Global, windows: &[Window], window: i64) -> Result<Option<Front>, NoMemory>
    ensures { IfOk result (λ f. f ≡ option_map (λ w. rows_in w.front) (tables.window_of (unsigned window) windows.now)) }
{
    match window_of(windows, unsigned(window)) {
        Some(window) => Ok(Some(Front::of(alloc, window.front())?)),
        None => Ok(None),
    }
}

fn layer_of(alloc: Global, windows: &[Window], placed: Placed) -> Result<Layer, NoMemory>
    ensures { IfOk result (λ l. l ≡ values.layer_of windows.now placed) }
{
    Ok(Layer::new(placed, front_of(alloc, windows, placed.window)?))
}

fn layers_of(alloc: Global, windows: &[Window], placed: &[Placed]) -> Result<Vec<Layer>, NoMemory>
    ensures { IfOk result (λ l. l.items ≡ map (values.layer_of windows.now) placed.now) }
{
    let mut layers = Vec::new(alloc);
    'each: for p in placed {
        let Ok(()) = layers.push(layer_of(alloc, windows, *p)?) else {
            return Err(NoMemory);
        };
    }
    Ok(layers)
}

impl Fronts {
    /// A copy of what these windows show among those of a driver, in whose history there are `at` entries. A window that isn't declared shows nothing.
    #[tactic(auto, using(crate::proofs::ShownLaws::shown_placed))]
    pub fn of_windows(
        alloc: Global,
        windows: &[Window],
        placed: &[Placed],
        at: u64,
    ) -> Result<Fronts, NoMemory>
        ensures fronts { IfOk result (λ f. f ≡ values.fronts_of windows.now placed.now at) }
        ensures same { IfOk result (λ f. AreOf f placed.now) }
    {
        Ok(Fronts::from_layers(layers_of(alloc, windows, placed)?, at))
    }

    /// A copy of what these windows show in a driver, in whose history there are `at` entries.
    pub fn of(
        alloc: Global,
        driver: &Driver,
        placed: &[Placed],
        at: u64,
    ) -> Result<Fronts, NoMemory>
        ensures fronts { IfOk result (λ f. f ≡ values.fronts_of driver.now.state.windows placed.now at) }
        ensures same { IfOk result (λ f. AreOf f placed.now) }
    {
        Fronts::of_windows(alloc, driver.windows(), placed, at)
    }
}
