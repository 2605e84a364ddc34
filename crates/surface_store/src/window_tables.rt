//! The windows that are declared, with their fronts, by their ids.

ghost use Rattle.std.specs.Prelude.{◌≡◌, ◌≤◌, ◌<◌, true, map, length, IfOk, IfSome, IsOk, OnOk, OnErr, option_copied};
ghost use Rattle.std.specs.Option.{option_map};
ghost use Rattle.surface_store.specs.Windows.{opened, windows_ok};
ghost use Rattle.surface_store.specs.WindowTables as values;
ghost use Rattle.surface_store.specs.WindowTables.{HasSides, place_of, window_of, spec_of, has_sides_of};

use crate::windows::{Window, WindowSpec, swap};
use egl_calls::{NoMemory, unsigned};
use pixel_rows::Image;
use std::alloc::Global;
use std::marker::Model;

/// The windows of a driver, in the order in which they were declared: at most 64.
pub struct WindowTable {
    windows: Vec<Window>,
}

// Written out, so that no crate above proves the drops of what it owns.
impl Drop for WindowTable {
    fn drop(self) {
        let WindowTable { windows: _ } = self;
    }
}

impl Model for WindowTable {
    ghost use Rattle.std.specs.Prelude.{List};
    ghost use Rattle.surface_store.specs.Windows.{WindowValue};
    ghost use Rattle.surface_store.specs.WindowTables.{AreWindows};

    ghost Value = { List WindowValue };

    ghost view = { λ t. t.windows.items };

    ghost invariant = { λ t. AreWindows t.windows.items };
}

#[tactic(auto, using(crate::proofs::WindowLaws::place_inside))]
fn place_in(windows: &[Window], id: u64) -> Option<usize>
    ensures place { result ≡ place_of id windows.now }
    ensures inside { IfSome result (λ k. k < length windows.now) }
{
    windows
        .iter()
        .position(|window| unsigned(window.id()) == id)
}

fn has_sides_of(back: &Image, window: &Window) -> bool
    ensures { result ≡ has_sides_of back.now window.now }
{
    window.front().width() == back.width() && window.front().height() == back.height()
}

impl WindowTable {
    /// Windows as they are declared, with fronts that are all 0.
    pub fn new(alloc: Global, specs: &[WindowSpec]) -> Result<WindowTable, NoMemory>
        requires { windows_ok specs.now ≡ true }
        ensures { IfOk result (λ t. t ≡ map opened specs.now) }
    {
        let mut windows = Vec::new(alloc);
        'each: for spec in specs {
            let Ok(()) = windows.push(Window::new(alloc, *spec)?) else {
                return Err(NoMemory);
            };
        }
        Ok(WindowTable { windows })
    }

    pub fn as_slice(&self) -> &[Window]
        ensures windows { result.now ≡ self.now }
        ensures few { length result.now ≤ 64 }
    {
        &self.windows
    }

    /// The place of a window among those declared, counted from 0; none where there is no window of this id.
    pub fn place(&self, id: u64) -> Option<u32>
        ensures place { result ≡ place_of id self.now }
        ensures few { IfSome result (λ k. k < 64) }
    {
        match place_in(&self.windows, id) {
            Some(place) => Some(place as u32),
            None => None,
        }
    }

    fn window(&self, id: u64) -> Option<&Window>
        ensures window { option_copied result ≡ window_of id self.now }
        ensures sides { IfSome result (λ w. HasSides w.now) }
    {
        self.windows.get(place_in(&self.windows, id)?)
    }

    /// What the window of an id was declared as.
    pub fn spec(&self, id: u64) -> Option<WindowSpec>
        ensures spec { result ≡ option_map spec_of (window_of id self.now) }
        ensures wide { IfSome result (λ s. (1 ≤ s.w) × (s.w ≤ 2048)) }
        ensures high { IfSome result (λ s. (1 ≤ s.h) × (s.h ≤ 2048)) }
    {
        let window = self.window(id)?;
        Some(WindowSpec {
            id: window.id(),
            w: window.front().width(),
            h: window.front().height(),
        })
    }

    /// The pixels that the window of an id shows.
    pub fn front(&self, id: u64) -> Option<&Image>
        ensures { option_copied result ≡ option_map (λ w. w.front) (window_of id self.now) }
    {
        match self.window(id) {
            Some(window) => Some(window.front()),
            None => None,
        }
    }

    /// Posts a back buffer to the window of an id, where that has its sides (EGL 1.5, section 3.10.1). Want of memory
    /// leaves both as they were, and it comes only where the back buffer's bytes aren't its own.
    pub fn swap(&mut self, id: u64, back: &mut Image, preserve: bool) -> Result<(), NoMemory>
        ensures windows { OnOk result (self.new ≡ values.swapped_windows id back.old self.old) }
        ensures back { OnOk result (back.new ≡ values.swapped_back id preserve back.old self.old) }
        ensures err { OnErr result ((self.new ≡ self.old) × (back.new ≡ back.old)) }
        ensures room { back.old.owned ≡ true → IsOk result }
    {
        let Some(place) = place_in(&self.windows, id) else {
            return Ok(());
        };
        let window = &mut self.windows[place];
        if !has_sides_of(back, window) {
            return Ok(());
        }
        swap(window, back, preserve)
    }
}
