//! Windows: what is declared of them, and what they show.

ghost use Rattle.std.specs.Prelude.{◌≡◌, ◌≤◌, IfOk, OnOk, OnErr, true, IsOk, if◌then◌else◌};
ghost use Rattle.pixel_rows.specs.Images.{blank};
ghost use Rattle.surface_store.specs.Windows as values;

use egl_calls::NoMemory;
use egl_calls::limits::{LAST_WINDOW, LONGEST_SIDE};
use pixel_formats::{Format, Pixel};
use pixel_rows::{Image, Mask, Rect, zeroes_whole};
use std::alloc::Global;
use std::marker::Model;

/// The most windows that may be declared.
pub const MOST_WINDOWS: usize = 64;

/// A declared window: its id, and how many pixels a row has and how many rows there are.
#[derive(Clone, Copy, Debug, PartialEq, Eq, Drop)]
pub struct WindowSpec {
    pub id: i64,
    pub w: u32,
    pub h: u32,
}

/// Whether a window may be declared so: an id from 1 to 2,147,483,647, and sides from 1 to 2,048.
fn is_spec(spec: WindowSpec) -> bool
    ensures { result ≡ values.is_spec spec }
{
    1 <= spec.id
        && spec.id <= LAST_WINDOW as i64
        && 1 <= spec.w
        && spec.w as u64 <= LONGEST_SIDE
        && 1 <= spec.h
        && spec.h as u64 <= LONGEST_SIDE
}

/// Whether a window of a list has an id.
fn has_id(list: &[WindowSpec], id: i64) -> bool
    ensures { result ≡ values.has_id id list.now }
{
    'each: for spec in list {
        if spec.id == id {
            return true;
        }
    }
    false
}

/// Whether each window of a list may be declared so, and no two have one id.
fn are_distinct(list: &[WindowSpec]) -> bool
    ensures { result ≡ values.are_distinct list.now }
{
    'each: for k in 0..list.len() {
        let (_, rest) = list.split_at(k + 1);
        if !is_spec(list[k]) || has_id(rest, list[k].id) {
            return false;
        }
    }
    true
}

/// Whether windows may be declared together: at most 64, with distinct ids from 1 to 2,147,483,647
/// and sides from 1 to 2,048.
pub fn windows_ok(list: &[WindowSpec]) -> bool
    ensures { result ≡ values.windows_ok list.now }
{
    list.len() <= MOST_WINDOWS && are_distinct(list)
}

/// A window: its id and its front, the pixels that it shows, which are `Rgba8888`.
#[derive(Drop)]
pub struct Window {
    id: i64,
    front: Image,
}

impl Model for Window {
    ghost use Rattle.surface_store.specs.Windows.{WindowValue, IsFront};

    ghost Value = { WindowValue };

    ghost view = { λ w. record { id = w.id; front = w.front } };

    ghost invariant = { λ w. IsFront w.front };
}

const NO_PIXEL: Pixel = Pixel {
    r: 0,
    g: 0,
    b: 0,
    a: 0,
};

const ALL: Mask = Mask {
    r: true,
    g: true,
    b: true,
    a: true,
};

impl Window {
    /// A window whose front is all 0.
    pub fn new(alloc: Global, spec: WindowSpec) -> Result<Window, NoMemory>
        requires wide { (1 ≤ spec.w) × (spec.w ≤ 2048) }
        requires high { (1 ≤ spec.h) × (spec.h ≤ 2048) }
        ensures { IfOk result (λ w. w ≡ values.opened spec) }
    {
        Ok(Window {
            id: spec.id,
            front: Image::new(alloc, Format::Rgba8888, spec.w, spec.h)?,
        })
    }

    /// The id that the window was declared with.
    pub fn id(&self) -> i64
        ensures { result ≡ self.now.id }
    {
        self.id
    }

    /// The pixels that the window shows.
    pub fn front(&self) -> &Image
        ensures { result.now ≡ self.now.front }
    {
        &self.front
    }

    /// Shows the pixels of an image of its sides, at 8 bits a component.
    fn post(&mut self, back: &Image)
        requires { (back.now.width ≡ self.old.front.width) × (back.now.height ≡ self.old.front.height) }
        ensures { self.new ≡ values.posted back.now self.old }
    {
        match self.front.copy_pixels(back) {
            Ok(()) => {}
            Err(_) => unreachable!(),
        }
    }
}

/// Makes each stored component of an image 0.
fn clear(back: &mut Image) -> Result<(), NoMemory>
    ensures ok { OnOk result (back.new ≡ blank back.old.format back.old.width back.old.height) }
    ensures err { OnErr result (back.new ≡ back.old) }
    ensures room { back.old.owned ≡ true → IsOk result }
{
    zeroes_whole();
    let whole = Rect {
        x: 0,
        y: 0,
        w: i64::from(back.width()),
        h: i64::from(back.height()),
    };
    back.fill_rect(whole, NO_PIXEL, ALL)
}

/// Posts a back buffer to a window of its sides: the front takes its pixels at 8 bits a component, and
/// then the back buffer is all 0 unless it is to be preserved (EGL 1.5, section 3.10.1). Want of memory
/// leaves both as they were, and it comes only where the back buffer's bytes aren't its own.
pub fn swap(window: &mut Window, back: &mut Image, preserve: bool) -> Result<(), NoMemory>
    requires { (back.old.width ≡ window.old.front.width) × (back.old.height ≡ window.old.front.height) }
    ensures front { OnOk result (window.new ≡ values.posted back.old window.old) }
    ensures back { OnOk result (back.new ≡ (if preserve then back.old else blank back.old.format back.old.width back.old.height)) }
    ensures err { OnErr result ((window.new ≡ window.old) × (back.new ≡ back.old)) }
    ensures room { back.old.owned ≡ true → IsOk result }
{
    if preserve {
        window.post(back);
        return Ok(());
    }
    if back.is_owned() {
        window.post(back);
        return clear(back);
    }
    let kept = back.share()?;
    clear(back)?;
    window.post(&kept);
    Ok(())
}
