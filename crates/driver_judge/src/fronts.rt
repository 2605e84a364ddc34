//! In which format what windows show is kept.
ghost use Rattle.std.specs.Prelude.{◌≡◌, IfOk, OnOk};
ghost use Rattle.driver_judge.specs.Fronts.{front_bytes, shown_format, with_format};

use egl_calls::{Bytes, EglKind, Kind, NoMemory};
use indexmap::IndexMap;
use keyed_hash::KeyedState;
use pixel_formats::Format;
use pixel_rows::{Image, Rect};
use std::alloc::Global;
use surface_store::format_of;

/// The formats in which the newest surfaces of windows are stored, by the windows' ids.
pub type Formats = IndexMap<i64, Format, KeyedState>;

/// The format of what a window shows.
pub fn shown_format(window: i64, formats: &Formats) -> Format
    ensures { result ≡ shown_format window formats.now.entries }
{
    match formats.get(&window) {
        Some(format) => *format,
        None => Format::Rgba8888,
    }
}

/// Keeps the format of a window's surface behind the call that made it.
pub fn note_format(
    kind: Kind,
    window: i64,
    config: i64,
    formats: &mut Formats,
) -> Result<(), NoMemory>
    ensures { OnOk result (formats.new.entries ≡ with_format kind window config formats.old.entries) }
{
    match kind {
        Kind::Egl(EglKind::CreateWindowSurface) => {
            match formats.insert(window, format_of(config)) {
                Ok(_) => Ok(()),
                Err(_) => Err(NoMemory),
            }
        }
        _ => Ok(()),
    }
}

/// The bytes that a window shows, four a pixel.
pub fn front_bytes(alloc: Global, front: &Image) -> Result<Bytes, NoMemory>
    ensures { IfOk result (λ b. b ≡ front_bytes front.now) }
{
    let whole = Rect {
        x: 0,
        y: 0,
        w: i64::from(front.width()),
        h: i64::from(front.height()),
    };
    front.row_bytes(alloc, whole, Format::Rgba8888, 1)
}
