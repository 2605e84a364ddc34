//! How the pixels of a config's surfaces are stored.

ghost use Rattle.std.specs.Prelude.{◌≡◌};
ghost use Rattle.surface_store.specs.Formats as formats;

use egl_calls::unsigned;
use pixel_formats::Format;

/// The format of a config's surfaces, by the bits of the config's colours (EGL 1.5, section 3.4).
/// Where `config` is no config's id it is `Rgba8888`.
#[tactic(auto, using(crate::proofs::FormatLaws::format_is))]
pub fn format_of(config: i64) -> Format
    ensures { result ≡ formats.format_of config }
{
    match unsigned(config) {
        1 | 2 => Format::Rgb565,
        3 => Format::Rgb888,
        6 => Format::Rgba4444,
        7 => Format::Rgba5551,
        _ => Format::Rgba8888,
    }
}
