//! The order of the configs (EGL 1.5, section 3.4.1.2).
ghost use Rattle.std.specs.Prelude.{◌≡◌, ◌-◌};
ghost use Rattle.config_match.specs.Configs.{rank, caveats, buffer_types, requested_size, requested_bits, key};

use crate::matching::{value, wanted};
use crate::table::Config;
use attrib_lists::AttribList;
use egl_names::codes::{
    EGL_ALPHA_MASK_SIZE, EGL_ALPHA_SIZE, EGL_BLUE_SIZE, EGL_BUFFER_SIZE, EGL_COLOR_BUFFER_TYPE,
    EGL_CONFIG_CAVEAT, EGL_CONFIG_ID, EGL_DEPTH_SIZE, EGL_DONT_CARE, EGL_GREEN_SIZE,
    EGL_LUMINANCE_BUFFER, EGL_NATIVE_VISUAL_TYPE, EGL_NON_CONFORMANT_CONFIG, EGL_RED_SIZE,
    EGL_SAMPLE_BUFFERS, EGL_SAMPLES, EGL_SLOW_CONFIG, EGL_STENCIL_SIZE,
};

/// The parts by which configs are ordered, each rising: caveat, buffer type, how far the requested colour bits are below 32, then BUFFER_SIZE, SAMPLE_BUFFERS, SAMPLES, DEPTH_SIZE, STENCIL_SIZE, ALPHA_MASK_SIZE, NATIVE_VISUAL_TYPE and CONFIG_ID.
pub type Key = [u32; 11];

/// The size of a colour, where the list asks for it with a value other than 0 and EGL_DONT_CARE.
fn requested_size(config: &Config, list: &AttribList, name: u32) -> u32
    ensures { result ≡ requested_size list.now config.now name }
{
    let asked = wanted(list, name, 0);
    if asked == EGL_DONT_CARE || asked == 0 {
        0
    } else {
        value(config, name)
    }
}

/// How far the bits of the colours that a list asks for are below 32.
fn missing_bits(config: &Config, list: &AttribList) -> u32
    ensures { result ≡ 32 - requested_bits list.now config.now }
{
    let red = requested_size(config, list, EGL_RED_SIZE as u32) as u64;
    let green = requested_size(config, list, EGL_GREEN_SIZE as u32) as u64;
    let blue = requested_size(config, list, EGL_BLUE_SIZE as u32) as u64;
    let alpha = requested_size(config, list, EGL_ALPHA_SIZE as u32) as u64;
    32u64.saturating_sub(red + green + blue + alpha) as u32
}

fn caveat_rank(code: u32) -> u32
    ensures { result ≡ rank caveats code }
{
    match code as u64 {
        EGL_SLOW_CONFIG => 1,
        EGL_NON_CONFORMANT_CONFIG => 2,
        _ => 0,
    }
}

fn buffer_rank(code: u32) -> u32
    ensures { result ≡ rank buffer_types code }
{
    if code as u64 == EGL_LUMINANCE_BUFFER {
        1
    } else {
        0
    }
}

/// How the list orders a config.
pub fn key(config: &Config, list: &AttribList) -> Key
    ensures { result ≡ key list.now config.now }
{
    [
        caveat_rank(value(config, EGL_CONFIG_CAVEAT as u32)),
        buffer_rank(value(config, EGL_COLOR_BUFFER_TYPE as u32)),
        missing_bits(config, list),
        value(config, EGL_BUFFER_SIZE as u32),
        value(config, EGL_SAMPLE_BUFFERS as u32),
        value(config, EGL_SAMPLES as u32),
        value(config, EGL_DEPTH_SIZE as u32),
        value(config, EGL_STENCIL_SIZE as u32),
        value(config, EGL_ALPHA_MASK_SIZE as u32),
        value(config, EGL_NATIVE_VISUAL_TYPE as u32),
        value(config, EGL_CONFIG_ID as u32),
    ]
}
