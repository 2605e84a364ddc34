//! The table of the configs, and the values of their attributes.
ghost use Rattle.std.specs.Prelude.{◌≡◌};
ghost use Rattle.config_match.specs.Table.{configs, caveat_code, common_attribute, attribute_of};

use crate::surface_bits::{SurfaceBits, surface_number};
use egl_names::codes::{
    EGL_ALPHA_MASK_SIZE, EGL_ALPHA_SIZE, EGL_BIND_TO_TEXTURE_RGB, EGL_BIND_TO_TEXTURE_RGBA,
    EGL_BLUE_SIZE, EGL_BUFFER_SIZE, EGL_COLOR_BUFFER_TYPE, EGL_CONFIG_CAVEAT, EGL_CONFIG_ID,
    EGL_CONFORMANT, EGL_DEPTH_SIZE, EGL_GREEN_SIZE, EGL_LEVEL, EGL_LUMINANCE_SIZE,
    EGL_MAX_PBUFFER_HEIGHT, EGL_MAX_PBUFFER_PIXELS, EGL_MAX_PBUFFER_WIDTH, EGL_MAX_SWAP_INTERVAL,
    EGL_MIN_SWAP_INTERVAL, EGL_NATIVE_RENDERABLE, EGL_NATIVE_VISUAL_ID, EGL_NATIVE_VISUAL_TYPE,
    EGL_NON_CONFORMANT_CONFIG, EGL_NONE, EGL_RED_SIZE, EGL_RENDERABLE_TYPE, EGL_RGB_BUFFER,
    EGL_SAMPLE_BUFFERS, EGL_SAMPLES, EGL_SLOW_CONFIG, EGL_STENCIL_SIZE, EGL_SURFACE_TYPE,
    EGL_TRANSPARENT_BLUE_VALUE, EGL_TRANSPARENT_GREEN_VALUE, EGL_TRANSPARENT_RED_VALUE,
    EGL_TRANSPARENT_TYPE,
};

/// What speaks against a config (EGL 1.5, section 3.4.1.1).
#[derive(Clone, Copy, Debug, PartialEq, Eq, Drop)]
pub enum Caveat {
    NoCaveat,
    Slow,
    NonConformant,
}

/// A config: its id, the bits of its colours, of its depth and of its stencil, its surfaces and its caveat. Every other attribute is the same for all.
#[derive(Clone, Copy, Debug, PartialEq, Eq)]
pub struct Config {
    pub id: u32,
    pub red: u8,
    pub green: u8,
    pub blue: u8,
    pub alpha: u8,
    pub depth: u8,
    pub stencil: u8,
    pub surface: SurfaceBits,
    pub caveat: Caveat,
}

/// The eight configs.
pub fn standard_configs() -> [Config; 8]
    ensures { result ≡ configs }
{
    [
        Config {
            id: 1,
            red: 5,
            green: 6,
            blue: 5,
            alpha: 0,
            depth: 0,
            stencil: 0,
            surface: SurfaceBits::WINDOW_OR_PBUFFER,
            caveat: Caveat::NoCaveat,
        },
        Config {
            id: 2,
            red: 5,
            green: 6,
            blue: 5,
            alpha: 0,
            depth: 16,
            stencil: 0,
            surface: SurfaceBits::WINDOW_OR_PBUFFER,
            caveat: Caveat::NoCaveat,
        },
        Config {
            id: 3,
            red: 8,
            green: 8,
            blue: 8,
            alpha: 0,
            depth: 0,
            stencil: 0,
            surface: SurfaceBits::WINDOW_OR_PBUFFER,
            caveat: Caveat::NoCaveat,
        },
        Config {
            id: 4,
            red: 8,
            green: 8,
            blue: 8,
            alpha: 8,
            depth: 0,
            stencil: 0,
            surface: SurfaceBits::WINDOW_OR_PBUFFER,
            caveat: Caveat::NoCaveat,
        },
        Config {
            id: 5,
            red: 8,
            green: 8,
            blue: 8,
            alpha: 8,
            depth: 24,
            stencil: 8,
            surface: SurfaceBits::WINDOW_OR_PBUFFER,
            caveat: Caveat::NoCaveat,
        },
        Config {
            id: 6,
            red: 4,
            green: 4,
            blue: 4,
            alpha: 4,
            depth: 0,
            stencil: 0,
            surface: SurfaceBits::WINDOW_OR_PBUFFER,
            caveat: Caveat::NoCaveat,
        },
        Config {
            id: 7,
            red: 5,
            green: 5,
            blue: 5,
            alpha: 1,
            depth: 0,
            stencil: 0,
            surface: SurfaceBits::WINDOW_OR_PBUFFER,
            caveat: Caveat::NoCaveat,
        },
        Config {
            id: 8,
            red: 8,
            green: 8,
            blue: 8,
            alpha: 8,
            depth: 0,
            stencil: 0,
            surface: SurfaceBits::PBUFFER_ALONE,
            caveat: Caveat::Slow,
        },
    ]
}

fn caveat_code(caveat: Caveat) -> u32
    ensures { result ≡ caveat_code caveat }
{
    match caveat {
        Caveat::NoCaveat => EGL_NONE as u32,
        Caveat::Slow => EGL_SLOW_CONFIG as u32,
        Caveat::NonConformant => EGL_NON_CONFORMANT_CONFIG as u32,
    }
}

/// The value of an attribute of a config (EGL 1.5, section 3.4); none where the name is no attribute of a config.
#[tactic(auto, unfolding(crate::specs::Table::attribute_of))]
pub fn attribute_of(config: &Config, name: u64) -> Option<u32>
    ensures { result ≡ attribute_of config.now name }
{
    match name {
        EGL_BUFFER_SIZE => Some(
            config.red as u32 + config.green as u32 + config.blue as u32 + config.alpha as u32,
        ),
        EGL_RED_SIZE => Some(config.red as u32),
        EGL_GREEN_SIZE => Some(config.green as u32),
        EGL_BLUE_SIZE => Some(config.blue as u32),
        EGL_ALPHA_SIZE => Some(config.alpha as u32),
        EGL_DEPTH_SIZE => Some(config.depth as u32),
        EGL_STENCIL_SIZE => Some(config.stencil as u32),
        EGL_CONFIG_CAVEAT => Some(caveat_code(config.caveat)),
        EGL_CONFIG_ID => Some(config.id),
        EGL_SURFACE_TYPE => Some(surface_number(config.surface)),
        _ => common_attribute(name),
    }
}

/// The value of an attribute that is the same for all configs.
fn common_attribute(name: u64) -> Option<u32>
    ensures { result ≡ common_attribute name }
{
    match name {
        EGL_LUMINANCE_SIZE | EGL_ALPHA_MASK_SIZE | EGL_SAMPLE_BUFFERS | EGL_SAMPLES => Some(0),
        EGL_BIND_TO_TEXTURE_RGB | EGL_BIND_TO_TEXTURE_RGBA => Some(0),
        EGL_MAX_SWAP_INTERVAL | EGL_MIN_SWAP_INTERVAL => Some(1),
        EGL_NATIVE_RENDERABLE | EGL_NATIVE_VISUAL_ID => Some(0),
        EGL_NATIVE_VISUAL_TYPE | EGL_TRANSPARENT_TYPE => Some(EGL_NONE as u32),
        EGL_TRANSPARENT_RED_VALUE | EGL_TRANSPARENT_GREEN_VALUE | EGL_TRANSPARENT_BLUE_VALUE =>
            Some(0),
        EGL_COLOR_BUFFER_TYPE => Some(EGL_RGB_BUFFER as u32),
        EGL_LEVEL => Some(0),
        EGL_RENDERABLE_TYPE | EGL_CONFORMANT => Some(1),
        EGL_MAX_PBUFFER_WIDTH | EGL_MAX_PBUFFER_HEIGHT => Some(2_048),
        EGL_MAX_PBUFFER_PIXELS => Some(4_194_304),
        _ => None,
    }
}
