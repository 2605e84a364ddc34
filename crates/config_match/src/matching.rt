//! Which configs an attribute list chooses (EGL 1.5, section 3.4.1).
ghost use Rattle.std.specs.Prelude.{◌≡◌, ◌==◌, pos, int_le, bit_and};
ghost use Rattle.std.specs.List.{list_all};
ghost use Rattle.std.specs.Ordering.{int_eq};
ghost use Rattle.config_match.specs.Configs.{wanted, value, has_at_least, has_exactly, has_bits, meets_all, matches};

use crate::surface_bits::has_surface_bits;
use crate::table::{Config, attribute_of};
use attrib_lists::{AttribList, is_dont_care};
use egl_calls::unsigned;
use egl_names::codes::{
    EGL_ALPHA_MASK_SIZE, EGL_ALPHA_SIZE, EGL_BIND_TO_TEXTURE_RGB, EGL_BIND_TO_TEXTURE_RGBA,
    EGL_BLUE_SIZE, EGL_BUFFER_SIZE, EGL_COLOR_BUFFER_TYPE, EGL_CONFIG_CAVEAT, EGL_CONFIG_ID,
    EGL_CONFORMANT, EGL_DEPTH_SIZE, EGL_DONT_CARE, EGL_GREEN_SIZE, EGL_LEVEL, EGL_LUMINANCE_SIZE,
    EGL_MAX_SWAP_INTERVAL, EGL_MIN_SWAP_INTERVAL, EGL_NATIVE_RENDERABLE, EGL_NONE,
    EGL_OPENGL_ES_BIT, EGL_RED_SIZE, EGL_RENDERABLE_TYPE, EGL_RGB_BUFFER, EGL_SAMPLE_BUFFERS,
    EGL_SAMPLES, EGL_STENCIL_SIZE, EGL_SURFACE_TYPE, EGL_TRANSPARENT_TYPE, EGL_WINDOW_BIT,
};

/// The attributes that a config must have at least, all 0 by default.
static AT_LEAST: [u32; 11] = [
    EGL_BUFFER_SIZE as u32,
    EGL_RED_SIZE as u32,
    EGL_GREEN_SIZE as u32,
    EGL_BLUE_SIZE as u32,
    EGL_ALPHA_SIZE as u32,
    EGL_LUMINANCE_SIZE as u32,
    EGL_ALPHA_MASK_SIZE as u32,
    EGL_DEPTH_SIZE as u32,
    EGL_STENCIL_SIZE as u32,
    EGL_SAMPLE_BUFFERS as u32,
    EGL_SAMPLES as u32,
];

/// The attributes that a config must have exactly, with the defaults.
static EXACT: [(u32, i64); 10] = [
    (EGL_BIND_TO_TEXTURE_RGB as u32, EGL_DONT_CARE),
    (EGL_BIND_TO_TEXTURE_RGBA as u32, EGL_DONT_CARE),
    (EGL_CONFIG_CAVEAT as u32, EGL_DONT_CARE),
    (EGL_CONFIG_ID as u32, EGL_DONT_CARE),
    (EGL_MAX_SWAP_INTERVAL as u32, EGL_DONT_CARE),
    (EGL_MIN_SWAP_INTERVAL as u32, EGL_DONT_CARE),
    (EGL_NATIVE_RENDERABLE as u32, EGL_DONT_CARE),
    (EGL_COLOR_BUFFER_TYPE as u32, EGL_RGB_BUFFER as i64),
    (EGL_LEVEL as u32, 0),
    (EGL_TRANSPARENT_TYPE as u32, EGL_NONE as i64),
];

/// The attributes of which a config must have all bits, with the defaults.
static MASK: [(u32, i64); 3] = [
    (EGL_SURFACE_TYPE as u32, EGL_WINDOW_BIT as i64),
    (EGL_RENDERABLE_TYPE as u32, EGL_OPENGL_ES_BIT as i64),
    (EGL_CONFORMANT as u32, 0),
];

/// What a list asks for: the value of the last pair with the attribute, else the default.
pub fn wanted(list: &AttribList, name: u32, default: i64) -> i64
    ensures { result ≡ wanted list.now name default }
{
    list.get(name as i64).unwrap_or(default)
}

/// The value of an attribute of a config.
pub fn value(config: &Config, name: u32) -> u32
    ensures { result ≡ value config.now name }
{
    attribute_of(config, name as u64).unwrap_or(0)
}

/// Whether a number that is asked for is at most the value.
fn is_at_most(wanted: i64, value: u32) -> bool
    ensures { result ≡ int_le wanted (pos value) }
{
    if wanted < 0 {
        true
    } else {
        wanted as u64 <= value as u64
    }
}

/// Whether a number that is asked for is the value.
fn is_number(wanted: i64, value: u32) -> bool
    ensures { result ≡ int_eq wanted (pos value) }
{
    if wanted < 0 {
        false
    } else {
        wanted as u64 == value as u64
    }
}

#[tactic(auto, unfolding(crate::specs::Configs::has_at_least))]
fn has_at_least(config: &Config, name: u32, wanted: i64) -> bool
    ensures { result ≡ has_at_least config.now name wanted }
{
    is_dont_care(wanted) || is_at_most(wanted, value(config, name))
}

#[tactic(auto, unfolding(crate::specs::Configs::has_exactly))]
fn has_exactly(config: &Config, name: u32, wanted: i64) -> bool
    ensures { result ≡ has_exactly config.now name wanted }
{
    (is_dont_care(wanted) && name as u64 != EGL_LEVEL) || is_number(wanted, value(config, name))
}

/// Whether an attribute of a config has every one of some bits.
#[tactic(auto, using(crate::proofs::MatchLaws::surface_bits_are))]
fn has_all(config: &Config, name: u32, bits: u64) -> bool
    ensures { result ≡ (bit_and (value config.now name) bits == bits) }
{
    if name as u64 == EGL_SURFACE_TYPE {
        return has_surface_bits(config.surface, bits);
    }
    value(config, name) as u64 & bits == bits
}

#[tactic(auto, unfolding(crate::specs::Configs::has_bits))]
fn has_bits(config: &Config, name: u32, wanted: i64) -> bool
    ensures { result ≡ has_bits config.now name wanted }
{
    is_dont_care(wanted) || has_all(config, name, unsigned(wanted))
}

fn meets_at_least(config: &Config, list: &AttribList, names: &[u32]) -> bool
    ensures { result ≡ list_all (λ name. has_at_least config.now name (wanted list.now name (pos 0))) names.now }
{
    for name in names {
        if !has_at_least(config, *name, wanted(list, *name, 0)) {
            return false;
        }
    }
    true
}

fn meets_exactly(config: &Config, list: &AttribList, names: &[(u32, i64)]) -> bool
    ensures { result ≡ list_all (λ e. has_exactly config.now e.0 (wanted list.now e.0 e.1)) names.now }
{
    for entry in names {
        if !has_exactly(config, entry.0, wanted(list, entry.0, entry.1)) {
            return false;
        }
    }
    true
}

fn meets_bits(config: &Config, list: &AttribList, names: &[(u32, i64)]) -> bool
    ensures { result ≡ list_all (λ e. has_bits config.now e.0 (wanted list.now e.0 e.1)) names.now }
{
    for entry in names {
        if !has_bits(config, entry.0, wanted(list, entry.0, entry.1)) {
            return false;
        }
    }
    true
}

/// Whether a config meets each criterion of a list.
fn meets_all(config: &Config, list: &AttribList) -> bool
    ensures { result ≡ meets_all list.now config.now }
{
    if !meets_at_least(config, list, &AT_LEAST) {
        return false;
    }
    if !meets_exactly(config, list, &EXACT) {
        return false;
    }
    meets_bits(config, list, &MASK)
}

/// Whether a list chooses a config. An id that is asked for decides alone.
#[tactic(auto, unfolding(crate::specs::Configs::matches))]
pub fn matches(config: &Config, list: &AttribList) -> bool
    ensures { result ≡ matches list.now config.now }
{
    let id = wanted(list, EGL_CONFIG_ID as u32, EGL_DONT_CARE);
    if is_dont_care(id) {
        return meets_all(config, list);
    }
    is_number(id, config.id)
}
