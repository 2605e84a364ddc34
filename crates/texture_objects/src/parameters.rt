//! The values of a texture's parameters, and their codes.
ghost use Rattle.std.specs.Prelude.{◌≡◌, ◌^◌, ◌<◌};
ghost use Rattle.texture_objects.specs.MagFilters as mag;
ghost use Rattle.texture_objects.specs.MinFilters as min;
ghost use Rattle.texture_objects.specs.Textures.{is_parameter_pair};
ghost use Rattle.texture_objects.specs.WrapModes as wrap;

use egl_names::codes::{
    GL_CLAMP_TO_EDGE, GL_LINEAR, GL_LINEAR_MIPMAP_LINEAR, GL_LINEAR_MIPMAP_NEAREST, GL_NEAREST,
    GL_NEAREST_MIPMAP_LINEAR, GL_NEAREST_MIPMAP_NEAREST, GL_REPEAT, GL_TEXTURE_MAG_FILTER,
    GL_TEXTURE_MIN_FILTER, GL_TEXTURE_WRAP_S, GL_TEXTURE_WRAP_T,
};

/// How a texture is drawn smaller: the filter within a level, and with mipmaps that between levels (OpenGL ES 1.1, "Texture Minification").
#[derive(Clone, Copy, Debug, PartialEq, Eq, Drop)]
pub enum MinFilter {
    Nearest,
    Linear,
    NearestMipmapNearest,
    LinearMipmapNearest,
    NearestMipmapLinear,
    LinearMipmapLinear,
}

/// How a texture is drawn larger (OpenGL ES 1.1, "Texture Magnification").
#[derive(Clone, Copy, Debug, PartialEq, Eq, Drop)]
pub enum MagFilter {
    Nearest,
    Linear,
}

/// What stands outside a texture: its copies, or its edge (OpenGL ES 1.1, "Texture Wrap Modes").
#[derive(Clone, Copy, Debug, PartialEq, Eq, Drop)]
pub enum WrapMode {
    Repeat,
    ClampToEdge,
}

fn is_min_filter(code: u64) -> bool
    ensures { result ≡ min.is_min_filter code }
{
    code == GL_NEAREST
        || code == GL_LINEAR
        || code == GL_NEAREST_MIPMAP_NEAREST
        || code == GL_LINEAR_MIPMAP_NEAREST
        || code == GL_NEAREST_MIPMAP_LINEAR
        || code == GL_LINEAR_MIPMAP_LINEAR
}

fn is_mag_filter(code: u64) -> bool
    ensures { result ≡ mag.is_mag_filter code }
{
    code == GL_NEAREST || code == GL_LINEAR
}

fn is_wrap_mode(code: u64) -> bool
    ensures { result ≡ wrap.is_wrap_mode code }
{
    code == GL_REPEAT || code == GL_CLAMP_TO_EDGE
}

/// Whether a parameter of glTexParameterx may have a value, both by their codes (OpenGL ES 1.1, "Texture Parameters").
pub fn is_parameter_pair(pname: u64, value: u64) -> bool
    ensures { result ≡ is_parameter_pair pname value }
{
    pname == GL_TEXTURE_MIN_FILTER && is_min_filter(value)
        || pname == GL_TEXTURE_MAG_FILTER && is_mag_filter(value)
        || (pname == GL_TEXTURE_WRAP_S || pname == GL_TEXTURE_WRAP_T) && is_wrap_mode(value)
}

/// The filter of a code.
pub(crate) fn min_filter_of(code: u64) -> Option<MinFilter>
    ensures { result ≡ min.min_filter_of code }
{
    if code == GL_NEAREST {
        return Some(MinFilter::Nearest);
    }
    if code == GL_LINEAR {
        return Some(MinFilter::Linear);
    }
    if code == GL_NEAREST_MIPMAP_NEAREST {
        return Some(MinFilter::NearestMipmapNearest);
    }
    if code == GL_LINEAR_MIPMAP_NEAREST {
        return Some(MinFilter::LinearMipmapNearest);
    }
    if code == GL_NEAREST_MIPMAP_LINEAR {
        return Some(MinFilter::NearestMipmapLinear);
    }
    if code == GL_LINEAR_MIPMAP_LINEAR {
        return Some(MinFilter::LinearMipmapLinear);
    }
    None
}

/// The code of a filter.
pub(crate) fn min_filter_code(filter: MinFilter) -> u64
    ensures value { result ≡ min.min_filter_code filter }
    ensures within { result < 2 ^ 32 }
{
    match filter {
        MinFilter::Nearest => GL_NEAREST,
        MinFilter::Linear => GL_LINEAR,
        MinFilter::NearestMipmapNearest => GL_NEAREST_MIPMAP_NEAREST,
        MinFilter::LinearMipmapNearest => GL_LINEAR_MIPMAP_NEAREST,
        MinFilter::NearestMipmapLinear => GL_NEAREST_MIPMAP_LINEAR,
        MinFilter::LinearMipmapLinear => GL_LINEAR_MIPMAP_LINEAR,
    }
}

/// Whether levels above 0 count for a filter.
pub(crate) fn uses_mipmaps(filter: MinFilter) -> bool
    ensures { result ≡ min.uses_mipmaps filter }
{
    match filter {
        MinFilter::Nearest | MinFilter::Linear => false,
        MinFilter::NearestMipmapNearest
        | MinFilter::LinearMipmapNearest
        | MinFilter::NearestMipmapLinear
        | MinFilter::LinearMipmapLinear => true,
    }
}

/// The filter of a code.
pub(crate) fn mag_filter_of(code: u64) -> Option<MagFilter>
    ensures { result ≡ mag.mag_filter_of code }
{
    if code == GL_NEAREST {
        return Some(MagFilter::Nearest);
    }
    if code == GL_LINEAR {
        return Some(MagFilter::Linear);
    }
    None
}

/// The code of a filter.
pub(crate) fn mag_filter_code(filter: MagFilter) -> u64
    ensures value { result ≡ mag.mag_filter_code filter }
    ensures within { result < 2 ^ 32 }
{
    match filter {
        MagFilter::Nearest => GL_NEAREST,
        MagFilter::Linear => GL_LINEAR,
    }
}

/// The mode of a code.
pub(crate) fn wrap_mode_of(code: u64) -> Option<WrapMode>
    ensures { result ≡ wrap.wrap_mode_of code }
{
    if code == GL_REPEAT {
        return Some(WrapMode::Repeat);
    }
    if code == GL_CLAMP_TO_EDGE {
        return Some(WrapMode::ClampToEdge);
    }
    None
}

/// The code of a mode.
pub(crate) fn wrap_mode_code(mode: WrapMode) -> u64
    ensures value { result ≡ wrap.wrap_mode_code mode }
    ensures within { result < 2 ^ 32 }
{
    match mode {
        WrapMode::Repeat => GL_REPEAT,
        WrapMode::ClampToEdge => GL_CLAMP_TO_EDGE,
    }
}
