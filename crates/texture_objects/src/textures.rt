//! Textures.
ghost use Rattle.std.specs.Prelude.{◌≡◌, ◌<◌, true, pos, ◌<ℤ◌, All, IfSome, IsSome, is_some, length, unwrap_or};
ghost use Rattle.egl_calls.specs.Ranges.{IsNumber, unsigned};
ghost use Rattle.texture_objects.specs.Levels as values;
ghost use Rattle.texture_objects.specs.Textures.{crop_of, fresh, parameter, with_parameter};

use crate::levels::{LEVELS, Shape, Sides, is_complete, sampled_level};
use crate::parameters::{
    MagFilter, MinFilter, WrapMode, mag_filter_code, mag_filter_of, min_filter_code, min_filter_of,
    wrap_mode_code, wrap_mode_of,
};
use egl_calls::unsigned;
use egl_names::codes::{
    GL_TEXTURE_MAG_FILTER, GL_TEXTURE_MIN_FILTER, GL_TEXTURE_WRAP_S, GL_TEXTURE_WRAP_T,
};
use std::marker::Model;

/// A texture's parameters: filters, wrap modes, and the crop rectangle, in texels, of draws by OES_draw_texture.
///
/// None of its calls takes memory.
#[derive(Drop)]
pub struct Texture {
    min_filter: MinFilter,
    mag_filter: MagFilter,
    wrap_s: WrapMode,
    wrap_t: WrapMode,
    // left, bottom, width and height
    crop: [i64; 4],
}

impl Model for Texture {
    ghost use Rattle.texture_objects.specs.Textures.{IsCrop, TextureValue};

    ghost Value = { TextureValue };

    ghost view = { λ t. record { min_filter = t.min_filter; mag_filter = t.mag_filter; wrap_s = t.wrap_s; wrap_t = t.wrap_t; crop = t.crop } };

    ghost invariant = { λ t. IsCrop t.crop };
}

impl Texture {
    /// A texture whose filters are GL_NEAREST_MIPMAP_LINEAR and GL_LINEAR, whose wrap modes are GL_REPEAT, and whose crop rectangle is all 0.
    pub fn new() -> Texture
        ensures { result ≡ fresh }
    {
        Texture {
            min_filter: MinFilter::NearestMipmapLinear,
            mag_filter: MagFilter::Linear,
            wrap_s: WrapMode::Repeat,
            wrap_t: WrapMode::Repeat,
            crop: [0; 4],
        }
    }

    /// Sets a parameter of glTexParameterx, both numbers being codes. Answers false, and changes nothing, exactly where the two are no pair of the table: one of six minifying filters, one of two magnifying filters, or one of two wrap modes for s or t (OpenGL ES 1.1, "Texture Parameters").
    pub fn set_param(&mut self, pname: i64, value: i64) -> bool
        ensures accepted { result ≡ is_some (with_parameter (unsigned pname) (unsigned value) self.old) }
        ensures set { self.new ≡ unwrap_or (with_parameter (unsigned pname) (unsigned value) self.old) self.old }
    {
        let pname = unsigned(pname);
        let value = unsigned(value);
        if pname == GL_TEXTURE_MIN_FILTER {
            let Some(filter) = min_filter_of(value) else {
                return false;
            };
            self.min_filter = filter;
            return true;
        }
        if pname == GL_TEXTURE_MAG_FILTER {
            let Some(filter) = mag_filter_of(value) else {
                return false;
            };
            self.mag_filter = filter;
            return true;
        }
        if pname == GL_TEXTURE_WRAP_S {
            let Some(mode) = wrap_mode_of(value) else {
                return false;
            };
            self.wrap_s = mode;
            return true;
        }
        if pname == GL_TEXTURE_WRAP_T {
            let Some(mode) = wrap_mode_of(value) else {
                return false;
            };
            self.wrap_t = mode;
            return true;
        }
        false
    }

    /// Sets the crop rectangle, in texels: its left, its bottom, its width and its height, of which a negative one turns the picture (OES_draw_texture, GL_TEXTURE_CROP_RECT_OES). Each is a 32-bit number, signed or not.
    pub fn set_crop(&mut self, u: i64, v: i64, w: i64, h: i64)
        requires u { IsNumber u }
        requires v { IsNumber v }
        requires w { IsNumber w }
        requires h { IsNumber h }
        ensures { self.new ≡ record self.old { crop = crop_of u v w h } }
    {
        self.crop = [u, v, w, h];
    }

    /// The code that a parameter of glTexParameterx has as its value; none where the number is no such parameter.
    pub fn param(&self, pname: i64) -> Option<i64>
        ensures value { result ≡ parameter (unsigned pname) self.now }
        ensures number { IfSome result IsNumber }
    {
        let pname = unsigned(pname);
        if pname == GL_TEXTURE_MIN_FILTER {
            return Some(min_filter_code(self.min_filter) as i64);
        }
        if pname == GL_TEXTURE_MAG_FILTER {
            return Some(mag_filter_code(self.mag_filter) as i64);
        }
        if pname == GL_TEXTURE_WRAP_S {
            return Some(wrap_mode_code(self.wrap_s) as i64);
        }
        if pname == GL_TEXTURE_WRAP_T {
            return Some(wrap_mode_code(self.wrap_t) as i64);
        }
        None
    }

    /// What stands left and right of the texture.
    pub fn wrap_s(&self) -> WrapMode
        ensures { result ≡ self.now.wrap_s }
    {
        self.wrap_s
    }

    /// What stands below and above the texture.
    pub fn wrap_t(&self) -> WrapMode
        ensures { result ≡ self.now.wrap_t }
    {
        self.wrap_t
    }

    /// The crop rectangle, in texels: its left, its bottom, its width and its height.
    pub fn crop(&self) -> [i64; 4]
        ensures value { result ≡ self.now.crop }
        ensures four { length result ≡ 4 }
        ensures numbers { All IsNumber result }
    {
        self.crop
    }

    /// A texture with the same parameters.
    pub fn same_params(&self) -> Texture
        ensures { result ≡ self.now }
    {
        Texture {
            min_filter: self.min_filter,
            mag_filter: self.mag_filter,
            wrap_s: self.wrap_s,
            wrap_t: self.wrap_t,
            crop: self.crop,
        }
    }

    /// Whether the texture is complete with storages of these shapes at its levels: level 0 has one, and where the minifying filter uses mipmaps, each further level has one of the same format with sides halved from level to level, down to 1 by 1 (OpenGL ES 1.1, "Texture Completeness").
    pub fn is_complete(&self, levels: &[Option<Shape>; LEVELS]) -> bool
        ensures { result ≡ values.is_complete self.now levels.now }
    {
        is_complete(self.min_filter, levels)
    }

    /// The level that a draw of `w` by `h`, both in 16.16 fixed point, samples: 0 where the minifying filter uses no mipmaps, and else the greatest level in which the crop rectangle has no fewer texels than the draw has pixels, by its width or by its height.
    pub fn level_for(&self, levels: &[Option<Shape>; LEVELS], w: i64, h: i64) -> u32
        requires complete { values.is_complete self.now levels.now ≡ true }
        requires width { pos 0 <ℤ w }
        requires height { pos 0 <ℤ h }
        ensures value { result ≡ values.level_for self.now levels.now (unsigned w) (unsigned h) }
        ensures stored { IsSome (values.level_at levels.now result) }
        ensures within { result < 11 }
    {
        let [_, _, width, height] = self.crop;
        let cut = Sides {
            w: width.unsigned_abs(),
            h: height.unsigned_abs(),
        };
        let drawn = Sides {
            w: unsigned(w),
            h: unsigned(h),
        };
        sampled_level(self.min_filter, levels, cut, drawn)
    }
}
