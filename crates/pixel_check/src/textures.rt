//! What a texture keeps: its parameters as they are asked for, and levels of sides that no call gives.
use egl_names::codes;
use pixel_formats::Format;
use std::process::Abort;
use texture_objects::{LEVELS, Shape, Texture};

/// The code of a name.
macro_rules! code {
    ($name:ident) => {
        codes::$name as i64
    };
}

const MIN: i64 = code!(GL_TEXTURE_MIN_FILTER);

const MAG: i64 = code!(GL_TEXTURE_MAG_FILTER);

const WRAP_S: i64 = code!(GL_TEXTURE_WRAP_S);

const WRAP_T: i64 = code!(GL_TEXTURE_WRAP_T);

/// The four parameters of a texture.
fn told(texture: &Texture) -> [Option<i64>; 4] {
    [
        texture.param(MIN),
        texture.param(MAG),
        texture.param(WRAP_S),
        texture.param(WRAP_T),
    ]
}

const AT_FIRST: [Option<i64>; 4] = [
    Some(code!(GL_NEAREST_MIPMAP_LINEAR)),
    Some(code!(GL_LINEAR)),
    Some(code!(GL_REPEAT)),
    Some(code!(GL_REPEAT)),
];

/// Each pair that is set; those of a parameter end with its first value.
static PAIRS: [(i64, i64); 12] = [
    (MIN, code!(GL_NEAREST)),
    (MIN, code!(GL_LINEAR)),
    (MIN, code!(GL_NEAREST_MIPMAP_NEAREST)),
    (MIN, code!(GL_LINEAR_MIPMAP_NEAREST)),
    (MIN, code!(GL_LINEAR_MIPMAP_LINEAR)),
    (MIN, code!(GL_NEAREST_MIPMAP_LINEAR)),
    (MAG, code!(GL_NEAREST)),
    (MAG, code!(GL_LINEAR)),
    (WRAP_S, code!(GL_CLAMP_TO_EDGE)),
    (WRAP_S, code!(GL_REPEAT)),
    (WRAP_T, code!(GL_CLAMP_TO_EDGE)),
    (WRAP_T, code!(GL_REPEAT)),
];

#[test]
fn parameters_are_answered_as_they_were_set(rt: HostRuntime) {
    let mut texture = Texture::new();
    assert!(rt; told(&texture) == AT_FIRST);
    for (pname, value) in PAIRS.iter() {
        assert!(rt; texture.set_param(*pname, *value), "{pname} {value}");
        assert!(rt; texture.param(*pname) == Some(*value), "{pname} {value}");
    }
    assert!(rt; told(&texture) == AT_FIRST);
}

/// Pairs that aren't set.
static BESIDE: [(i64, i64); 14] = [
    (MIN, code!(GL_REPEAT)),
    (MIN, 0),
    (MIN, -1),
    (MAG, code!(GL_NEAREST_MIPMAP_NEAREST)),
    (MAG, code!(GL_LINEAR_MIPMAP_LINEAR)),
    (MAG, code!(GL_CLAMP_TO_EDGE)),
    (WRAP_S, code!(GL_NEAREST)),
    (WRAP_T, code!(GL_LINEAR)),
    (WRAP_T, code!(GL_TEXTURE_WRAP_T)),
    (code!(GL_TEXTURE_CROP_RECT_OES), code!(GL_NEAREST)),
    (code!(GL_TEXTURE_2D), code!(GL_REPEAT)),
    (0, code!(GL_NEAREST)),
    (-1, code!(GL_LINEAR)),
    (i64::MIN, i64::MAX),
];

#[test]
fn other_pairs_change_nothing(rt: HostRuntime) {
    let mut texture = Texture::new();
    for (pname, value) in BESIDE.iter() {
        assert!(rt; !texture.set_param(*pname, *value), "{pname} {value}");
        assert!(rt; texture.param(*pname) != Some(*value), "{pname} {value}");
    }
    assert!(rt; told(&texture) == AT_FIRST);
}

#[test]
fn a_texture_of_the_same_parameters_keeps_them(rt: HostRuntime) {
    let mut texture = Texture::new();
    texture.set_crop(-2_147_483_648, 4_294_967_295, 1, -1);
    assert!(rt; texture.set_param(MAG, code!(GL_NEAREST)));
    let same = texture.same_params();
    texture.set_crop(9, 8, 7, 6);
    assert!(rt; same.crop() == [-2_147_483_648, 4_294_967_295, 1, -1]);
    assert!(rt; told(&same) == told(&texture));
}

/// The sides of the levels from 0 on, and whether they are complete with mipmaps. The last two begin longer than a texture's: there is no level for the last of their mipmaps.
static CHAINS: [(&[(u32, u32)], bool); 6] = [
    (&[(0, 0)], true),
    (&[(7, 5), (3, 2), (1, 1)], true),
    (&[(7, 5), (3, 2), (1, 1), (9, 9)], true),
    (&[(7, 5), (4, 3), (2, 2), (1, 1)], false),
    (
        &[
            (2_048, 1),
            (1_024, 1),
            (512, 1),
            (256, 1),
            (128, 1),
            (64, 1),
            (32, 1),
            (16, 1),
            (8, 1),
            (4, 1),
            (2, 1),
        ],
        false,
    ),
    (&[(1, u32::MAX)], false),
];

/// Levels of these sides.
fn levels(low: &[(u32, u32)]) -> [Option<Shape>; LEVELS] {
    let mut all = [None; LEVELS];
    for (level, (w, h)) in all.iter_mut().zip(low.iter()) {
        *level = Some(Shape {
            format: Format::Rgba8888,
            w: *w,
            h: *h,
        });
    }
    all
}

#[test]
fn levels_are_complete_down_to_one_pixel(rt: HostRuntime) {
    for (low, is_complete) in CHAINS.iter() {
        let all = levels(low);
        let mut texture = Texture::new();
        assert!(rt; texture.is_complete(&all) == *is_complete, "{low:?}");
        assert!(rt; texture.set_param(MIN, code!(GL_NEAREST)) && texture.is_complete(&all));
    }
}
