//! Textures: how they are sampled, when their levels are complete, and the pixels that calls give them
//! (OpenGL ES 1.1, "Texturing"; OES_draw_texture).
//!
//! A texture keeps its parameters. The pixels of a level stand in a storage of its own; what is said of
//! them here needs their format and sides alone.
//!
//! It knows no name, no context and no storage: of pixels it knows format and sides.
//!
//! Its tests are in `pixel_check`.
#![tactic(auto)]

mod forms;
mod laws;
mod levels;
mod parameters;
mod textures;
mod uploads;

pub use forms::{base_code, form_of};
pub use laws::{
    accepts_the_table, answers_what_is_set, is_complete_by_its_levels, is_floor_of_log,
    is_plain_without_mipmaps, keeps_other_parameters, null_gives_a_part_zeros, null_gives_zeros,
    reads_pixels_at_their_places, samples_the_greatest_level,
};
pub use levels::{LEVELS, Shape};
pub use parameters::{MagFilter, MinFilter, WrapMode, is_parameter_pair};
pub use textures::Texture;
pub use uploads::{tex_image, tex_sub_image};
