//! The text of the configs.
ghost use Rattle.std.specs.Prelude.{◌≡◌, ◌++◌, codes, IfOk, OnOk};
ghost use Rattle.std.specs.List.{flat_map};
ghost use Rattle.egl_cli.specs.ConfigLines.{attribute_text, line_with_id, configs_text};

use config_match::Configs;
use egl_calls::{Bytes, NoMemory};
use egl_names::codes::{
    EGL_ALPHA_SIZE, EGL_BLUE_SIZE, EGL_CONFIG_CAVEAT, EGL_CONFIG_ID, EGL_DEPTH_SIZE,
    EGL_GREEN_SIZE, EGL_RED_SIZE, EGL_STENCIL_SIZE, EGL_SURFACE_TYPE,
};
use journal_text::texts::{put_number, put_text};
use std::alloc::Global;

const IDS: [i64; 8] = [1, 2, 3, 4, 5, 6, 7, 8];

/// What a line shows behind the id.
const SHOWN: [i64; 8] = [
    EGL_RED_SIZE as i64,
    EGL_GREEN_SIZE as i64,
    EGL_BLUE_SIZE as i64,
    EGL_ALPHA_SIZE as i64,
    EGL_DEPTH_SIZE as i64,
    EGL_STENCIL_SIZE as i64,
    EGL_SURFACE_TYPE as i64,
    EGL_CONFIG_CAVEAT as i64,
];

/// An attribute's value.
fn put_attribute(out: &mut Bytes, configs: &Configs, id: i64, name: i64) -> Result<(), NoMemory>
    ensures { OnOk result (out.new ≡ out.old ++ attribute_text id name) }
{
    match configs.attribute(id, name) {
        Some(value) => put_number(out, value),
        None => put_number(out, 0),
    }
}

/// A space before each value.
fn put_attributes(
    out: &mut Bytes,
    configs: &Configs,
    id: i64,
    names: &[i64],
) -> Result<(), NoMemory>
    ensures { OnOk result (out.new ≡ out.old ++ flat_map (λ name. codes " " ++ attribute_text id name) names.now) }
{
    'each: for name in names {
        put_text(out, " ")?;
        put_attribute(out, configs, id, *name)?;
    }
    Ok(())
}

/// The line of the config with an id.
#[tactic(auto, using(crate::proofs::ConfigLaws::line_put))]
fn put_line(out: &mut Bytes, configs: &Configs, id: i64) -> Result<(), NoMemory>
    ensures { OnOk result (out.new ≡ out.old ++ line_with_id id) }
{
    put_attribute(out, configs, id, EGL_CONFIG_ID as i64)?;
    put_attributes(out, configs, id, &SHOWN)?;
    put_text(out, "\n")
}

fn put_lines(out: &mut Bytes, configs: &Configs, ids: &[i64]) -> Result<(), NoMemory>
    ensures { OnOk result (out.new ≡ out.old ++ flat_map line_with_id ids.now) }
{
    'each: for id in ids {
        put_line(out, configs, *id)?;
    }
    Ok(())
}

/// The eight configs, a line for each.
#[tactic(auto, using(crate::proofs::ConfigLaws::all_lines))]
pub fn configs_text(alloc: Global) -> Result<Bytes, NoMemory>
    ensures { IfOk result (λ b. b ≡ configs_text) }
{
    let mut out = Bytes::new(alloc);
    put_lines(&mut out, &Configs::standard(), &IDS)?;
    Ok(out)
}
