//! The configs as a whole.
ghost use Rattle.std.specs.Prelude.{◌≡◌, ◌≤ℤ◌, true, None, pos, map, filter, is_some, All, IfOk, IfSome, OnOk, IfErr};
ghost use Rattle.std.specs.Option.{option_copied, option_map};
ghost use Rattle.attrib_lists.specs.Lists.{bad_place};
ghost use Rattle.attrib_lists.specs.Causes.{IsCause};
ghost use Rattle.egl_calls.specs.Ranges.{IsNumber};
ghost use Rattle.config_match.specs.Table.{config_in, attribute_in, attribute, configs, is_config, all_ids};
ghost use Rattle.config_match.specs.Compatible.{are_compatible};
ghost use Rattle.config_match.specs.Configs.{matches, key, id_of_key, chosen};
ghost use Rattle.config_match.specs.Keys.{rising};

use crate::compatible::are_compatible_in;
use crate::key::{Key, key};
use crate::matching::matches;
use crate::table::{Config, attribute_of, standard_configs};
use attrib_lists::{Allowed, AttribError, AttribList};
use egl_calls::{NoMemory, Numbers, unsigned};
use std::alloc::Global;
use std::marker::Model;

/// The configs of the driver, always the same eight.
#[derive(Drop)]
pub struct Configs {
    rows: [Config; 8],
}

impl Model for Configs {
    ghost use Rattle.std.specs.Prelude.{◌≡◌, List};
    ghost use Rattle.config_match.specs.declared.table.Config.{Config};
    ghost use Rattle.config_match.specs.Table.{configs};

    ghost Value = { List Config };

    ghost view = { λ c. c.rows };

    ghost invariant = { λ c. c.rows ≡ configs };
}

/// The config with an id.
pub(crate) fn config_in(rows: &[Config], id: u64) -> Option<&Config>
    ensures { option_copied result ≡ config_in rows.now id }
{
    for config in rows {
        if id == config.id as u64 {
            return Some(config);
        }
    }
    None
}

/// Whether a config has an id.
fn is_config_in(rows: &[Config], id: u64) -> bool
    ensures { result ≡ is_some (config_in rows.now id) }
{
    config_in(rows, id).is_some()
}

/// The value of an attribute of the config with an id.
fn attribute_in(rows: &[Config], id: u64, name: u64) -> Option<u32>
    ensures { result ≡ attribute_in rows.now id name }
{
    match config_in(rows, id) {
        Some(config) => attribute_of(config, name),
        None => None,
    }
}

fn signed(value: Option<u32>) -> Option<i64>
    ensures value { result ≡ option_map pos value }
    ensures number { IfSome result IsNumber }
{
    match value {
        Some(value) => Some(value as i64),
        None => None,
    }
}

/// The keys of the configs that a list chooses.
fn keys_of(alloc: Global, rows: &[Config], list: &AttribList) -> Result<Vec<Key>, AttribError>
    ensures keys { IfOk result (λ keys. keys.items ≡ map (key list.now) (filter (matches list.now) rows.now)) }
    ensures memory { IfErr result (λ e. e ≡ AttribError.NoMemory) }
{
    let mut keys = Vec::new(alloc);
    for config in rows {
        if matches(config, list) {
            if keys.push(key(config, list)).is_err() {
                return Err(AttribError::NoMemory);
            }
        }
    }
    Ok(keys)
}

/// The keys in rising order.
fn in_order(mut keys: Vec<Key>) -> Result<Vec<Key>, AttribError>
    ensures order { IfOk result (λ sorted. sorted.items ≡ rising keys.items) }
    ensures memory { IfErr result (λ e. e ≡ AttribError.NoMemory) }
{
    match keys.sort() {
        Ok(()) => Ok(keys),
        Err(_) => Err(AttribError::NoMemory),
    }
}

/// The last part of a key.
fn id_of_key(key: &Key) -> i64
    ensures id { result ≡ id_of_key key.now }
    ensures number { IsNumber result }
{
    key[10] as i64
}

/// The ids of some keys.
fn ids_of(alloc: Global, keys: &[Key]) -> Result<Numbers, AttribError>
    ensures ids { IfOk result (λ ids. ids ≡ map id_of_key keys.now) }
    ensures numbers { IfOk result (λ ids. All IsNumber ids) }
    ensures memory { IfErr result (λ e. e ≡ AttribError.NoMemory) }
{
    let mut ids = Numbers::new(alloc);
    for key in keys {
        if ids.push(id_of_key(key)).is_err() {
            return Err(AttribError::NoMemory);
        }
    }
    Ok(ids)
}

/// The ids of some configs.
fn ids_in(alloc: Global, rows: &[Config]) -> Result<Numbers, NoMemory>
    ensures ids { IfOk result (λ ids. ids ≡ map (λ c. pos c.id) rows.now) }
    ensures numbers { IfOk result (λ ids. All IsNumber ids) }
{
    let mut ids = Numbers::new(alloc);
    for config in rows {
        ids.push(config.id as i64)?;
    }
    Ok(ids)
}

impl Configs {
    /// The table of the configs.
    pub fn standard() -> Configs
        ensures { result ≡ configs }
    {
        Configs {
            rows: standard_configs(),
        }
    }

    /// Whether a number is a config's id.
    pub fn is_config(&self, id: i64) -> bool
        ensures config { result ≡ is_config id }
        ensures range { result ≡ true → (pos 1 ≤ℤ id) × (id ≤ℤ pos 8) }
    {
        is_config_in(&self.rows, unsigned(id))
    }

    /// The ids of all configs, in the table's order (EGL 1.5, section 3.4.1).
    pub fn all(&self, alloc: Global) -> Result<Numbers, NoMemory>
        ensures ids { IfOk result (λ ids. ids ≡ all_ids) }
        ensures numbers { IfOk result (λ ids. All IsNumber ids) }
    {
        ids_in(alloc, &self.rows)
    }

    /// Whether contexts and surfaces of two configs go together (EGL 1.5, section 2.2): whether both are configs, with equal sizes of colours, depth and stencil.
    pub fn are_compatible(&self, first: i64, second: i64) -> bool
        ensures { result ≡ are_compatible first second }
    {
        are_compatible_in(&self.rows, unsigned(first), unsigned(second))
    }

    /// The value of an attribute of a config (EGL 1.5, section 3.4.3); none where the id isn't 1 to 8 or the name is no attribute of a config.
    pub fn attribute(&self, id: i64, name: i64) -> Option<i64>
        ensures value { result ≡ attribute id name }
        ensures number { IfSome result IsNumber }
    {
        signed(attribute_in(&self.rows, unsigned(id), unsigned(name)))
    }

    /// The ids of the configs that an attribute list chooses, in order (EGL 1.5, section 3.4.1).
    pub fn choose(&self, alloc: Global, list: &Numbers) -> Result<Numbers, AttribError>
        ensures chosen { IfOk result (λ ids. ids ≡ chosen list.now) }
        ensures numbers { IfOk result (λ ids. All IsNumber ids) }
        ensures allowed { OnOk result (bad_place Allowed.Config list.now ≡ None) }
        ensures cause { IfErr result (IsCause (bad_place Allowed.Config list.now)) }
    {
        let wanted = AttribList::read(alloc, list, &Allowed::Config)?;
        let keys = keys_of(alloc, &self.rows, &wanted)?;
        let sorted = in_order(keys)?;
        ids_of(alloc, &sorted)
    }
}
