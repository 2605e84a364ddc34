//! Which configs of ours those of another driver are.
ghost use Rattle.std.specs.Prelude.{◌≡◌, ◌≤◌, [], All, find, IfOk, IfSome, OnOk};
ghost use Rattle.std.specs.List.{list_any};
ghost use Rattle.egl_calls.specs.Ranges.{IsNumber};
ghost use Rattle.config_match.specs.Table.{all_ids};
ghost use Rattle.driver_judge.specs.Configs.{AreOurs, are_alike, asks_for_config, config_pairs, configs_of, is_like, our_config, our_value, pair_of, pairs_behind, same_pairs, size, their_config, with_pair};

use config_match::Configs;
use egl_calls::{NoMemory, unsigned};
use egl_names::codes::{
    EGL_ALPHA_SIZE, EGL_BLUE_SIZE, EGL_CONFIG_ID, EGL_DEPTH_SIZE, EGL_GREEN_SIZE, EGL_RED_SIZE,
    EGL_STENCIL_SIZE,
};
use log_reader::LogConfig;
use std::alloc::Global;
use std::marker::Model;

/// A config of theirs, and the one of ours that it is.
#[derive(Clone, Copy, Debug, PartialEq, Eq, Drop)]
pub struct ConfigPair {
    pub ours: i64,
    pub theirs: i128,
}

/// Which configs are which, and whether the log names any.
pub struct ConfigMap {
    named: bool,
    pairs: Vec<ConfigPair>,
}

// Written out, so that no crate above proves the drops of what it owns.
impl Drop for ConfigMap {
    fn drop(self) {
        let ConfigMap { named: _, pairs: _ } = self;
    }
}

impl Model for ConfigMap {
    ghost use Rattle.driver_judge.specs.Configs.{AreOurs, ConfigsValue};

    ghost Value = { ConfigsValue };

    ghost view = { λ m. record { named = m.named; pairs = m.pairs.items } };

    ghost invariant = { λ m. AreOurs m.pairs.items };
}

/// A size of a config of ours.
fn size(id: i64, name: u64) -> u64
    requires { name ≤ 4294967295 }
    ensures { result ≡ size id name }
{
    match Configs::standard().attribute(id, name as i64) {
        Some(value) => unsigned(value),
        None => 0,
    }
}

/// Whether sizes of theirs are those of one of ours.
#[tactic(auto, unfolding(crate::specs::Configs::is_like))]
fn is_like(config: &LogConfig, id: i64) -> bool
    ensures { result ≡ is_like config.now id }
{
    u64::from(config.red) == size(id, EGL_RED_SIZE)
        && u64::from(config.green) == size(id, EGL_GREEN_SIZE)
        && u64::from(config.blue) == size(id, EGL_BLUE_SIZE)
        && u64::from(config.alpha) == size(id, EGL_ALPHA_SIZE)
        && u64::from(config.depth) == size(id, EGL_DEPTH_SIZE)
        && u64::from(config.stencil) == size(id, EGL_STENCIL_SIZE)
}

fn are_alike(first: &LogConfig, second: &LogConfig) -> bool
    ensures { result ≡ are_alike first.now second.now }
{
    first.red == second.red
        && first.green == second.green
        && first.blue == second.blue
        && first.alpha == second.alpha
        && first.depth == second.depth
        && first.stencil == second.stencil
}

fn is_repeated(config: &LogConfig, before: &[LogConfig]) -> bool
    ensures { result ≡ list_any (are_alike config.now) before.now }
{
    'each: for other in before {
        if are_alike(config, other) {
            return true;
        }
    }
    false
}

/// Ours with the sizes of theirs.
fn ours_like(config: &LogConfig, ids: &[i64]) -> Option<i64>
    requires { All IsNumber ids.now }
    ensures value { result ≡ find (is_like config.now) ids.now }
    ensures number { IfSome result IsNumber }
{
    'each: for id in ids {
        if is_like(config, *id) {
            return Some(*id);
        }
    }
    None
}

/// The pair of a config behind others.
fn pair_of(before: &[LogConfig], config: &LogConfig, ids: &[i64]) -> Option<ConfigPair>
    requires ids { ids.now ≡ all_ids }
    requires numbers { All IsNumber ids.now }
    ensures value { result ≡ pair_of before.now config.now }
    ensures number { IfSome result (λ p. IsNumber p.ours) }
{
    if is_repeated(config, before) {
        return None;
    }
    match ours_like(config, ids) {
        Some(ours) => Some(ConfigPair {
            ours,
            theirs: config.id,
        }),
        None => None,
    }
}

fn push_pair(pairs: &mut Vec<ConfigPair>, pair: Option<ConfigPair>) -> Result<(), NoMemory>
    requires pairs { AreOurs pairs.old.items }
    requires pair { IfSome pair (λ p. IsNumber p.ours) }
    ensures value { OnOk result (pairs.new.items ≡ with_pair pair pairs.old.items) }
    ensures pairs { OnOk result (AreOurs pairs.new.items) }
{
    let Some(pair) = pair else {
        return Ok(());
    };
    match pairs.push(pair) {
        Ok(()) => Ok(()),
        Err(_) => Err(NoMemory),
    }
}

/// The pairs of a log's configs.
fn pairs_of(alloc: Global, configs: &[LogConfig], ids: &[i64]) -> Result<Vec<ConfigPair>, NoMemory>
    requires ids { ids.now ≡ all_ids }
    requires numbers { All IsNumber ids.now }
    ensures value { IfOk result (λ v. v.items ≡ pairs_behind [] [] configs.now) }
    ensures ours { IfOk result (λ v. AreOurs v.items) }
{
    let mut pairs = Vec::new(alloc);
    'each: for (k, config) in configs.iter().enumerate() {
        let (before, _) = configs.split_at(k);
        push_pair(&mut pairs, pair_of(before, config, ids))?;
    }
    Ok(pairs)
}

/// Each of ours for itself.
fn same_pairs(alloc: Global, ids: &[i64]) -> Result<Vec<ConfigPair>, NoMemory>
    requires ids { ids.now ≡ all_ids }
    requires numbers { All IsNumber ids.now }
    ensures value { IfOk result (λ v. v.items ≡ same_pairs) }
    ensures ours { IfOk result (λ v. AreOurs v.items) }
{
    let mut pairs = Vec::new(alloc);
    'each: for id in ids {
        let pair = ConfigPair {
            ours: *id,
            theirs: i128::from(*id),
        };
        push_pair(&mut pairs, Some(pair))?;
    }
    Ok(pairs)
}

#[tactic(auto, unfolding(crate::specs::Configs::config_pairs))]
fn config_pairs(alloc: Global, configs: &[LogConfig]) -> Result<Vec<ConfigPair>, NoMemory>
    ensures value { IfOk result (λ v. v.items ≡ config_pairs configs.now) }
    ensures ours { IfOk result (λ v. AreOurs v.items) }
{
    let ids = Configs::standard().all(alloc)?;
    if configs.is_empty() {
        return same_pairs(alloc, ids.as_slice());
    }
    pairs_of(alloc, configs, ids.as_slice())
}

fn is_config_asked(attribute: i64, value: i64) -> bool
    ensures { result ≡ asks_for_config attribute value }
{
    attribute == EGL_CONFIG_ID as i64 && value != -1
}

#[tactic(auto, unfolding(crate::specs::Configs::our_config))]
fn our_config(pairs: &[ConfigPair], theirs: i128) -> Option<i64>
    requires { AreOurs pairs.now }
    ensures value { result ≡ our_config pairs.now theirs }
    ensures number { IfSome result IsNumber }
{
    'each: for pair in pairs {
        if pair.theirs == theirs {
            return Some(pair.ours);
        }
    }
    None
}

#[tactic(auto, unfolding(crate::specs::Configs::their_config))]
fn their_config(pairs: &[ConfigPair], ours: i64) -> Option<i128>
    ensures { result ≡ their_config pairs.now ours }
{
    'each: for pair in pairs {
        if pair.ours == ours {
            return Some(pair.theirs);
        }
    }
    None
}

impl ConfigMap {
    /// Those of a log.
    pub fn new(alloc: Global, configs: &[LogConfig]) -> Result<ConfigMap, NoMemory>
        ensures { IfOk result (λ m. m ≡ configs_of configs.now) }
    {
        Ok(ConfigMap {
            named: !configs.is_empty(),
            pairs: config_pairs(alloc, configs)?,
        })
    }

    /// Whether the log names any.
    pub fn is_named(&self) -> bool
        ensures { result ≡ self.now.named }
    {
        self.named
    }

    /// Our config that one of theirs is.
    pub fn ours(&self, theirs: i128) -> Option<i64>
        ensures value { result ≡ our_config self.now.pairs theirs }
        ensures number { IfSome result IsNumber }
    {
        our_config(self.pairs.as_slice(), theirs)
    }

    /// Their config that is one of ours.
    pub fn theirs(&self, ours: i64) -> Option<i128>
        ensures { result ≡ their_config self.now.pairs ours }
    {
        their_config(self.pairs.as_slice(), ours)
    }

    /// A value of an attribute list in our numbers. None where it is a config that is none of ours.
    pub fn value(&self, attribute: i64, value: i64) -> Option<i64>
        requires { IsNumber value }
        ensures value { result ≡ our_value self.now.pairs attribute value }
        ensures number { IfSome result IsNumber }
    {
        if is_config_asked(attribute, value) {
            self.ours(i128::from(value))
        } else {
            Some(value)
        }
    }
}
