//! The lines that name a driver's configs.
ghost use Rattle.std.specs.Prelude.{◌≡◌, ◌<◌, length, map, IfOk};
ghost use Rattle.std.specs.List.{list_any};
ghost use Rattle.log_reader.specs.Configs.{config_line, config_of, has_config_form, has_id, id_of, size_of};

use crate::numbers::{long_numeral, positive};
use trace_reader::Reason;
use trace_reader::numerals::{is_numeral, numeral};
use trace_reader::word_cuts::word_at;

/// How many configs a log may name.
const MOST_CONFIGS: usize = 512;

/// The largest size of a component.
const LARGEST_SIZE: u64 = 4_294_967_295;

/// A config of a driver: its EGL_CONFIG_ID, and how many bits its components have.
#[derive(Clone, Copy, Debug, PartialEq, Eq, Drop)]
pub struct LogConfig {
    pub id: i128,
    pub red: u32,
    pub green: u32,
    pub blue: u32,
    pub alpha: u32,
    pub depth: u32,
    pub stencil: u32,
}

fn has_id(configs: &[LogConfig], id: i128) -> bool
    ensures { result ≡ list_any (has_id id) configs.now }
{
    'each: for config in configs {
        if config.id == id {
            return true;
        }
    }
    false
}

/// An id that none of these configs has.
#[tactic(auto, unfolding(crate::specs::Configs::id_of))]
fn id_of(configs: &[LogConfig], word: &[u8]) -> Result<i128, Reason>
    ensures { result ≡ id_of configs.now word.now }
{
    match long_numeral(word) {
        Some(n) => {
            let id = positive(n);
            if has_id(configs, id) {
                return Err(Reason::Window);
            }
            Ok(id)
        }
        None => Err(Reason::Window),
    }
}

#[tactic(auto, unfolding(crate::specs::Configs::size_of))]
fn size_of(word: &[u8]) -> Result<u32, Reason>
    ensures { result ≡ size_of word.now }
{
    match numeral(LARGEST_SIZE, word) {
        Some(n) => Ok(n as u32),
        None => Err(Reason::Limit),
    }
}

fn has_config_form(words: &[&[u8]]) -> bool
    ensures { result ≡ has_config_form (map (λ w. w.now) words.now) }
{
    words.len() == 8
        && is_numeral(word_at(words, 1))
        && is_numeral(word_at(words, 2))
        && is_numeral(word_at(words, 3))
        && is_numeral(word_at(words, 4))
        && is_numeral(word_at(words, 5))
        && is_numeral(word_at(words, 6))
        && is_numeral(word_at(words, 7))
}

/// The config that a line of these words names behind others.
#[tactic(auto, unfolding(crate::specs::Configs::config_of))]
fn config_of(configs: &[LogConfig], words: &[&[u8]]) -> Result<LogConfig, Reason>
    ensures { result ≡ config_of configs.now (map (λ w. w.now) words.now) }
{
    if !has_config_form(words) {
        return Err(Reason::Window);
    }
    Ok(LogConfig {
        id: id_of(configs, word_at(words, 1))?,
        red: size_of(word_at(words, 2))?,
        green: size_of(word_at(words, 3))?,
        blue: size_of(word_at(words, 4))?,
        alpha: size_of(word_at(words, 5))?,
        depth: size_of(word_at(words, 6))?,
        stencil: size_of(word_at(words, 7))?,
    })
}

/// The same, where it isn't one too many.
#[tactic(auto, unfolding(crate::specs::Configs::config_line))]
pub fn config_line(configs: &[LogConfig], words: &[&[u8]]) -> Result<LogConfig, Reason>
    ensures value { result ≡ config_line configs.now (map (λ w. w.now) words.now) }
    ensures room { IfOk result (λ c. length configs.now < 512) }
{
    let config = config_of(configs, words)?;
    if configs.len() >= MOST_CONFIGS {
        return Err(Reason::Limit);
    }
    Ok(config)
}
