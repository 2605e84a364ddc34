//! What stands in front of a log's calls.
ghost use Rattle.std.specs.Prelude.{◌≡◌, ◌<◌, ◌≤◌, length, map, true, Some, unwrap_or, IfOk};
ghost use Rattle.surface_store.specs.Windows.{windows_ok};
ghost use Rattle.trace_reader.specs.Grammar.{default_video};
ghost use Rattle.trace_reader.specs.Header.{most_threads};
ghost use Rattle.trace_reader.specs.Heads.{area_of, most_area, most_video};
ghost use Rattle.log_reader.specs.Heads.{begun, head_line, head_said, header_of, with_config};
ghost use Rattle.log_reader.specs.Configs.{config_line, most_configs};
ghost use Rattle.log_reader.specs.Reading.{GivesHead};

use crate::configs::{LogConfig, config_line};
use crate::reasons::{LogLineError, LogReason};
use std::alloc::Global;
use std::marker::Model;
use surface_store::WindowSpec;
use trace_reader::header::thread_count;
use trace_reader::heads::Head;
use trace_reader::word_cuts::{is_skipped, word_at, words};
use trace_reader::{LineError, Reason};

/// The number of threads that a header of these words gives.
#[tactic(auto, unfolding(crate::specs::Heads::header_of))]
pub fn header_of(words: &[&[u8]]) -> Result<u32, Reason>
    ensures value { result ≡ header_of (map (λ w. w.now) words.now) }
    ensures some { IfOk result (λ n. 0 < n) }
    ensures few { IfOk result (λ n. n ≤ most_threads) }
{
    if words.len() != 3 {
        return Err(Reason::Header);
    }
    if word_at(words, 0) != b"egl-log".as_slice() || word_at(words, 1) != b"1".as_slice() {
        return Err(Reason::Header);
    }
    thread_count(word_at(words, 2))
}

/// What was read in front of the calls: that of a trace, and the driver's configs.
#[derive(Drop)]
pub struct LogHead {
    head: Head,
    configs: Vec<LogConfig>,
}

impl Model for LogHead {
    ghost use Rattle.std.specs.Prelude.{◌≤◌, length};
    ghost use Rattle.log_reader.specs.Configs.{most_configs};
    ghost use Rattle.log_reader.specs.Heads.{LogHead as LogHeadValue};

    ghost Value = { LogHeadValue };

    ghost view = { λ h. record { head = h.head; configs = h.configs.items } };

    ghost invariant = { λ h. length h.configs.items ≤ most_configs };
}

impl LogHead {
    /// Behind the header alone.
    pub fn new(alloc: Global, threads: u32) -> Self
        requires some { 0 < threads }
        requires few { threads ≤ most_threads }
        ensures { result ≡ begun threads }
    {
        LogHead {
            head: Head::new(alloc, threads),
            configs: Vec::new(alloc),
        }
    }

    pub fn threads(&self) -> u32
        ensures threads { result ≡ self.now.head.threads }
        ensures some { 0 < result }
        ensures few { result ≤ most_threads }
    {
        self.head.threads()
    }

    pub fn windows(&self) -> &[WindowSpec]
        ensures { result.now ≡ self.now.head.windows }
    {
        self.head.windows()
    }

    fn take_config(&mut self, words: &[&[u8]]) -> Result<bool, LogLineError>
        ensures { GivesHead (Some (with_config self.old (config_line self.old.configs (map (λ w. w.now) words.now)))) self.old self.new result }
    {
        let config = match config_line(&self.configs, words) {
            Ok(config) => config,
            Err(reason) => return Err(LogLineError::Defective(LogReason::Trace(reason))),
        };
        let Ok(()) = self.configs.push(config) else {
            return Err(LogLineError::NoMemory);
        };
        Ok(true)
    }

    #[tactic(auto, unfolding(crate::specs::Heads::head_said))]
    fn take_words(&mut self, words: &[&[u8]]) -> Result<bool, LogLineError>
        ensures { GivesHead (head_said self.old (map (λ w. w.now) words.now)) self.old self.new result }
    {
        if word_at(words, 0) == b"config".as_slice() {
            return self.take_config(words);
        }
        if !self.configs.is_empty() {
            return Ok(false);
        }
        match self.head.take_words(words) {
            Ok(true) => Ok(true),
            Ok(false) => Ok(false),
            Err(LineError::Defective(reason)) => {
                Err(LogLineError::Defective(LogReason::Trace(reason)))
            }
            Err(LineError::NoMemory) => Err(LogLineError::NoMemory),
        }
    }

    /// Takes a line, unless it stands behind the head, and answers whether it was taken.
    #[tactic(auto, unfolding(crate::specs::Heads::head_line))]
    pub fn take_line(&mut self, alloc: Global, line: &[u8]) -> Result<bool, LogLineError>
        ensures { GivesHead (head_line self.old line.now) self.old self.new result }
    {
        let Ok(parts) = words(alloc, line) else {
            return Err(LogLineError::NoMemory);
        };
        if is_skipped(line, &parts) {
            return Ok(true);
        }
        self.take_words(&parts)
    }

    /// How many bytes of pixels and buffers there may be.
    pub fn video(&self) -> u64
        ensures value { result ≡ unwrap_or self.now.head.video default_video }
        ensures few { result ≤ most_video }
    {
        self.head.video()
    }

    /// The windows and the configs, in the order of their lines.
    pub fn into_parts(self) -> (Vec<WindowSpec>, Vec<LogConfig>)
        ensures windows { result.0.items ≡ self.head.windows }
        ensures distinct { windows_ok result.0.items ≡ true }
        ensures area { area_of result.0.items ≤ most_area }
        ensures configs { result.1.items ≡ self.configs }
        ensures few { length result.1.items ≤ most_configs }
    {
        let LogHead { head, configs } = self;
        (head.into_windows(), configs)
    }
}
