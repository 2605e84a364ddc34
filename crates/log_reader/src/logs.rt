//! Logs.
ghost use Rattle.std.specs.Prelude.{◌≡◌, ◌≤◌, option_copied, true};
ghost use Rattle.surface_store.specs.Windows.{windows_ok};
ghost use Rattle.log_reader.specs.Order.{IsLog};

use crate::configs::LogConfig;
use crate::items::{Cut, Item};
use keyed_hash::HashKey;
use std::marker::Model;
use surface_store::WindowSpec;

/// A log: how many threads it has, how many bytes of pixels and buffers there may be, its windows, the driver's configs, the calls that were answered with what windows show between them, and the call that was under way at the end.
pub struct Log {
    pub(crate) threads: u32,
    pub(crate) video: u64,
    pub(crate) windows: Vec<WindowSpec>,
    pub(crate) configs: Vec<LogConfig>,
    pub(crate) items: Vec<Item>,
    pub(crate) cut: Option<Cut>,
    pub(crate) key: HashKey,
}

// Written out, so that no crate above proves the drops of what it owns.
impl Drop for Log {
    fn drop(self) {
        let Log {
            threads: _,
            video: _,
            windows: _,
            configs: _,
            items: _,
            cut: _,
            key: _,
        } = self;
    }
}

impl Model for Log {
    ghost use Rattle.log_reader.specs.Logs.{LogValue};
    ghost use Rattle.log_reader.specs.Order.{IsLog};

    ghost Value = { LogValue };

    ghost view = { λ l. record { threads = l.threads; video = l.video; windows = l.windows.items; configs = l.configs.items; items = l.items.items; cut = l.cut } };

    ghost invariant = { λ l. IsLog (record { threads = l.threads; video = l.video; windows = l.windows.items; configs = l.configs.items; items = l.items.items; cut = l.cut }) };
}

impl Log {
    /// Each log is in order: its limits are kept, its windows differ, and its items are those of `IsLog`. This is a law: there is nothing to run.
    pub fn in_order(&self)
        ensures { IsLog self.now }
    {
        // What is true of every log is known where a field is named.
        let _ = &self.items;
    }

    pub fn threads(&self) -> u32
        ensures { result ≡ self.now.threads }
    {
        self.threads
    }

    /// What the maps of a judge of this log hash by: the key that all bytes of the log give, so that whoever writes a log can't choose handles or names that collide under it. No answer goes by it.
    pub fn key(&self) -> HashKey {
        self.key
    }

    pub fn video(&self) -> u64
        ensures value { result ≡ self.now.video }
        ensures fits { result ≤ 1073741824 }
    {
        self.video
    }

    /// The windows, in the order of their lines.
    pub fn windows(&self) -> &[WindowSpec]
        ensures windows { result.now ≡ self.now.windows }
        ensures distinct { windows_ok result.now ≡ true }
    {
        self.windows.as_slice()
    }

    /// The driver's configs, in the order of their lines.
    pub fn configs(&self) -> &[LogConfig]
        ensures { result.now ≡ self.now.configs }
    {
        self.configs.as_slice()
    }

    /// The calls that were answered, and the fronts, in the order of their lines.
    pub fn items(&self) -> &[Item]
        ensures { result.now ≡ self.now.items }
    {
        self.items.as_slice()
    }

    /// The call that was under way at the end.
    pub fn cut(&self) -> Option<&Cut>
        ensures { option_copied result ≡ self.now.cut }
    {
        self.cut.as_ref()
    }
}
