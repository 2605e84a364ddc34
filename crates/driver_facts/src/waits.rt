//! Waits for syncs (EGL 1.5, section 3.8.1).
ghost use Rattle.std.specs.Prelude.{◌≡◌, ◌<◌, None, Some};
ghost use Rattle.egl_model.specs.Waits.{is_ready, is_signalled};
ghost use Rattle.driver_facts.specs.Tables.{state_in};

use crate::tables::Tables;

impl Tables {
    /// Whether a thread waits for a sync that is signalled, so that its wait can end.
    pub fn wait_ready(&self, thread: u32) -> bool
        requires { thread < self.now.threads.made }
        ensures { result ≡ is_ready (state_in self.now) thread }
    {
        match self.record(thread).wait {
            Some(sync) => self.is_signalled(sync),
            None => false,
        }
    }

    /// Whether a fence is signalled.
    pub fn is_signalled(&self, sync: u64) -> bool
        ensures { result ≡ is_signalled (state_in self.now) sync }
    {
        self.objects.is_signalled(sync)
    }
}
