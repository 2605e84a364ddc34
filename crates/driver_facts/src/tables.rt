//! What a driver keeps.
ghost use Rattle.std.specs.Prelude.{◌≡◌, ◌<◌};
ghost use Rattle.driver_facts.specs.Counts.{count_of};
ghost use Rattle.driver_facts.specs.Tables.{KnowsRoots, state_in};
ghost use Rattle.egl_model.specs.State.{record_of};

use crate::threads::ThreadTable;
use display_table::Displays;
use egl_model::ThreadRecord;
use object_table::ObjectTable;
use surface_store::WindowTable;

/// What a driver keeps: two displays with their handles, the objects, a record of each of its threads, the windows with their fronts, and how many bytes of pixels and buffers there may be. The methods only read it.
#[derive(Drop)]
pub struct Tables {
    pub displays: Displays,
    pub objects: ObjectTable,
    pub threads: ThreadTable,
    pub windows: WindowTable,
    pub video: u64,
}

impl Tables {
    /// What is kept for a thread.
    pub fn record(&self, thread: u32) -> ThreadRecord
        requires { thread < self.now.threads.made }
        ensures { result ≡ record_of (state_in self.now) thread }
    {
        self.threads.record(thread)
    }

    /// How many references lead to an object: from objects, valid handles and threads.
    pub fn references(&self, object: u64) -> u64
        requires { KnowsRoots self.now }
        ensures { result ≡ count_of (state_in self.now) object }
    {
        self.objects.references(object)
    }
}
