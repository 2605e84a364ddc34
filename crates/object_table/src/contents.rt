//! What there is.
ghost use Rattle.std.specs.Prelude.{◌≡◌, None, option_copied, slice_index_or};

use crate::reads::object_at;
use crate::table::ObjectTable;
use driver_objects::Object;

impl ObjectTable {
    /// The object of a number; none where it is gone, and where none has the number yet.
    pub fn object(&self, n: u64) -> Option<&Object>
        ensures { option_copied result ≡ slice_index_or self.now.objects n None }
    {
        object_at(&self.store, n)
    }
}
