//! Fence syncs (EGL 1.5, section 3.8.1).
ghost use Rattle.std.specs.Prelude.{◌≡◌, ◌<◌, None, Some, IfSome};
ghost use Rattle.egl_calls.specs.Ranges.{IsNumber};
ghost use Rattle.egl_model.specs.Arguments.{number};
ghost use Rattle.egl_model.specs.Facts.{is_sync_attribute};
ghost use Rattle.egl_model.specs.Syncs.{sync_handle, sync_value, sync_value_at};
ghost use Rattle.driver_facts.specs.Tables.{state_in};

use crate::tables::Tables;
use display_table::{Handle, HandleKind};
use egl_calls::Call;
use egl_calls::arguments::number;
use egl_calls::places::{ATTRIBUTE, NAMED};
use egl_names::codes::{
    EGL_SIGNALED, EGL_SYNC_CONDITION, EGL_SYNC_FENCE, EGL_SYNC_PRIOR_COMMANDS_COMPLETE,
    EGL_SYNC_STATUS, EGL_SYNC_TYPE, EGL_UNSIGNALED,
};

/// The value of an attribute of a sync, which is signalled or not.
fn sync_value_at(attribute: u64, signalled: bool) -> Option<i64>
    ensures value { result ≡ sync_value_at attribute signalled }
    ensures number { IfSome result IsNumber }
{
    match attribute {
        EGL_SYNC_TYPE => Some(EGL_SYNC_FENCE as i64),
        EGL_SYNC_STATUS if signalled => Some(EGL_SIGNALED as i64),
        EGL_SYNC_STATUS => Some(EGL_UNSIGNALED as i64),
        EGL_SYNC_CONDITION => Some(EGL_SYNC_PRIOR_COMMANDS_COMPLETE as i64),
        _ => None,
    }
}

/// Whether syncs have an attribute: all have the same.
pub(crate) fn is_sync_attribute(attribute: u64) -> bool
    ensures { result ≡ is_sync_attribute attribute }
{
    sync_value_at(attribute, false).is_some()
}

impl Tables {
    /// The sync that a call names after its display.
    pub fn sync_handle(&self, call: &Call) -> Option<Handle>
        ensures { result ≡ sync_handle (state_in self.now) call.now }
    {
        self.handle_at(call, NAMED, HandleKind::Sync)
    }

    /// The value of an attribute of the sync that a call names (section 3.8.1.3).
    pub fn sync_value(&self, call: &Call) -> Option<i64>
        ensures value { result ≡ sync_value (state_in self.now) call.now }
        ensures number { IfSome result IsNumber }
    {
        let object = self.sync_handle(call)?.object;
        sync_value_at(number(call, ATTRIBUTE), self.is_signalled(object))
    }
}
