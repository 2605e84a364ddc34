//! Fences that another driver signals earlier than ours.
ghost use Rattle.std.specs.Prelude.{◌≡◌};
ghost use Rattle.egl_model.specs.Syncs.{waits_forever};
ghost use Rattle.driver_judge.specs.Fences.{is_signaled_by, served_beside};

use driver_core::Driver;
use egl_calls::arguments::{number, signed};
use egl_calls::places::{ATTRIBUTE, TIMEOUT};
use egl_calls::{Call, EglKind, Kind};
use egl_names::codes::{EGL_CONDITION_SATISFIED, EGL_SIGNALED, EGL_SYNC_STATUS};
use log_reader::Answer;

/// Whether a client wait has no limit.
fn waits_forever(call: &Call) -> bool
    ensures { result ≡ waits_forever call.now }
{
    signed(call, TIMEOUT) < 0
}

/// Whether theirs answers a call as if the fence that it names were signalled.
fn is_signaled_by(call: &Call, answer: &Answer) -> bool
    ensures { result ≡ is_signaled_by call.now.kind call.now answer.now }
{
    match call.kind {
        Kind::Egl(EglKind::ClientWaitSync) => {
            waits_forever(call) || answer.value == EGL_CONDITION_SATISFIED as i128
        }
        Kind::Egl(EglKind::GetSyncAttrib) => {
            number(call, ATTRIBUTE) == EGL_SYNC_STATUS && answer.value == EGL_SIGNALED as i128
        }
        _ => false,
    }
}

/// Serves the fence that a call names, where theirs answers as if it were signalled.
pub fn serve_beside(driver: &mut Driver, call: &Call, answer: &Answer)
    ensures { driver.new ≡ record driver.old { state = served_beside driver.old.state call.now answer.now } }
{
    if is_signaled_by(call, answer) {
        driver.serve_fence(call);
    }
}
