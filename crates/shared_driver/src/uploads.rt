//! What a call gives is made before its turn.
ghost use Rattle.std.specs.Prelude.{◌≡◌, Some, IfSome};
ghost use Rattle.std.specs.Option.{option_and_then};
ghost use Rattle.thread_part.specs.Uploads.{upload_of};

use crate::tokens::Holding;
use egl_calls::Call;
use std::alloc::Global;
use thread_part::Upload;

/// What a call gives a texture or a buffer, made from its thread's part. Where there is no memory for it the call goes on without, and makes it in its turn.
pub(crate) fn upload_of(hold: &Holding, alloc: Global, call: &Call) -> Option<Upload>
    ensures { IfSome result (λ u. option_and_then (λ p. upload_of p call.now) hold.now.part ≡ Some u) }
{
    let Some(part) = &hold.part else {
        return None;
    };
    match part.upload_of(alloc, call) {
        Ok(upload) => upload,
        Err(_) => None,
    }
}
