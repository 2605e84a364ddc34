//! What the conditions of the calls on framebuffers and what is attached to them ask (OES_framebuffer_object).
ghost use Rattle.std.specs.Prelude.{◌≡◌};
ghost use Rattle.call_rules.specs.AttachmentRules.{attaches, is_attachment_parameter};

use egl_calls::Call;
use egl_calls::arguments::is_zero;
use egl_calls::places::ATTACHED_NAME;
use egl_names::codes::{
    GL_FRAMEBUFFER_ATTACHMENT_OBJECT_NAME_OES, GL_FRAMEBUFFER_ATTACHMENT_OBJECT_TYPE_OES,
};

/// Whether a name is given; 0 detaches.
pub fn attaches(call: &Call) -> bool
    ensures { result ≡ attaches call.now }
{
    !is_zero(call, ATTACHED_NAME)
}

pub(crate) fn is_attachment_parameter(pname: u64) -> bool
    ensures { result ≡ is_attachment_parameter pname }
{
    pname == GL_FRAMEBUFFER_ATTACHMENT_OBJECT_TYPE_OES
        || pname == GL_FRAMEBUFFER_ATTACHMENT_OBJECT_NAME_OES
}
