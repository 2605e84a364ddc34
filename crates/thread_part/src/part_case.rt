//! What refuses a call of OpenGL ES of a thread whose part is out of the driver, asked of the part when its row is tried.
ghost use Rattle.std.specs.Prelude.{◌≡◌, ◌+◌, ◌&&◌, is_some, nat_lt, not};
ghost use Rattle.call_rules.specs.GlRules as gl_rules;
ghost use Rattle.call_rules.specs.GlRules.{gl_holds, no_gl_facts};
ghost use Rattle.egl_model.specs.Arguments.{number};
ghost use Rattle.model_laws.specs.Local.{facts_locally};
ghost use Rattle.thread_part.specs.Uploads.{early_facts};

use crate::parts::Parts;
use call_rules::{exceeds, gl_call_meets, gl_verdict, has_alpha};
use call_table::GlCondition;
use egl_calls::arguments::number;
use egl_calls::places::{BUFFER_OFFSET, BUFFER_PART_SIZE, INTERNAL_FORMAT};
use egl_calls::{Call, GlError};
use refusal_rows::Judge;

/// A call, and the part that is asked about it. Before the call's turn nothing that others may change is against it.
#[derive(Drop)]
struct PartCase<'a> {
    parts: &'a Parts,
    call: &'a Call,
    is_early: bool,
}

impl<'a> Judge<GlCondition> for PartCase<'a> {
    ghost meets = { λ a x. gl_holds x a.call.now (record no_gl_facts { is_framebuffer_complete = is_some a.parts.now.own.draw; has_read_alpha = a.is_early; is_buffer_bound = a.is_early }) };

    fn holds(&self, condition: GlCondition) -> bool {
        match condition {
            GlCondition::NotComplete => {
                let parts = self.parts;
                parts.draw.is_none()
            }
            GlCondition::NoBufferBound => !self.is_early,
            GlCondition::NoInternalAlpha => {
                has_alpha(number(self.call, INTERNAL_FORMAT)) && self.lacks_alpha()
            }
            GlCondition::PartBehindEnd => self.has_part() && self.is_early,
            _ => gl_call_meets(condition, self.call),
        }
    }
}

impl<'a> PartCase<'a> {
    /// Whether there are pixels to be read, and they may have no alpha.
    fn lacks_alpha(&self) -> bool
        ensures { result ≡ (not self.now.is_early && is_some self.now.parts.now.own.draw) }
    {
        let parts = self.parts;
        !self.is_early && parts.draw.is_some()
    }

    /// Whether a part of a buffer isn't empty, or begins behind its beginning.
    fn has_part(&self) -> bool
        ensures { result ≡ nat_lt 0 (number self.now.call.now BUFFER_OFFSET + number self.now.call.now BUFFER_PART_SIZE) }
    {
        exceeds(
            0,
            number(self.call, BUFFER_OFFSET),
            number(self.call, BUFFER_PART_SIZE),
        )
    }
}

impl Parts {
    /// The error by which a local call of OpenGL ES is refused.
    #[tactic(auto, unfolding(call_rules::specs::GlRules::gl_refusal))]
    pub(crate) fn gl_refusal(&self, call: &Call) -> Option<GlError>
        ensures { result ≡ gl_rules.gl_refusal call.now (facts_locally self.now) }
    {
        let case = PartCase {
            parts: self,
            call,
            is_early: false,
        };
        gl_verdict(&case, call)
    }

    /// The error by which a call that gives something is refused before its turn.
    #[tactic(auto, unfolding(call_rules::specs::GlRules::gl_refusal))]
    pub(crate) fn early_refusal(&self, call: &Call) -> Option<GlError>
        ensures { result ≡ gl_rules.gl_refusal call.now (early_facts self.now) }
    {
        let case = PartCase {
            parts: self,
            call,
            is_early: true,
        };
        gl_verdict(&case, call)
    }
}
