//! The error by which a call is refused.
ghost use Rattle.std.specs.Prelude.{◌≡◌, ◌<◌};
ghost use Rattle.egl_calls.specs.declared.kinds.Kind.TheVariants.{Egl as EglCall, Gl as GlCall};
ghost use Rattle.egl_model.specs.EglCalls.{egl_refusal};
ghost use Rattle.egl_model.specs.GlCalls.{gl_refusal};
ghost use Rattle.driver_facts.specs.Found.{IsFound};
ghost use Rattle.driver_facts.specs.Tables.{KnowsRoots, state_in};

use crate::egl_found::EglFound;
use crate::tables::Tables;
use egl_calls::{Call, EglError, EglKind, GlError, GlKind};

impl Tables {
    /// The error of the first row that holds.
    #[tactic(auto, using(crate::proofs::Asked::egl_judged))]
    pub fn egl_refusal(
        &self,
        thread: u32,
        kind: EglKind,
        call: &Call,
        found: &EglFound,
    ) -> Option<EglError>
        requires made { thread < self.now.threads.made }
        requires kind { call.now.kind ≡ EglCall kind }
        requires roots { KnowsRoots self.now }
        requires found { IsFound (state_in self.now) call.now found.now }
        ensures { result ≡ egl_refusal (state_in self.now) thread kind call.now }
    {
        let _ = kind;
        self.egl_verdict(thread, call, found)
    }

    /// The error of the first row that holds.
    #[tactic(auto, using(crate::proofs::Asked::gl_judged))]
    pub fn gl_refusal(
        &self,
        thread: u32,
        context: u64,
        kind: GlKind,
        call: &Call,
    ) -> Option<GlError>
        requires made { thread < self.now.threads.made }
        requires kind { call.now.kind ≡ GlCall kind }
        ensures { result ≡ gl_refusal (state_in self.now) thread context kind call.now }
    {
        let _ = kind;
        self.gl_verdict(thread, context, call)
    }
}
