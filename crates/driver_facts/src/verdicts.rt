//! Which rows of a call's table hold, for who wants to know more than the error that decides.
ghost use Rattle.std.specs.Prelude.{◌≡◌, ◌<◌, false};
ghost use Rattle.egl_calls.specs.Ranges.{is_client_wait};
ghost use Rattle.egl_model.specs.Currents.{current_context};
ghost use Rattle.driver_facts.specs.Verdicts.{gl_refusals, refusals};
ghost use Rattle.driver_facts.specs.Tables.{KnowsRoots, state_in};

use crate::tables::Tables;
use egl_calls::{Call, EglError, GlError, Kind, OwnKind};
use refusal_rows::Holding;

/// What the table of a call tells in a state: the error of each row that holds, at the row's place.
#[derive(Debug, PartialEq, Eq, Drop)]
pub enum Refusals {
    /// Of a call of EGL.
    Egl(Holding<EglError>),
    /// Of a call of OpenGL ES, or a `readBuffer`, with a current context.
    Gl(Holding<GlError>),
    /// No table judges it: a call of a thread that waits, one of OpenGL ES without a current context, and each other call of this project's own.
    Unjudged,
}

impl Tables {
    fn gl_refusals(&self, thread: u32, call: &Call) -> Refusals
        requires made { thread < self.now.threads.made }
        requires numbers { is_client_wait call.now.kind ≡ false }
        ensures { result ≡ gl_refusals (state_in self.now) thread (current_context (state_in self.now) thread) call.now }
    {
        match self.current_context(thread) {
            Some(context) => Refusals::Gl(self.gl_verdict(thread, context, call)),
            None => Refusals::Unjudged,
        }
    }

    /// Which rows of a call's table hold as the driver stands. The first of them is what refuses the call; where none holds it isn't refused. It takes no memory and changes nothing.
    #[tactic(auto, unfolding(crate::specs::Verdicts::refusals))]
    pub fn refusals(&self, thread: u32, call: &Call) -> Refusals
        requires made { thread < self.now.threads.made }
        requires roots { KnowsRoots self.now }
        ensures { result ≡ refusals (state_in self.now) thread call.now }
    {
        if self.record(thread).wait.is_some() {
            return Refusals::Unjudged;
        }
        match call.kind {
            Kind::Egl(_) => {
                let found = self.egl_found(call);
                Refusals::Egl(self.egl_verdict(thread, call, &found))
            }
            Kind::Gl(_) => self.gl_refusals(thread, call),
            Kind::Own(OwnKind::ReadBuffer) => self.gl_refusals(thread, call),
            Kind::Own(_) => Refusals::Unjudged,
        }
    }
}
