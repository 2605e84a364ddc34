//! Calls that a thread's private part answers, with no turn.
ghost use Rattle.std.specs.Prelude.{◌≡◌, ◌-◌, ◌∷◌, ◌++◌, [], true, false, IfOk, IsOk, OnErr};
ghost use Rattle.egl_calls.specs.declared.kinds.Kind.TheVariants.{Gl};
ghost use Rattle.egl_calls.specs.declared.kinds.GlKind.TheVariants.{Clear};
ghost use Rattle.egl_model.specs.Parts.{part_of};
ghost use Rattle.egl_model.specs.Step.{step};
ghost use Rattle.thread_part.specs.Memory.{is_bare, takes_pixels};
ghost use Rattle.shared_driver.specs.declared.tokens.Shared.{Shared as TheShared};
ghost use Rattle.shared_driver.specs.Cores.{entry};
ghost use Rattle.shared_driver.specs.Tokens.{IsOf, may_be_local, mine, state_of, token_of};

use crate::tokens::Thread;
use egl_calls::{Call, Entry, NoMemory, Reply, ReplyPair};
use std::alloc::Global;

impl Thread {
    /// Whether the thread's private part answers a call, and one of the token's places is free for it.
    pub fn is_local(&self, call: &Call) -> bool
        ensures { result ≡ may_be_local (token_of self.now) call.now }
    {
        match &self.hold.part {
            Some(part) => part.is_local(call) && self.places > 0,
            None => false,
        }
    }

    /// Plays a call on the thread's private part alone, in one of the token's places. It takes no lock and waits for nobody.
    ///
    /// Its reply is the step's after all that the token has seen and its own calls. It enters the history, with this reply, directly before the thread's next shared call, or when it is handed in. Where memory runs out nothing has changed; it may for glReadPixels alone.
    pub fn local(&mut self, alloc: Global, mark: u64, call: Call) -> Result<Reply, NoMemory>
        requires local { may_be_local (token_of self.old) call ≡ true }
        ensures owns { (s : TheShared) → IsOf s self.old → IsOf s self.new }
        ensures reply { IfOk result (λ r. r ≡ (step (state_of (token_of self.old)) (token_of self.old).number call).reply) }
        ensures ok { IfOk result (λ r. token_of self.new ≡ record (token_of self.old) { tail = (token_of self.old).tail ++ entry (token_of self.old).number mark call r ∷ []; places = (token_of self.old).places - 1 }) }
        ensures mine { IfOk result (λ r. mine (token_of self.new) ≡ mine (token_of self.old) ++ entry (token_of self.old).number mark call r ∷ []) }
        ensures err { OnErr result (token_of self.new ≡ token_of self.old) }
        ensures memory { takes_pixels call.kind ≡ false → IsOk result }
        ensures clears { call.kind ≡ Gl Clear → IsOk result }
        ensures bare { is_bare (part_of (state_of (token_of self.old)) (token_of self.old).number) call ≡ true → IsOk result }
    {
        let Some(part) = &mut self.hold.part else {
            unreachable!()
        };
        let ReplyPair { reply, copy } = part.local(alloc, &call)?;
        self.hold.tail.push_back_reserved(Entry {
            thread: self.hold.number,
            mark,
            call,
            reply: copy,
        });
        self.places -= 1;
        Ok(reply)
    }
}
