//! A wait for a sync, until it ends.
ghost use Rattle.std.specs.Prelude.{◌≡◌, ◌∷◌, [], false, IfSome, IfNone, OnSome};
ghost use Rattle.shared_driver.specs.Cores.{entry, wait_end_call, wait_ended};
ghost use Rattle.shared_driver.specs.Tokens.{Goes, HasPlace, IsFrom, IsOf, IsSame, Learns, token_of};

use crate::boxes::core_of;
use crate::sleepers::Wanted;
use crate::tokens::{Shared, Thread};
use egl_calls::Reply;
use std::alloc::Global;
use std::sync::Wait;

impl Shared {
    // One turn of a wait.
    fn try_end<R: Wait>(
        &self,
        thread: &mut Thread,
        rt: &R,
        alloc: Global,
        mark: u64,
    ) -> Option<Reply>
        requires owns { IsFrom self.now thread.old }
        requires place { HasPlace thread.old }
        ensures owns { IsFrom self.now thread.new }
        ensures same { IsSame (token_of thread.old) (token_of thread.new) }
        ensures sole { (token_of thread.new).sole ≡ (token_of thread.old).sole }
        ensures reply { IfSome result (λ r. r ≡ wait_ended) }
        ensures ended { OnSome result (Goes (token_of thread.old) (entry (token_of thread.old).number mark wait_end_call wait_ended ∷ []) (token_of thread.new)) }
        ensures free { OnSome result (thread.new.end_kept ≡ false) }
        ensures none { IfNone result (Learns (token_of thread.old) (token_of thread.new) × HasPlace thread.new) }
        ensures places { (token_of thread.new).places ≡ (token_of thread.old).places }
    {
        let mut held = self.begin_turn(&mut thread.hold, rt);
        let core = core_of(&mut held);
        let from = core.journal.len();
        match core.try_end(alloc, thread.hold.number, mark, &mut thread.hold.tail) {
            Some(reply) => {
                let woken = self.news.rouse(rt, core, from);
                self.end_turn(&mut thread.hold, held);
                thread.end_kept = false;
                self.news.call(&woken);
                Some(reply)
            }
            None => {
                self.news
                    .lie_down(rt, thread.hold.number, Some(Wanted::Signal));
                self.end_turn(&mut thread.hold, held);
                None
            }
        }
    }

    /// Waits until the token's wait can end, and ends it. Between two looks it sleeps until another turn can have ended it. It takes no memory.
    pub(crate) fn end_wait<R: Wait>(
        &self,
        thread: &mut Thread,
        rt: &R,
        alloc: Global,
        mark: u64,
    ) -> Reply
        requires owns { IsFrom self.now thread.old }
        requires place { HasPlace thread.old }
        ensures owns { IsOf self.now thread.new }
        ensures same { IsSame (token_of thread.old) (token_of thread.new) }
        ensures sole { (token_of thread.new).sole ≡ (token_of thread.old).sole }
        ensures reply { result ≡ wait_ended }
        ensures ended { Goes (token_of thread.old) (entry (token_of thread.old).number mark wait_end_call wait_ended ∷ []) (token_of thread.new) }
        ensures places { (token_of thread.new).places ≡ (token_of thread.old).places }
    {
        'waiting: for _ in rt.forever() {
            let heard = self.news.heard(thread.hold.number);
            if let Some(reply) = self.try_end(thread, rt, alloc, mark) {
                return reply;
            }
            self.news.sleep(rt, heard);
        }
        unreachable!()
    }
}
