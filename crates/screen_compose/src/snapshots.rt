//! What windows show after all that a thread has seen.
ghost use Rattle.std.specs.Prelude.{◌≡◌, [], length, IfOk, OnErr, OnOk, Some};
ghost use Rattle.egl_model.specs.History.{replay_from};
ghost use Rattle.shared_driver.specs.declared.picks.Pick.TheVariants.{Stop as AStop};
ghost use Rattle.shared_driver.specs.Tokens.{Goes, IsOf, IsSame, mine, opening_of, token_of};
ghost use Rattle.screen_compose.specs.Fronts.{AreOf};
ghost use Rattle.screen_compose.specs.Shown.{fronts_of};

use crate::fronts::Fronts;
use crate::placed::Placed;
use driver_core::Driver;
use egl_calls::{Journal, NoMemory};
use shared_driver::{Pick, Picker, Shared, Thread};
use std::alloc::Global;
use std::sync::Wait;

/// Copies in a turn what windows show, and plays nothing.
#[derive(Drop)]
struct Looking<'a> {
    alloc: Global,
    placed: &'a [Placed],
    fronts: Option<Fronts>,
}

impl<'a> Picker for Looking<'a> {
    ghost may = { λ p es d. Unit {0} };

    ghost picks = { λ p es d k q. (k ≡ AStop) × (q.fronts ≡ Some (fronts_of d.state.windows p.placed.now (length es))) };

    fn pick(&mut self, journal: &Journal, driver: &Driver) -> Result<Pick, NoMemory> {
        let fronts = Fronts::of(self.alloc, driver, self.placed, journal.len())?;
        self.fronts = Some(fronts);
        Ok(Pick::Stop)
    }
}

/// What these windows show after the history that the token has then seen, whose length is their `at`. The token's own calls are handed in first, also where memory runs out then.
///
/// It may wait for the turns of other threads.
pub fn snapshot<R: Wait>(
    shared: &Shared,
    thread: &mut Thread,
    rt: &R,
    alloc: Global,
    placed: &[Placed],
) -> Result<Fronts, NoMemory>
    requires owns { IsOf shared.now thread.old }
    ensures owns { IsOf shared.now thread.new }
    ensures token { IsSame (token_of thread.old) (token_of thread.new) }
    ensures sole { (token_of thread.new).sole ≡ (token_of thread.old).sole }
    ensures fronts { IfOk result (λ f. f ≡ fronts_of (replay_from (opening_of shared.now) (token_of thread.new).seen).windows placed.now (length (token_of thread.new).seen)) }
    ensures same { IfOk result (λ f. AreOf f placed.now) }
    ensures handed_in { Goes (token_of thread.old) [] (token_of thread.new) }
    ensures mine { mine (token_of thread.new) ≡ mine (token_of thread.old) }
    ensures places { OnOk result ((token_of thread.new).places ≡ 256) }
    ensures err_places { OnErr result ((token_of thread.new).places ≡ (token_of thread.old).places) }
{
    let mut looking = Looking {
        alloc,
        placed,
        fronts: None,
    };
    shared.call_picked(thread, rt, alloc, &mut looking)?;
    match looking.fronts {
        Some(fronts) => Ok(fronts),
        None => unreachable!(),
    }
}
