//! The value under the lock stands behind a pointer, so that a turn moves no more than that.
ghost use Rattle.std.specs.Prelude.{◌≡◌, IfOk};
ghost use Rattle.std.specs.Borrow.{Lends, sem};
ghost use Rattle.egl_calls.specs.contracts.entries.Entry.{the_row as entry_row};
ghost use Rattle.turn_lock.specs.Moves.{newcomer};
ghost use Rattle.turn_lock.specs.Passes.{first_of, value_of, view_of, IsFree, IsOf};
ghost use Rattle.turn_lock.specs.Values.{Begins, Leaves};
ghost use Rattle.turn_lock.specs.contracts.held.Held.{the_row as held_row};
ghost use Rattle.shared_driver.specs.Cores.{meaning};
ghost use Rattle.shared_driver.specs.contracts.boxes.BoxedCore.{the_row as boxed_row};
ghost use Rattle.shared_driver.specs.contracts.cores.Core.{the_row as core_row};

use crate::cores::Core;
use egl_calls::{Entry, NoMemory};
use std::alloc::Global;
use std::marker::Model;
use turn_lock::{Held, Opening, Pass, Replays, Turns};

/// A driver with its journal, which stands for itself.
#[derive(Drop)]
pub struct BoxedCore {
    core: Box<Core>,
}

impl Model for BoxedCore {
    ghost use Rattle.shared_driver.specs.declared.cores.Core.{Core as TheCore};

    ghost Value = { TheCore };

    ghost view = { λ b. b.core.value };
}

impl Replays for BoxedCore {
    ghost use Rattle.shared_driver.specs.Cores.{meaning};

    type Entry = Entry;

    ghost meaning = { meaning };
}

impl BoxedCore {
    fn new(alloc: Global, core: Core) -> Result<BoxedCore, NoMemory>
        ensures { IfOk result (λ b. b ≡ core) }
    {
        match Box::new(alloc, core) {
            Ok(core) => Ok(BoxedCore { core }),
            Err(_) => Err(NoMemory),
        }
    }

    fn inside(&mut self) -> &mut Core
        ensures* lends { sem 𝓛 (Lends boxed_row core_row self.entry result (λ w. w)) }
        ensures value { result.now ≡ self.old }
    {
        &mut *self.core
    }

    fn into_core(self) -> Core
        ensures { result ≡ self }
    {
        let BoxedCore { core } = self;
        Box::into_inner(core)
    }
}

/// The lock, with a first pass.
pub(crate) fn opened(alloc: Global, core: Core) -> Result<Opening<BoxedCore>, NoMemory>
    requires { Begins meaning core }
    ensures first { IfOk result (λ o. (first_of o.turns).value ≡ core) }
    ensures pass { IfOk result (λ o. IsOf o.turns o.pass × IsFree o.pass × (view_of o.pass ≡ newcomer meaning (first_of o.turns))) }
{
    let core = BoxedCore::new(alloc, core)?;
    match Turns::new(alloc, core) {
        Ok(opening) => Ok(opening),
        Err(_) => Err(NoMemory),
    }
}

/// What the lock held, when its last pass is spent.
pub(crate) fn closed(turns: Turns<BoxedCore>, pass: Pass<BoxedCore>) -> Core
    requires lock { IsOf turns pass }
    requires free { IsFree pass }
    requires sole { (view_of pass).counts.live ≡ 1 }
    ensures { Leaves meaning (first_of turns).value (view_of pass) result }
{
    turns.close(pass).into_core()
}

/// What a turn works on.
pub(crate) fn core_of(held: &mut Held<BoxedCore>) -> &mut Core
    ensures* lends { sem 𝓛 (Lends (held_row boxed_row entry_row) core_row held.entry result (λ w. record held.old { value = w })) }
    ensures value { result.now ≡ value_of held.old }
{
    held.value().inside()
}
