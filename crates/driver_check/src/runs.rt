//! Several calls in one turn.
ghost use Rattle.std.specs.Prelude.{nat_lt};

use crate::crowds::{finish, opened};
use crate::draws::egl;
use driver_core::Driver;
use egl_calls::{EglKind, Journal, NoMemory, Reply};
use shared_driver::{Opened, Pick, Picker, Runner};
use std::alloc::Global;
use std::process::Abort;
use std::sync::Wait;

/// Picks the same call until it was told of so many.
#[derive(Drop)]
struct Asking {
    alloc: Global,
    told: u64,
    wanted: u64,
}

impl Picker for Asking {
    ghost may = { λ s es d. Unit {0} };

    ghost picks = { λ s es d p t. Unit {0} };

    fn pick(&mut self, _journal: &Journal, _driver: &Driver) -> Result<Pick, NoMemory> {
        let call = egl(self.alloc, EglKind::GetDisplay, [0, 0, 0, 0]);
        Ok(Pick::Call(self.told, call))
    }
}

impl Runner for Asking {
    ghost told = { λ s r t. Unit {0} };

    ghost wants = { λ s r freed. nat_lt s.told s.wanted };

    fn again(&self, _reply: &Reply, _freed: bool) -> bool {
        self.told < self.wanted
    }

    fn tell(&mut self, _reply: Reply) {
        self.told = self.told.wrapping_add(1);
    }
}

// How many calls one turn plays, where the picker wants so many more than one.
fn played_in_turn<R: Abort + Wait>(rt: &R, alloc: Global, wanted: u64) -> u64 {
    let Opened { shared, mut thread } = opened(rt, alloc, 1000);
    let mut asking = Asking {
        alloc,
        told: 0,
        wanted,
    };
    let picked = shared.call_run(&mut thread, rt, alloc, &mut asking);
    assert!(rt; picked.is_ok());
    finish(rt, shared, thread).journal.len()
}

#[test]
fn a_turn_plays_what_its_picker_wants_up_to_a_bound(rt: HostRuntime) {
    for (wanted, played) in [(0, 1), (2, 3), (63, 64), (1000, 64)] {
        assert_eq!(rt; played_in_turn(&rt, rt.alloc(), wanted), played);
    }
}
