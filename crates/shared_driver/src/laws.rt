//! What holds of every token.
ghost use Rattle.std.specs.Prelude.{◌≡◌, ◌+◌, ◌++◌, false, length};
ghost use Rattle.model_laws.specs.Frame.{AreOf};
ghost use Rattle.egl_model.specs.History.{IsLegalFrom};
ghost use Rattle.shared_driver.specs.Cores.{room_for};
ghost use Rattle.shared_driver.specs.Tokens.{IsOf, has_given_up, opening_of, room_of, token_of};

use crate::tokens::{Shared, Thread};

/// What a token has seen, with its own calls after it, is legal: each reply is the step's at its place, from the opening on.
pub fn what_a_token_has_seen_is_legal(shared: &Shared, thread: &Thread)
    requires owns { IsOf shared.now thread.now }
    ensures { IsLegalFrom (opening_of shared.now) ((token_of thread.now).seen ++ (token_of thread.now).tail) }
{}

/// A token's room is what the token needs, and no more: one while it is live, a place for its Halt until `halt` has used it, its free places, and one for each of its own calls.
pub fn a_token_has_the_room_it_needs(shared: &Shared, thread: &Thread)
    requires owns { IsOf shared.now thread.now }
    ensures room { room_of thread.now ≡ room_for thread.now.halt_used + (token_of thread.now).places + length (token_of thread.now).tail }
    ensures halt { has_given_up (token_of thread.now) ≡ false → thread.now.halt_used ≡ false }
{}

/// The calls that a token hasn't handed in are its own.
pub fn a_token_keeps_its_own_calls(thread: &Thread)
    ensures { AreOf (token_of thread.now).number (token_of thread.now).tail }
{}
