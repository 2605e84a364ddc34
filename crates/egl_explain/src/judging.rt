//! What is told of a call: what came of it, and what the table of refusals says of it.
ghost use Rattle.std.specs.Prelude.{◌≡◌, ◌<◌, IfOk, OnOk};
ghost use Rattle.egl_model.specs.Step.{step};
ghost use Rattle.driver_facts.specs.Verdicts.{refusals};
ghost use Rattle.egl_explain.specs.Deciding.{deciding, refusal_in};

use driver_core::{Driver, Refusals};
use egl_calls::{Call, NoMemory, Reply};
use std::alloc::Global;

/// What is told of a call that was played: its reply, and the error of each row of its table that held before it.
#[derive(Drop)]
pub struct Told {
    pub reply: Reply,
    pub refusals: Refusals,
}

/// Plays one call of a thread and tells of it: the reply that the specification gives, and exactly the rows of the call's table that hold in the state before it. The first of these has the error of the reply, and where none holds the call isn't refused.
#[tactic(auto, using(crate::proofs::DecidingLaws::decided))]
pub fn play_told(
    alloc: Global,
    driver: &mut Driver,
    thread: u32,
    call: &Call,
) -> Result<Told, NoMemory>
    requires { thread < driver.old.made }
    ensures reply { IfOk result (λ told. told.reply ≡ (step driver.old.state thread call.now).reply) }
    ensures rows { IfOk result (λ told. told.refusals ≡ refusals driver.old.state thread call.now) }
    ensures decides { IfOk result (λ told. deciding told.refusals ≡ refusal_in told.reply.outcome) }
    ensures state { OnOk result (driver.new ≡ record driver.old { state = (step driver.old.state thread call.now).state }) }
{
    let refusals = driver.refusals(thread, call);
    let reply = driver.play(alloc, thread, call)?;
    Ok(Told { reply, refusals })
}
