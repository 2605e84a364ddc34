//! The trace of a scene.
ghost use Rattle.std.specs.Prelude.{◌≡◌, ◌++◌, IfOk, Ok, OnOk};
ghost use Rattle.std.specs.List.{flat_map};
ghost use Rattle.trace_reader.specs.Grammar.{trace};
ghost use Rattle.scene_reader.specs.Scenes.{IsScene};
ghost use Rattle.sprite_scene.specs.Calls.{calls_of};
ghost use Rattle.scene_trace.specs.Lines as values;

use crate::lines::put_line;
use egl_calls::{Bytes, Call, NoMemory};
use journal_text::texts::put_text;
use scene_reader::Scene;
use sprite_scene::{calls_draw, emit};
use std::alloc::Global;

fn put_lines(out: &mut Bytes, calls: &[Call]) -> Result<(), NoMemory>
    ensures { OnOk result (out.new ≡ out.old ++ flat_map values.call_line calls.now) }
{
    'each: for call in calls {
        put_line(out, call)?;
    }
    Ok(())
}

/// Each scene is as scenes are.
fn is_scene(scene: &Scene)
    ensures { IsScene scene.now }
{
    let _items = scene.items.as_slice();
}

/// What is true of each scene: its text spells the trace whose lines are the calls that draw it.
pub fn text_is_read(scene: &Scene)
    ensures { trace (values.scene_text scene.now) ≡ Ok (values.trace_of (calls_of scene.now)) }
{
    is_scene(scene);
    calls_draw(scene);
}

/// The trace of one thread whose lines are the calls that draw a scene, as `emit` gives them. It allows 1,073,741,824 bytes for pixels, and assigns no variable.
#[tactic(auto, unfolding(crate::specs::Lines::scene_text))]
pub fn scene_text(alloc: Global, scene: &Scene) -> Result<Bytes, NoMemory>
    ensures text { IfOk result (λ b. b ≡ values.scene_text scene.now) }
    ensures calls { IfOk result (λ b. trace b ≡ Ok (values.trace_of (calls_of scene.now))) }
{
    text_is_read(scene);
    let calls = emit(alloc, scene)?;
    let mut out = Bytes::new(alloc);
    put_text(&mut out, "egl-trace 1 1\nvideo 1073741824\n")?;
    put_lines(&mut out, calls.as_slice())?;
    Ok(out)
}
