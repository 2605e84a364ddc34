//! How a turn of a thread begins, and how it ends.
ghost use Rattle.std.specs.Prelude.{◌≡◌, true, None, IfSome};
ghost use Rattle.turn_lock.specs.Moves.{went};
ghost use Rattle.turn_lock.specs.Passes as passes;
ghost use Rattle.turn_lock.specs.Passes.{first_of, value_of, view_of, IsHeldOf, IsInTurn};
ghost use Rattle.shared_driver.specs.Cores.{meaning};
ghost use Rattle.driver_core.specs.LateDraws.{part_drawn_late};
ghost use Rattle.shared_driver.specs.Turns.{Begun, Ends, EndsWith, Holds};

use crate::boxes::{BoxedCore, core_of};
use crate::sleepers::Woken;
use crate::tokens::{Holding, Shared};
use driver_core::Drawing;
use rect_pipeline::Sampler;
use std::sync::Wait;
use thread_part::ThreadPart;
use turn_lock::Held;

/// Makes the draw that is left, if there is one, on a thread's part. It takes no memory.
fn draw_left(part: &mut ThreadPart, drawing: &Option<Drawing>)
    requires owned { IfSome part.old.own.draw (λ i. i.owned ≡ true) }
    ensures { part.new ≡ part_drawn_late drawing.now part.old }
{
    let Some(drawing) = drawing else {
        return;
    };
    match &drawing.from {
        Some(sampled) => {
            let sampler = Sampler {
                image: &sampled.image,
                texture: &sampled.texture,
                base_w: sampled.base_w,
                base_h: sampled.base_h,
            };
            part.draw(Some(sampler), drawing.rect);
        }
        None => part.draw(None, drawing.rect),
    }
}

impl Shared {
    /// Waits for a turn of the thread, and puts its private part back into the driver. Its own calls aren't handed in yet.
    pub(crate) fn begin_turn<R: Wait>(&self, hold: &mut Holding, rt: &R) -> Held<BoxedCore>
        requires owns { passes.IsOf self.now.turns hold.old.pass }
        requires holds { Holds hold.old }
        ensures lock { passes.IsOf self.now.turns hold.new.pass × IsHeldOf self.now.turns result }
        ensures turn { IsInTurn hold.new.pass }
        ensures begun { Begun (first_of self.now.turns).value hold.old hold.new (value_of result) }
        ensures kept { (hold.new.number ≡ hold.old.number) × (hold.new.tail ≡ hold.old.tail) × (hold.new.part ≡ None) }
    {
        let mut held = self.turns.take_turn(&mut hold.pass, rt);
        let Some(part) = hold.part.take() else {
            unreachable!()
        };
        core_of(&mut held).part_in(hold.number, part);
        held
    }

    /// Hands out the thread's private part again, and passes the turn on.
    pub(crate) fn end_turn(&self, hold: &mut Holding, mut held: Held<BoxedCore>)
        requires lock { passes.IsOf self.now.turns hold.old.pass × IsHeldOf self.now.turns held }
        requires turn { IsInTurn hold.old.pass }
        requires gone { hold.old.part ≡ None }
        requires ends { Ends (first_of self.now.turns).value hold.old (value_of held) }
        ensures owns { passes.IsOf self.now.turns hold.new.pass }
        ensures holds { Holds hold.new }
        ensures view { view_of hold.new.pass ≡ went meaning (view_of hold.old.pass) (value_of held) }
        ensures kept { (hold.new.number ≡ hold.old.number) × (hold.new.tail ≡ hold.old.tail) }
    {
        let part = core_of(&mut held).part_out(hold.number);
        let None = hold.part.replace(part) else {
            unreachable!()
        };
        self.turns.give_back(&mut hold.pass, held);
    }

    /// Hands out the thread's private part again, passes the turn on, and calls those whom the turn roused. Then it makes the draw that the turn's call has left, on the part: others needn't wait for it.
    pub(crate) fn end_turn_with(
        &self,
        hold: &mut Holding,
        mut held: Held<BoxedCore>,
        woken: &Woken,
        drawing: &Option<Drawing>,
    )
        requires lock { passes.IsOf self.now.turns hold.old.pass × IsHeldOf self.now.turns held }
        requires turn { IsInTurn hold.old.pass }
        requires gone { hold.old.part ≡ None }
        requires ends { EndsWith (first_of self.now.turns).value hold.old (value_of held) drawing.now }
        ensures owns { passes.IsOf self.now.turns hold.new.pass }
        ensures holds { Holds hold.new }
        ensures view { view_of hold.new.pass ≡ went meaning (view_of hold.old.pass) (value_of held) }
        ensures kept { (hold.new.number ≡ hold.old.number) × (hold.new.tail ≡ hold.old.tail) }
    {
        let mut part = core_of(&mut held).part_out(hold.number);
        self.turns.give_back(&mut hold.pass, held);
        self.news.call(woken);
        draw_left(&mut part, drawing);
        let None = hold.part.replace(part) else {
            unreachable!()
        };
    }
}
