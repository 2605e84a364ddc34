//! glCopyTexImage2D and glCopyTexSubImage2D (OpenGL ES 1.1, section 3.7.2).
ghost use Rattle.std.specs.Prelude.{◌≡◌, ◌<◌, Some, None, OnErr, OnOk};
ghost use Rattle.egl_calls.specs.declared.kinds.Kind.TheVariants.{Gl as GlCall};
ghost use Rattle.egl_calls.specs.declared.kinds.GlKind.TheVariants.{CopyTexImage2d, CopyTexSubImage2d};
ghost use Rattle.egl_model.specs.Copies.{copied, copied_part, copied_part_rect};
ghost use Rattle.egl_model.specs.GlCalls.{gl_refusal};
ghost use Rattle.egl_model.specs.Sweep.{sweep};
ghost use Rattle.driver_core.specs.Costs.{IsCheap};

use crate::machine::Driver;
use driver_facts::name_of;
use egl_calls::arguments::{number, signed};
use egl_calls::places::{
    COPIED_PART_HEIGHT, COPIED_PART_WIDTH, COPIED_PART_X, COPIED_PART_Y, LEVEL, X_OFFSET, Y_OFFSET,
};
use egl_calls::{Call, NoMemory};
use pixel_rows::Rect;
use ref_store::Steps;
use std::alloc::Global;
use std::sync::ledger::Ledger;
use thread_part::copies_nothing;

/// The rectangle that a glCopyTexSubImage2D reads.
fn copied_part_rect(call: &Call) -> Rect
    ensures { result ≡ copied_part_rect call.now }
{
    Rect {
        x: signed(call, COPIED_PART_X),
        y: signed(call, COPIED_PART_Y),
        w: signed(call, COPIED_PART_WIDTH),
        h: signed(call, COPIED_PART_HEIGHT),
    }
}

impl Driver {
    /// Gives a level of the texture on which calls work what a thread reads.
    pub(crate) fn copy_level<L: Ledger>(
        &mut self,
        alloc: Global,
        thread: u32,
        context: u64,
        call: &Call,
        steps: &mut Steps<L>,
    ) -> Result<(), NoMemory>
        requires made { thread < self.old.made }
        requires kind { call.now.kind ≡ GlCall CopyTexImage2d }
        requires allowed { gl_refusal self.old.state thread context CopyTexImage2d call.now ≡ None }
        ensures state { OnOk result (self.new ≡ record self.old { state = sweep (copied self.old.state thread context call.now) }) }
        ensures steps { IsCheap self.old.state self.new.state steps.old steps.new }
        ensures err { OnErr result (self.new ≡ self.old) }
    {
        let level = number(call, LEVEL);
        if copies_nothing(call) {
            return self.give_level(context, level, None, steps);
        }
        match self.tables.copied_level(alloc, thread, context, call)? {
            Some(storage) => self.give_level(context, level, Some(storage), steps),
            None => {
                self.settled();
                Ok(())
            }
        }
    }

    /// Writes a part of a level's pixels by what a thread reads.
    pub(crate) fn copy_part(
        &mut self,
        thread: u32,
        context: u64,
        call: &Call,
    ) -> Result<(), NoMemory>
        requires made { thread < self.old.made }
        requires kind { call.now.kind ≡ GlCall CopyTexSubImage2d }
        requires allowed { gl_refusal self.old.state thread context CopyTexSubImage2d call.now ≡ None }
        ensures ok { OnOk result (self.new ≡ record self.old { state = copied_part self.old.state thread context call.now }) }
        ensures err { OnErr result (self.new ≡ self.old) }
    {
        let Some(storage) = self.tables.level_storage(context, number(call, LEVEL)) else {
            return Ok(());
        };
        let read = self.tables.bound_framebuffer(thread).read;
        let (x, y) = (name_of(call, X_OFFSET), name_of(call, Y_OFFSET));
        self.tables
            .objects
            .copy(read, storage, x, y, copied_part_rect(call))
    }
}
