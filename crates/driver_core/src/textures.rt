//! Textures (OpenGL ES 1.1, section 3.7).
ghost use Rattle.std.specs.Prelude.{◌≡◌, ◌<◌, length, None, Some, OnErr, OnOk};
ghost use Rattle.egl_calls.specs.declared.kinds.Kind.TheVariants.{Gl as GlCall};
ghost use Rattle.egl_calls.specs.declared.kinds.GlKind.TheVariants.{TexImage2d, TexParameteriv, TexSubImage2d};
ghost use Rattle.egl_model.specs.Arguments.{number};
ghost use Rattle.egl_model.specs.GlCalls.{gl_refusal};
ghost use Rattle.egl_model.specs.Sweep.{sweep};
ghost use Rattle.egl_model.specs.Textures.{level_of, level_storage, new_level, rewritten_part, set_crop, set_parameter, specified, target_texture, unpack_alignment};
ghost use Rattle.driver_core.specs.Costs.{IsCheap};

use crate::machine::Driver;
use driver_objects::{Object, Storage};
use egl_calls::arguments::number;
use egl_calls::places::LEVEL;
use egl_calls::{Call, NoMemory};
use ref_store::Steps;
use std::alloc::Global;
use std::sync::ledger::Ledger;
use thread_part::new_level;

impl Driver {
    fn set_parameter_of(&mut self, texture: u64, call: &Call)
        ensures { self.new ≡ record self.old { state = set_parameter (number call.now 1) (number call.now 2) (Some texture) self.old.state } }
    {
        self.tables.objects.set_parameter(texture, call);
    }

    /// Sets a parameter of the texture on which calls work.
    pub(crate) fn set_parameter(&mut self, context: u64, call: &Call)
        ensures { self.new ≡ record self.old { state = set_parameter (number call.now 1) (number call.now 2) (target_texture self.old.state context) self.old.state } }
    {
        match self.tables.target_texture(context) {
            Some(texture) => self.set_parameter_of(texture, call),
            None => (),
        }
    }

    fn set_crop_of(&mut self, texture: u64, call: &Call)
        requires { length call.now.list ≡ 4 }
        ensures { self.new ≡ record self.old { state = set_crop call.now.list (Some texture) self.old.state } }
    {
        self.tables.objects.set_crop(texture, call);
    }

    /// Sets the crop rectangle of the texture on which calls work.
    pub(crate) fn set_crop(&mut self, thread: u32, context: u64, call: &Call)
        requires kind { call.now.kind ≡ GlCall TexParameteriv }
        requires allowed { gl_refusal self.old.state thread context TexParameteriv call.now ≡ None }
        ensures { self.new ≡ record self.old { state = set_crop call.now.list (target_texture self.old.state context) self.old.state } }
    {
        let _ = thread;
        match self.tables.target_texture(context) {
            Some(texture) => self.set_crop_of(texture, call),
            None => (),
        }
    }

    /// Takes a level's storage from a texture.
    fn drop_level<L: Ledger>(&mut self, texture: u64, level: u64, steps: &mut Steps<L>)
        requires level { level < 11 }
        ensures state { self.new ≡ record self.old { state = sweep (specified level None (Some texture) self.old.state) } }
        ensures steps { IsCheap self.old.state self.new.state steps.old steps.new }
    {
        self.tables.objects.link_pixels(texture, level, None, steps);
        self.tables.objects.left();
    }

    /// Gives a level of a texture a new storage. It is held until the level refers to it.
    fn add_level<L: Ledger>(
        &mut self,
        texture: u64,
        level: u64,
        storage: Storage,
        steps: &mut Steps<L>,
    ) -> Result<(), NoMemory>
        requires level { level < 11 }
        ensures state { OnOk result (self.new ≡ record self.old { state = sweep (specified level (Some storage) (Some texture) self.old.state) }) }
        ensures steps { IsCheap self.old.state self.new.state steps.old steps.new }
        ensures err { OnErr result (self.new ≡ self.old) }
    {
        self.tables.objects.reserve(1)?;
        let new = self.tables.objects.len();
        self.tables.objects.make_one(Object::Storage(storage));
        self.tables
            .objects
            .link_pixels(texture, level, Some(new), steps);
        self.tables.objects.release(new, steps);
        self.tables.objects.left();
        Ok(())
    }

    /// Gives a level of the texture on which calls work a storage, or takes it away.
    pub(crate) fn give_level<L: Ledger>(
        &mut self,
        context: u64,
        level: u64,
        storage: Option<Storage>,
        steps: &mut Steps<L>,
    ) -> Result<(), NoMemory>
        requires level { level < 11 }
        ensures state { OnOk result (self.new ≡ record self.old { state = sweep (specified level storage (target_texture self.old.state context) self.old.state) }) }
        ensures steps { IsCheap self.old.state self.new.state steps.old steps.new }
        ensures err { OnErr result (self.new ≡ self.old) }
    {
        let Some(texture) = self.tables.target_texture(context) else {
            self.settled();
            return Ok(());
        };
        match storage {
            Some(storage) => self.add_level(texture, level, storage, steps),
            None => {
                self.drop_level(texture, level, steps);
                Ok(())
            }
        }
    }

    /// Gives a level of the texture on which calls work what a glTexImage2D gives it.
    pub(crate) fn set_level<L: Ledger>(
        &mut self,
        alloc: Global,
        thread: u32,
        context: u64,
        call: &Call,
        steps: &mut Steps<L>,
    ) -> Result<(), NoMemory>
        requires kind { call.now.kind ≡ GlCall TexImage2d }
        requires allowed { gl_refusal self.old.state thread context TexImage2d call.now ≡ None }
        ensures state { OnOk result (self.new ≡ record self.old { state = sweep (specified (level_of call.now) (new_level call.now (unpack_alignment self.old.state context)) (target_texture self.old.state context) self.old.state) }) }
        ensures steps { IsCheap self.old.state self.new.state steps.old steps.new }
        ensures err { OnErr result (self.new ≡ self.old) }
    {
        let _ = thread;
        let level = number(call, LEVEL);
        let storage = new_level(alloc, call, self.tables.objects.alignments(context).unpack)?;
        self.give_level(context, level, storage, steps)
    }

    /// Writes the part of a level's pixels that a glTexSubImage2D names.
    pub(crate) fn rewrite_part(
        &mut self,
        alloc: Global,
        thread: u32,
        context: u64,
        call: &Call,
    ) -> Result<(), NoMemory>
        requires kind { call.now.kind ≡ GlCall TexSubImage2d }
        requires allowed { gl_refusal self.old.state thread context TexSubImage2d call.now ≡ None }
        ensures state { OnOk result (self.new ≡ record self.old { state = rewritten_part call.now (unpack_alignment self.old.state context) (level_storage self.old.state context (level_of call.now)) self.old.state }) }
        ensures err { OnErr result (self.new ≡ self.old) }
    {
        let _ = thread;
        match self.tables.level_storage(context, number(call, LEVEL)) {
            Some(storage) => {
                let align = self.tables.objects.alignments(context).unpack;
                self.tables.objects.rewrite(alloc, storage, call, align)
            }
            None => Ok(()),
        }
    }
}
