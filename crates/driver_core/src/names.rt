//! Names of share groups (OpenGL ES 1.1, section 3.7.11).
ghost use Rattle.std.specs.Prelude.{◌≡◌, ◌+◌, ◌-◌, ◌<◌, ◌≤◌, [], map, pos, false, length, All, IfOk, IfSome, OnErr, OnOk, None, Some};
ghost use Rattle.std.specs.Option.{option_map_or};
ghost use Rattle.driver_core.specs.Costs.{IsCheap};
ghost use Rattle.driver_facts.specs.Groups.{IsGroup};
ghost use Rattle.driver_objects.specs.Objects.{edges_of, rank_of};
ghost use Rattle.egl_calls.specs.Ranges.{IsNumber, is_client_wait};
ghost use Rattle.egl_model.specs.Arguments.{number};
ghost use Rattle.egl_model.specs.Bindings.{bound_anew, bound_name, bound_object, deleted_in, deleted_names, new_object};
ghost use Rattle.egl_model.specs.Names.{generated, group_of, names_in};
ghost use Rattle.egl_model.specs.Objects.{context_in};
ghost use Rattle.egl_model.specs.State.{State};
ghost use Rattle.egl_model.specs.Step.{done};
ghost use Rattle.egl_model.specs.Sweep.{sweep};
ghost use Rattle.object_table.specs.Links.{IsLeft};
ghost use Rattle.object_table.specs.Tables.{weight_of};
ghost use Rattle.share_group.specs.Names.{given};

use crate::contexts::new_texture;
use crate::machine::Driver;
use buffer_objects::Buffer;
use driver_facts::{listed_name, name_of};
use driver_objects::{BackedRenderbuffer, BindTarget, Object};
use egl_calls::places::{BOUND_NAME, COUNT};
use egl_calls::{Call, NoMemory, Numbers};
use framebuffer_objects::{Framebuffer, Renderbuffer};
use object_table::ObjectTable;
use ref_store::Steps;
use share_group::{Group, NameKind};
use std::alloc::Global;
use std::sync::ledger::Ledger;
use thread_part::Replies;

/// What a name gets that has no object: a texture or a renderbuffer without storage, a buffer without bytes, a framebuffer with nothing attached.
fn new_object(alloc: Global, target: BindTarget) -> Object
    ensures value { result ≡ new_object target }
    ensures plain { edges_of result ≡ [] }
    ensures lower { rank_of result < 3 }
{
    match target {
        BindTarget::Texture => new_texture(),
        BindTarget::ArrayBuffer | BindTarget::ElementArrayBuffer => {
            Object::Buffer(Buffer::new(alloc))
        }
        BindTarget::Renderbuffer => Object::Renderbuffer(BackedRenderbuffer {
            renderbuffer: Renderbuffer::new(),
            storage: None,
        }),
        BindTarget::Framebuffer => Object::Framebuffer(Framebuffer::new()),
    }
}

/// Frees the names of a list, one after another, and detaches and unbinds what has them.
fn delete_all<L: Ledger>(
    objects: &mut ObjectTable,
    group: u64,
    context: u64,
    kind: NameKind,
    call: &Call,
    steps: &mut Steps<L>,
)
    ensures objects { (s : State) → s.objects ≡ objects.old.objects → option_map_or (λ c. c.group) (context_in s.objects context) group ≡ group → IsLeft (deleted_in kind group context call.now.list s).objects objects.new.objects }
    ensures holds { objects.new.holds ≡ objects.old.holds }
    ensures steps { steps.new + weight_of objects.new.objects ≤ steps.old + weight_of objects.old.objects }
{
    'each: for k in 0..call.list.as_slice().len() {
        objects.delete_name(group, context, kind, listed_name(call, k), steps);
    }
}

impl Driver {
    /// Gives so many of the smallest unused names of a group. Where there is no such group they are those of a new one.
    fn give_names(
        &mut self,
        alloc: Global,
        group: u64,
        kind: NameKind,
        count: u32,
    ) -> Result<Numbers, NoMemory>
        ensures names { IfOk result (λ v. v ≡ map (λ i. pos i) (given count (names_in self.old.state group kind))) }
        ensures count { IfOk result (λ v. length v ≡ count) }
        ensures fit { IfOk result (λ v. All IsNumber v) }
        ensures state { OnOk result (self.new ≡ record self.old { state = (generated self.old.state group kind count).state }) }
        ensures err { OnErr result (self.new ≡ self.old) }
    {
        if self.tables.objects.is_group(group) {
            return self.tables.objects.generate(group, kind, count);
        }
        Group::new(alloc, self.key).generate(kind, count)
    }

    /// Gives names of the context's group, and answers them.
    pub(crate) fn generate<R: Replies>(
        &mut self,
        alloc: Global,
        context: u64,
        kind: NameKind,
        call: &Call,
    ) -> Result<R, NoMemory>
        requires { is_client_wait call.now.kind ≡ false }
        ensures reply { IfOk result (λ r. R.reply r ≡ done (generated self.old.state (group_of self.old.state context) kind (number call.now 0))) }
        ensures state { OnOk result (self.new ≡ record self.old { state = (generated self.old.state (group_of self.old.state context) kind (number call.now 0)).state }) }
        ensures err { OnErr result (self.new ≡ self.old) }
    {
        let count = name_of(call, COUNT);
        let room = R::room_for(alloc, count)?;
        let group = self.tables.group_number(context);
        let names = self.give_names(alloc, group, kind, count)?;
        Ok(R::of_list(alloc, names, room))
    }

    /// A context has an object bound to a target under a name, or nothing.
    fn bind_object<L: Ledger>(
        &mut self,
        context: u64,
        target: BindTarget,
        object: Option<u64>,
        name: u32,
        steps: &mut Steps<L>,
    )
        requires object { IfSome object (IsGroup self.old.state.objects) }
        ensures state { self.new ≡ record self.old { state = sweep (record self.old.state { objects = bound_object target context object name self.old.state.objects }) } }
        ensures steps { IsCheap self.old.state self.new.state steps.old steps.new }
    {
        self.tables
            .objects
            .bind_name(context, target.binding(), name);
        self.tables
            .objects
            .link_bound(context, target, object, steps);
        self.tables.objects.left();
    }

    /// Makes an object that has a name and is bound. It is held until the context refers to it.
    fn bind_anew<L: Ledger>(
        &mut self,
        alloc: Global,
        context: u64,
        target: BindTarget,
        name: u32,
        steps: &mut Steps<L>,
    ) -> Result<(), NoMemory>
        requires name { 0 < name }
        ensures state { OnOk result (self.new ≡ record self.old { state = sweep (record self.old.state { objects = bound_anew target (group_of self.old.state context) context name self.old.state.objects }) }) }
        ensures steps { IsCheap self.old.state self.new.state steps.old steps.new }
        ensures err { OnErr result (self.new ≡ self.old) }
    {
        let group = self.tables.group_number(context);
        self.tables.objects.reserve(1)?;
        let new = self.tables.objects.len();
        let first = new_object(alloc, target);
        match self
            .tables
            .objects
            .make_named(group, target.names(), name, first, steps)
        {
            Ok(()) => {
                self.tables.objects.held_exist();
                self.tables
                    .objects
                    .bind_name(context, target.binding(), name);
                self.tables
                    .objects
                    .link_bound(context, target, Some(new), steps);
                self.tables.objects.release(new, steps);
                self.tables.objects.left();
                Ok(())
            }
            Err(NoMemory) => Err(NoMemory),
        }
    }

    /// Binds what has a name to a target; with 0 the context's own texture, the framebuffer of the window system, or nothing.
    pub(crate) fn bind_name<L: Ledger>(
        &mut self,
        alloc: Global,
        context: u64,
        target: BindTarget,
        call: &Call,
        steps: &mut Steps<L>,
    ) -> Result<(), NoMemory>
        requires { is_client_wait call.now.kind ≡ false }
        ensures state { OnOk result (self.new ≡ record self.old { state = sweep (bound_name target self.old.state context (number call.now 1)) }) }
        ensures steps { IsCheap self.old.state self.new.state steps.old steps.new }
        ensures err { OnErr result (self.new ≡ self.old) }
    {
        let name = name_of(call, BOUND_NAME);
        if name == 0 {
            self.bind_object(context, target, None, 0, steps);
            return Ok(());
        }
        match self.tables.object_named(context, target.names(), name) {
            Some(object) => {
                self.bind_object(context, target, Some(object), name, steps);
                Ok(())
            }
            None => self.bind_anew(alloc, context, target, name, steps),
        }
    }

    /// Frees names of a kind, and detaches and unbinds what has them.
    pub(crate) fn delete_names<L: Ledger>(
        &mut self,
        context: u64,
        kind: NameKind,
        call: &Call,
        steps: &mut Steps<L>,
    )
        ensures state { self.new ≡ record self.old { state = sweep (deleted_names kind self.old.state context call.now.list) } }
        ensures steps { IsCheap self.old.state self.new.state steps.old steps.new }
    {
        let group = self.tables.group_number(context);
        delete_all(&mut self.tables.objects, group, context, kind, call, steps);
        self.tables.objects.left();
    }
}
