//! Objects whose names are deleted.
ghost use Rattle.std.specs.Prelude.{◌≡◌, ◌+◌, ◌<◌, ◌≤◌, ℕ, List, Option, None, true, false, [], is_some, slice_index_or};
ghost use Rattle.std.specs.Option.{option_map_or};
ghost use Rattle.driver_objects.specs.Links.{bound_in};
ghost use Rattle.driver_objects.specs.Targets.{slot_of};
ghost use Rattle.driver_objects.specs.declared.objects.Object.{Object};
ghost use Rattle.egl_model.specs.Bindings.{freed, unbound_at, unbound_object};
ghost use Rattle.egl_model.specs.Objects.{change_context, context_in, group_in};
ghost use Rattle.egl_model.specs.Parts.{is_place};
ghost use Rattle.share_group.specs.Groups.{names_of};
ghost use Rattle.share_group.specs.Names.{object_of};
ghost use Rattle.object_table.specs.Links.{IsLeft, IsLeftWith};
ghost use Rattle.object_table.specs.Tables.{weight_of};

use crate::table::ObjectTable;
use driver_objects::BindTarget;
use ref_store::Steps;
use share_group::NameKind;
use std::sync::ledger::Ledger;

impl ObjectTable {
    // Whether a context has an object bound to a target.
    fn has_bound(&self, n: u64, target: BindTarget, object: u64) -> bool
        ensures { result ≡ option_map_or (λ c. is_place object (bound_in (slot_of target) c.bound)) (context_in self.now.objects n) false }
    {
        match self.context(n) {
            Some(context) => match target.bound(&context.bound) {
                Some(bound) => bound == object,
                None => false,
            },
            None => false,
        }
    }

    // A context that has the object bound to a target has nothing bound there.
    fn unbind_at<L: Ledger>(
        &mut self,
        n: u64,
        target: BindTarget,
        object: u64,
        steps: &mut Steps<L>,
    )
        ensures objects { IsLeft (change_context (unbound_at target object) n self.old.objects) self.new.objects }
        ensures holds { self.new.holds ≡ self.old.holds }
        ensures steps { steps.new + weight_of self.new.objects ≤ steps.old + weight_of self.old.objects }
    {
        if self.has_bound(n, target, object) {
            self.bind_name(n, target.binding(), 0);
            let _ = self.link(n, target.slot(), None, steps);
        }
    }

    // The same of each target to which objects with names of a kind are bound.
    fn unbind<L: Ledger>(&mut self, n: u64, kind: NameKind, object: u64, steps: &mut Steps<L>)
        ensures objects { IsLeft (change_context (unbound_object kind object) n self.old.objects) self.new.objects }
        ensures holds { self.new.holds ≡ self.old.holds }
        ensures steps { steps.new + weight_of self.new.objects ≤ steps.old + weight_of self.old.objects }
    {
        match kind {
            NameKind::Texture => self.unbind_at(n, BindTarget::Texture, object, steps),
            NameKind::Buffer => {
                self.unbind_at(n, BindTarget::ArrayBuffer, object, steps);
                self.unbind_at(n, BindTarget::ElementArrayBuffer, object, steps);
            }
            NameKind::Renderbuffer => self.unbind_at(n, BindTarget::Renderbuffer, object, steps),
            NameKind::Framebuffer => self.unbind_at(n, BindTarget::Framebuffer, object, steps),
        }
    }

    // What has the name, if anything has it, is detached and unbound, and the name is freed.
    fn delete_here<L: Ledger>(
        &mut self,
        group: u64,
        n: u64,
        kind: NameKind,
        name: u32,
        steps: &mut Steps<L>,
    )
        ensures objects { IsLeft (freed kind group n name (object_of name (option_map_or (names_of kind) (group_in self.old.objects group) [])) self.old.objects) self.new.objects }
        ensures holds { self.new.holds ≡ self.old.holds }
        ensures steps { steps.new + weight_of self.new.objects ≤ steps.old + weight_of self.old.objects }
    {
        match self.named(group, kind, name) {
            Some(object) => {
                self.detach_bound(n, object, steps);
                self.unbind(n, kind, object, steps);
                self.free_name(group, kind, name, steps);
            }
            None => self.free_name(group, kind, name, steps),
        }
    }

    /// Contexts are held: no object refers to one. This is a law: there is nothing to run.
    pub fn contexts_held(&self)
        ensures { (m : ℕ) → is_some (context_in self.now.objects m) ≡ true → 0 < slice_index_or self.now.holds m 0 }
    {
        self.store.edges_lead_down();
    }

    /// Frees a name of the context's group: its object is detached from the framebuffer that the context has bound, unbound from the context, and gone if nothing else refers to it. What was left of a table as it was written is left of it as the call writes it, and the context stays. It takes no memory, and costs what goes.
    pub fn delete_name<L: Ledger>(
        &mut self,
        group: u64,
        n: u64,
        kind: NameKind,
        name: u32,
        steps: &mut Steps<L>,
    )
        ensures objects { (written : List (Option Object)) → IsLeftWith n written self.old.objects → option_map_or (λ c. c.group) (context_in written n) group ≡ group → IsLeftWith n (freed kind group n name (object_of name (option_map_or (names_of kind) (group_in written group) [])) written) self.new.objects }
        ensures holds { self.new.holds ≡ self.old.holds }
        ensures steps { steps.new + weight_of self.new.objects ≤ steps.old + weight_of self.old.objects }
    {
        self.leads_down();
        self.contexts_held();
        self.delete_here(group, n, kind, name, steps);
        self.held_exist();
    }
}
