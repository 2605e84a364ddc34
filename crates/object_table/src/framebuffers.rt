//! The framebuffers of a table (OES_framebuffer_object).
ghost use Rattle.std.specs.Prelude.{◌≡◌, ◌+◌, ◌<◌, ◌≤◌, None, Some, false, IfSome, IsSome, is_some, option_copied, slice_index_or};
ghost use Rattle.std.specs.Option.{option_map_or};
ghost use Rattle.driver_objects.specs.Links.{point_slot};
ghost use Rattle.egl_model.specs.Bindings.{bound_framebuffer_in, detached_at, detached_from, detached_on};
ghost use Rattle.egl_model.specs.Links.{rank_in};
ghost use Rattle.egl_model.specs.Objects.{as_framebuffer, change_framebuffer, framebuffer_in, with_framebuffer};
ghost use Rattle.egl_model.specs.Parts.{is_place};
ghost use Rattle.framebuffer_objects.specs.Framebuffers.{at_point, object_of, with_point};
ghost use Rattle.ref_store.specs.Kept.{at, AllIn};
ghost use Rattle.object_table.specs.Keeps.{framebuffer_counted, renamed_slots};
ghost use Rattle.object_table.specs.Links.{IsLeft, renamed};
ghost use Rattle.object_table.specs.Nodes.{object_in};
ghost use Rattle.object_table.specs.Tables.{weight_of};

use crate::changes::{Change, edit_at};
use crate::reads::object_at;
use crate::stored::Stored;
use crate::table::ObjectTable;
use driver_objects::Object;
use framebuffer_objects::{Attached, Framebuffer, Point};
use ref_store::{Steps, Store};
use std::sync::ledger::Ledger;

/// The slot of a framebuffer's point.
fn slot_of(point: Point) -> u64
    ensures { result ≡ point_slot point }
{
    match point {
        Point::Color => 0,
        Point::Depth => 1,
        Point::Stencil => 2,
    }
}

fn is_framebuffer_at(store: &Store<Stored>, n: u64) -> bool
    requires { AllIn store.now.nodes }
    ensures { result ≡ is_some (as_framebuffer (object_in (at store.now.nodes n))) }
{
    matches!(object_at(store, n), Some(Object::Framebuffer(_)))
}

fn framebuffer_at(store: &Store<Stored>, n: u64) -> Option<&Framebuffer>
    requires { AllIn store.now.nodes }
    ensures { option_copied result ≡ as_framebuffer (object_in (at store.now.nodes n)) }
{
    match object_at(store, n) {
        Some(Object::Framebuffer(framebuffer)) => Some(framebuffer),
        _ => None,
    }
}

/// Whether an object is attached at a point.
fn is_attached(framebuffer: &Framebuffer, point: Point, object: u64) -> bool
    ensures { result ≡ is_place object (object_of (at_point point framebuffer.now)) }
{
    match framebuffer.part(point) {
        Some(part) => part == object,
        None => false,
    }
}

fn set_point(framebuffer: &mut Framebuffer, point: Point, attached: Attached)
    ensures { framebuffer.new ≡ with_point point (Some attached) framebuffer.old }
{
    if attached.texture {
        framebuffer.attach_texture(point, attached.name, attached.object);
    } else {
        framebuffer.attach_renderbuffer(point, attached.name, attached.object);
    }
}

#[derive(Drop)]
struct Rename {
    point: Point,
    attached: Attached,
}

impl Change for Rename {
    type Output = ();

    ghost after = { λ e r o. with_framebuffer (renamed e.point e.attached) o };

    ghost keeps = { λ e r x y m h. framebuffer_counted (renamed e.point e.attached) (renamed_slots e.point e.attached) x y h };

    fn change(self, object: &mut Object) {
        if let Object::Framebuffer(framebuffer) = object {
            if is_attached(framebuffer, self.point, self.attached.object) {
                set_point(framebuffer, self.point, self.attached);
            }
        }
    }
}

impl ObjectTable {
    /// Whether there is a framebuffer of this number.
    pub fn is_framebuffer(&self, n: u64) -> bool
        ensures { result ≡ is_some (framebuffer_in self.now.objects n) }
    {
        is_framebuffer_at(&self.store, n)
    }

    /// The framebuffer of a number.
    pub fn framebuffer(&self, n: u64) -> Option<&Framebuffer>
        ensures { option_copied result ≡ framebuffer_in self.now.objects n }
    {
        framebuffer_at(&self.store, n)
    }

    // What is attached at a point is said to be a texture or a renderbuffer, and gets its name.
    fn rename(&mut self, n: u64, point: Point, attached: Attached)
        ensures value { self.new ≡ record self.old { objects = change_framebuffer (renamed point attached) n self.old.objects } }
        ensures weight { weight_of self.new.objects ≡ weight_of self.old.objects }
    {
        edit_at(&mut self.store, n, Rename { point, attached }, ());
    }

    /// Attaches an object at a point of a framebuffer under a name, or detaches what is there. What nothing reaches any more from what is held is gone then. It takes no memory.
    pub fn attach<L: Ledger>(
        &mut self,
        n: u64,
        point: Point,
        attached: Option<Attached>,
        steps: &mut Steps<L>,
    )
        requires target { IfSome attached (λ a. IsSome (slice_index_or self.old.objects a.object None) × (rank_in (slice_index_or self.old.objects a.object None) < 2)) }
        ensures objects { IsLeft (change_framebuffer (with_point point attached) n self.old.objects) self.new.objects }
        ensures holds { self.new.holds ≡ self.old.holds }
        ensures steps { steps.new + weight_of self.new.objects ≤ steps.old + 2 + weight_of self.old.objects }
    {
        if !self.is_framebuffer(n) {
            return;
        }
        match attached {
            Some(attached) => {
                let _ = self.link(n, slot_of(point), Some(attached.object), steps);
                self.rename(n, point, attached);
            }
            None => {
                let _ = self.link(n, slot_of(point), None, steps);
            }
        }
    }

    // Whether a framebuffer has an object attached at a point.
    fn has_attached(&self, n: u64, point: Point, object: u64) -> bool
        ensures { result ≡ option_map_or (λ f. is_place object (object_of (at_point point f))) (framebuffer_in self.now.objects n) false }
    {
        match self.framebuffer(n) {
            Some(framebuffer) => is_attached(framebuffer, point, object),
            None => false,
        }
    }

    // An object is detached from a point of a framebuffer, if it is attached there.
    fn detach_at<L: Ledger>(&mut self, n: u64, point: Point, object: u64, steps: &mut Steps<L>)
        ensures objects { IsLeft (change_framebuffer (detached_at point object) n self.old.objects) self.new.objects }
        ensures holds { self.new.holds ≡ self.old.holds }
        ensures steps { steps.new + weight_of self.new.objects ≤ steps.old + weight_of self.old.objects }
    {
        if self.has_attached(n, point, object) {
            let _ = self.link(n, slot_of(point), None, steps);
        }
    }

    // The same of each of its points.
    fn detach<L: Ledger>(&mut self, n: u64, object: u64, steps: &mut Steps<L>)
        ensures objects { IsLeft (change_framebuffer (detached_from object) n self.old.objects) self.new.objects }
        ensures holds { self.new.holds ≡ self.old.holds }
        ensures steps { steps.new + weight_of self.new.objects ≤ steps.old + weight_of self.old.objects }
    {
        self.detach_at(n, Point::Color, object, steps);
        self.detach_at(n, Point::Depth, object, steps);
        self.detach_at(n, Point::Stencil, object, steps);
    }

    // The framebuffer that a context has bound.
    fn bound_framebuffer(&self, n: u64) -> Option<u64>
        ensures { result ≡ bound_framebuffer_in n self.now.objects }
    {
        match self.context(n) {
            Some(context) => context.bound.framebuffer,
            None => None,
        }
    }

    /// An object is detached from the framebuffer that a context has bound, wherever it is attached. What nothing reaches any more from what is held is gone then. It takes no memory, and costs what goes.
    pub(crate) fn detach_bound<L: Ledger>(&mut self, n: u64, object: u64, steps: &mut Steps<L>)
        ensures objects { IsLeft (detached_on (bound_framebuffer_in n self.old.objects) object self.old.objects) self.new.objects }
        ensures holds { self.new.holds ≡ self.old.holds }
        ensures steps { steps.new + weight_of self.new.objects ≤ steps.old + weight_of self.old.objects }
    {
        match self.bound_framebuffer(n) {
            Some(bound) => self.detach(bound, object, steps),
            None => (),
        }
    }
}
