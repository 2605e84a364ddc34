//! The renderbuffers of a table (OES_framebuffer_object).
ghost use Rattle.std.specs.Prelude.{◌≡◌, refl, is_some, option_copied};
ghost use Rattle.egl_model.specs.Objects.{as_renderbuffer, change_renderbuffer, renderbuffer_in, with_renderbuffer};
ghost use Rattle.egl_model.specs.Renderbuffers.{with_kind};
ghost use Rattle.ref_store.specs.Kept.{at, AllIn};
ghost use Rattle.object_table.specs.Keeps.{renderbuffer_counted};
ghost use Rattle.object_table.specs.Nodes.{object_in};

use crate::changes::{Change, edit_at};
use crate::reads::object_at;
use crate::stored::Stored;
use crate::table::ObjectTable;
use driver_objects::{BackedRenderbuffer, Object};
use framebuffer_objects::Renderbuffer;
use ref_store::Store;

fn is_renderbuffer_at(store: &Store<Stored>, n: u64) -> bool
    requires { AllIn store.now.nodes }
    ensures { result ≡ is_some (as_renderbuffer (object_in (at store.now.nodes n))) }
{
    matches!(object_at(store, n), Some(Object::Renderbuffer(_)))
}

fn renderbuffer_at(store: &Store<Stored>, n: u64) -> Option<&BackedRenderbuffer>
    requires { AllIn store.now.nodes }
    ensures { option_copied result ≡ as_renderbuffer (object_in (at store.now.nodes n)) }
{
    match object_at(store, n) {
        Some(Object::Renderbuffer(renderbuffer)) => Some(renderbuffer),
        _ => None,
    }
}

#[derive(Drop)]
struct SetKind {
    kind: Renderbuffer,
}

impl Change for SetKind {
    type Output = ();

    ghost after = { λ e r o. with_renderbuffer (with_kind e.kind) o };

    ghost keeps = { λ e r x y m h. renderbuffer_counted (with_kind e.kind) (λ v. refl) x y h };

    fn change(self, object: &mut Object) {
        if let Object::Renderbuffer(renderbuffer) = object {
            renderbuffer.renderbuffer = self.kind;
        }
    }
}

impl ObjectTable {
    /// Whether there is a renderbuffer of this number.
    pub fn is_renderbuffer(&self, n: u64) -> bool
        ensures { result ≡ is_some (renderbuffer_in self.now.objects n) }
    {
        is_renderbuffer_at(&self.store, n)
    }

    /// The renderbuffer of a number.
    pub fn renderbuffer(&self, n: u64) -> Option<&BackedRenderbuffer>
        ensures { option_copied result ≡ renderbuffer_in self.now.objects n }
    {
        renderbuffer_at(&self.store, n)
    }

    /// Gives a renderbuffer another kind and other sides; its pixels stay as they are. It takes no memory.
    pub fn set_kind(&mut self, n: u64, kind: Renderbuffer)
        ensures { self.new ≡ record self.old { objects = change_renderbuffer (with_kind kind) n self.old.objects } }
    {
        edit_at(&mut self.store, n, SetKind { kind }, ());
    }
}
