//! The change of an object where it stands.
ghost use Rattle.std.specs.Prelude.{◌≡◌, ⊤, Option, Some, None};
ghost use Rattle.driver_objects.specs.declared.objects.Object.{Object};
ghost use Rattle.ref_store.specs.Kept.{at, AllIn};
ghost use Rattle.object_table.specs.Changes.{ChangesOne};
ghost use Rattle.object_table.specs.Keeps.{IsCountedAs, counted_node};
ghost use Rattle.object_table.specs.Nodes.{object_in};

use crate::stored::Stored;
use driver_objects::Object;
use ref_store::{Edit, Store};

/// A change of an object that keeps its kind, its references, its bytes and the window that it shows in. It leaves objects of other kinds as they are.
pub(crate) trait Change: Drop {
    /// What it answers.
    type Output: Drop;

    /// Of what it may be made, where there is an object or none.
    ghost may: { Self → Option Object → Type 0 } = { λ e o. ⊤ };

    /// What it makes of that, by what it answers.
    ghost after: { Self → Self.Output → Option Object → Option Object };

    /// What it may answer of that.
    ghost answers: { Self → Option Object → Self.Output → Type 0 } = { λ e o r. ⊤ };

    /// Changes the object.
    fn change(self, object: &mut Object) -> Self::Output
        requires { may self (Some object.old) }
        ensures object { Some object.new ≡ after self result (Some object.old) }
        ensures answer { answers self (Some object.old) result };

    /// The store counts the object as before.
    ghost keeps: { (e : Self) (r : Self.Output) (x y : Object) → may e (Some x) → Some y ≡ after e r (Some x) → IsCountedAs x y };
}

/// A change of the object of a node.
#[derive(Drop)]
struct Changing<C> {
    change: C,
}

impl<C: Change> Edit<Stored> for Changing<C> {
    type Output = C::Output;

    ghost may = { λ e x. C.may e.change (Some x.object) };

    ghost does = { λ e x y r. C.may e.change (Some x.object) × (Some y.object ≡ C.after e.change r (Some x.object)) × C.answers e.change (Some x.object) r };

    ghost keeps = { λ e x y r h. counted_node x y (C.keeps e.change r x.object y.object h.0 h.1) };

    fn edit(self, stored: &mut Stored) -> C::Output {
        self.change.change(&mut stored.object)
    }
}

/// Changes the object of a number where it stands, and answers what the change does; `absent` where there is no object. It is looked up once.
pub(crate) fn edit_at<C: Change>(
    store: &mut Store<Stored>,
    n: u64,
    change: C,
    absent: C::Output,
) -> C::Output
    requires all_in { AllIn store.old.nodes }
    requires may { C.may change (object_in (at store.old.nodes n)) }
    requires none { C.after change absent None ≡ None }
    requires absent { C.answers change None absent }
    ensures object { ChangesOne store.old n (C.after change result) store.new }
    ensures answer { C.answers change (object_in (at store.old.nodes n)) result }
{
    match store.edit(n, Changing { change }) {
        Some(answer) => answer,
        None => absent,
    }
}
