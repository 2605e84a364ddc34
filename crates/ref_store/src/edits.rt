//! What may be done to a node where it stands.

ghost use Rattle.ref_store.specs.Edits.{CountsAs};

use crate::nodes::Node;

/// A change of a node that its store need not hear of: the node keeps its rank, its edges, its size, its kind and its mark.
pub trait Edit<K: Node>: Drop {
    /// What it answers.
    type Output;

    /// Which nodes it may be made of.
    ghost may: { Self → K → Type 0 };

    /// What a node may become by it, and what it then answers.
    ghost does: { Self → K → K → Self.Output → Type 0 };

    /// Changes the node.
    fn edit(self, node: &mut K) -> Self::Output
        requires { may self node.old }
        ensures { does self node.old node.new result };

    /// The store's counts and sums stay as they are.
    ghost keeps: { (e : Self) (x y : K) (r : Self.Output) → does e x y r → CountsAs K.rank K.edges K.size K.kind K.mark x y };
}
