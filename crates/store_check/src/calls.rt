//! The calls of a store of pieces, each of which checks as it runs what the call requires.

ghost use Rattle.std.specs.Prelude.{◌≡◌, ℕ, ◌<◌, IfSome, IsSome, IsTrue, None, true};
ghost use Rattle.ref_store.specs.Kept.{at, rank_at, AllIn};
ghost use Rattle.ref_store.specs.Counts.{times};

use crate::pieces::{Fullness, Piece};
use ref_store::{NoMemory, Node, Steps, Store};
use std::process::Abort;
use std::sync::ledger::Ledger;

// The kinds, as the store counts them.
const FRAME: u32 = 0;

const TEXTURE: u32 = 1;

const STORAGE: u32 = 2;

fn expect_below(rt: &impl Abort, store: &Store<Piece>, target: Option<u64>, level: u32)
    requires { AllIn store.now.nodes }
    ensures stored { IfSome target (λ t. IsSome (at store.now.nodes t)) }
    ensures below { IfSome target (λ t. rank_at ⟦<Piece as Node>⟧.rank store.now.nodes t < level) }
{
    if let Some(id) = target {
        let piece = store.get(id).expect(rt, "the target is stored");
        assert!(rt; piece.rank() < level);
    }
}

fn is_vacant(store: &Store<Piece>, id: u64) -> bool
    requires { AllIn store.now.nodes }
    ensures { IsTrue result → at store.now.nodes id ≡ None }
{
    store.get(id).is_none()
}

fn put(rt: &impl Abort, store: &mut Store<Piece>, id: u64, piece: Piece)
    requires all_in { AllIn store.old.nodes }
    requires stored { (n : ℕ) → 0 < times n (⟦<Piece as Node>⟧.edges piece) → IsSome (at store.old.nodes n) }
    requires below { (n : ℕ) → 0 < times n (⟦<Piece as Node>⟧.edges piece) → rank_at ⟦<Piece as Node>⟧.rank store.old.nodes n < ⟦<Piece as Node>⟧.rank piece }
    ensures { AllIn store.new.nodes }
{
    assert!(rt; id < 1_000_000);
    assert!(rt; is_vacant(store, id));
    store.reserve(1).expect(rt, "memory is ample");
    store.put_new(id, piece);
}

pub fn put_frame(
    rt: &impl Abort,
    store: &mut Store<Piece>,
    id: u64,
    first: Option<u64>,
    second: Option<u64>,
)
    requires { AllIn store.old.nodes }
    ensures { AllIn store.new.nodes }
{
    expect_below(rt, store, first, 2);
    expect_below(rt, store, second, 2);
    put(rt, store, id, Piece::Frame(first, second));
}

pub fn put_texture(
    rt: &impl Abort,
    store: &mut Store<Piece>,
    id: u64,
    storage: Option<u64>,
    fullness: Fullness,
)
    requires { AllIn store.old.nodes }
    ensures { AllIn store.new.nodes }
{
    expect_below(rt, store, storage, 1);
    put(rt, store, id, Piece::Texture(storage, fullness));
}

pub fn put_storage(rt: &impl Abort, store: &mut Store<Piece>, id: u64, bytes: u16)
    requires { AllIn store.old.nodes }
    ensures { AllIn store.new.nodes }
{
    put(rt, store, id, Piece::Storage(bytes));
}

pub fn hold(rt: &impl Abort, store: &mut Store<Piece>, id: u64)
    requires { AllIn store.old.nodes }
    ensures { AllIn store.new.nodes }
{
    assert!(rt; store.get(id).is_some());
    assert!(rt; store.outside(id) < u32::MAX);
    store.hold(id);
}

pub fn release<L: Ledger>(rt: &impl Abort, store: &mut Store<Piece>, id: u64, steps: &mut Steps<L>)
    requires { AllIn store.old.nodes }
    ensures { AllIn store.new.nodes }
{
    assert!(rt; 0 < store.outside(id));
    store.release(id, steps);
}

fn has_slot(piece: &Piece, slot: u64) -> bool
    ensures { IsTrue result → ⟦<Piece as Node>⟧.has_slot piece.now slot ≡ true }
{
    match piece {
        Piece::Frame(_, _) => slot < 2,
        Piece::Texture(_, _) => slot == 0,
        Piece::Storage(_) => false,
    }
}

pub fn link<L: Ledger>(
    rt: &impl Abort,
    store: &mut Store<Piece>,
    id: u64,
    slot: u64,
    target: Option<u64>,
    steps: &mut Steps<L>,
) -> Result<(), NoMemory>
    requires { AllIn store.old.nodes }
    ensures { AllIn store.new.nodes }
{
    let piece = store.get(id).expect(rt, "the node is stored");
    assert!(rt; has_slot(piece, slot));
    let level = piece.rank();
    expect_below(rt, store, target, level);
    store.link(id, slot, 0, target, steps)
}

/// The number of stored pieces of each kind, and their bytes.
pub fn census(store: &Store<Piece>) -> [u64; 4] {
    [
        store.count_of(FRAME),
        store.count_of(TEXTURE),
        store.count_of(STORAGE),
        store.bytes(),
    ]
}
