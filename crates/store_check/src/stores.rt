//! The store over pieces of three kinds.
ghost use Rattle.std.specs.Prelude.{◌≡◌, ◌<◌};
ghost use Rattle.ref_store.specs.Kept.{AllIn};

use crate::calls::{census, hold, link, put_frame, put_storage, put_texture, release};
use crate::pieces::{Fullness, Piece};
use ref_store::{Steps, Store};
use std::marker::Brand;
use std::process::Abort;
use std::sync::ledger::{Blank, Ledger};

/// What is done with the store, or is then told of it.
#[derive(Clone, Copy, Drop)]
enum Move {
    /// A frame and its pieces.
    Frame(u64, Option<u64>, Option<u64>),
    /// A texture and its storage.
    Texture(u64, Option<u64>, Fullness),
    /// A storage and its bytes.
    Storage(u64, u16),
    Hold(u64),
    Release(u64),
    /// The slot of a piece, and its new target.
    Link(u64, u64, Option<u64>),
    /// The same, where the piece has no memory for it.
    Refused(u64, u64, Option<u64>),
    /// How many frames, textures and storages are stored, and their bytes.
    Census([u64; 4]),
    /// How many references a piece has.
    References(u64, u64),
    /// Whether a piece is shown.
    Shown(u64, bool),
}

/// Sets a slot of a piece to a target, for which it has memory or not.
fn expect_link<L: Ledger>(
    rt: &impl Abort,
    store: &mut Store<Piece>,
    edge: (u64, u64, Option<u64>),
    has_memory: bool,
    steps: &mut Steps<L>,
)
    requires { AllIn store.old.nodes }
    ensures { AllIn store.new.nodes }
{
    let (id, slot, target) = edge;
    let linked = link(rt, store, id, slot, target, steps);
    assert!(rt; linked.is_ok() == has_memory);
}

fn play_one<L: Ledger>(
    rt: &impl Abort,
    store: &mut Store<Piece>,
    next: Move,
    k: usize,
    steps: &mut Steps<L>,
)
    requires { AllIn store.old.nodes }
    ensures { AllIn store.new.nodes }
{
    match next {
        Move::Frame(id, first, second) => put_frame(rt, store, id, first, second),
        Move::Texture(id, storage, fullness) => put_texture(rt, store, id, storage, fullness),
        Move::Storage(id, bytes) => put_storage(rt, store, id, bytes),
        Move::Hold(id) => hold(rt, store, id),
        Move::Release(id) => release(rt, store, id, steps),
        Move::Link(id, slot, target) => expect_link(rt, store, (id, slot, target), true, steps),
        Move::Refused(id, slot, target) => expect_link(rt, store, (id, slot, target), false, steps),
        Move::Census(counts) => assert!(rt; census(store) == counts, "row {k}"),
        Move::References(id, count) => assert!(rt; store.count(id) == count, "row {k}"),
        Move::Shown(id, shown) => assert!(rt; store.get(id).is_some() == shown, "row {k}"),
    }
}

fn play_all<R: Abort + AllocGlobal, L: Ledger>(rt: &R, moves: &[Move], blank: Blank)
    requires name { blank.name ≡ L.name }
    requires parts { blank.parts ≡ L.parts }
    requires some { 0 < blank.parts }
{
    let mut store = Store::new(rt.alloc());
    let mut steps: Steps<L> = Steps::open(blank);
    'each: for (k, next) in moves.iter().enumerate() {
        play_one(rt, &mut store, *next, k, &mut steps);
    }
}

fn play<R: Abort + AllocGlobal>(rt: &R, moves: &[Move]) {
    play_all::<_, Brand>(rt, moves, Blank::new(1));
}

static CHAIN: [Move; 15] = [
    Move::Storage(7, 100),
    Move::Texture(1, Some(7), Fullness::Roomy),
    Move::Texture(2, Some(7), Fullness::Full),
    Move::Frame(5, Some(1), Some(2)),
    Move::Frame(0, Some(7), Some(7)),
    Move::Hold(5),
    Move::Hold(0),
    Move::Census([2, 2, 1, 100]),
    Move::References(7, 4),
    Move::Release(5),
    Move::Census([1, 0, 1, 100]),
    Move::References(7, 2),
    Move::Release(0),
    Move::Census([0; 4]),
    Move::Shown(7, false),
];

#[test]
fn all_ranks_go_by_one_release(rt: HostRuntime) {
    play(&rt, &CHAIN);
}

static HELD_TWICE: [Move; 11] = [
    Move::Texture(0, None, Fullness::Roomy),
    Move::Frame(1, Some(0), Some(0)),
    Move::Hold(0),
    Move::Hold(0),
    Move::References(0, 4),
    Move::Release(0),
    Move::Release(0),
    Move::References(0, 2),
    Move::Hold(1),
    Move::Release(1),
    Move::Census([0; 4]),
];

#[test]
fn a_node_held_twice_stays_until_both_holds_end(rt: HostRuntime) {
    play(&rt, &HELD_TWICE);
}

/// The same target again; another one; past that to what it refers to; and none.
static RELINKED: [Move; 16] = [
    Move::Storage(0, 8),
    Move::Texture(1, Some(0), Fullness::Roomy),
    Move::Texture(2, Some(0), Fullness::Roomy),
    Move::Frame(3, Some(1), None),
    Move::Link(3, 0, Some(1)),
    Move::Census([1, 2, 1, 8]),
    Move::References(0, 2),
    Move::Link(3, 0, Some(2)),
    Move::Census([1, 1, 1, 8]),
    Move::References(0, 1),
    Move::Link(3, 0, Some(0)),
    Move::Census([1, 0, 1, 8]),
    Move::References(0, 1),
    Move::Link(3, 0, None),
    Move::Census([1, 0, 0, 0]),
    Move::References(0, 0),
];

#[test]
fn a_link_frees_the_former_target_and_keeps_what_is_still_held(rt: HostRuntime) {
    play(&rt, &RELINKED);
}

static NEW_NODES: [Move; 18] = [
    Move::Frame(0, None, None),
    Move::Texture(1, None, Fullness::Full),
    Move::Link(0, 1, Some(1)),
    Move::Storage(2, 16),
    Move::Refused(1, 0, Some(2)),
    Move::Census([1, 1, 1, 16]),
    Move::References(2, 0),
    Move::Hold(2),
    Move::Release(2),
    Move::Census([1, 1, 0, 0]),
    Move::Link(1, 0, None),
    Move::Texture(3, None, Fullness::Roomy),
    Move::Link(0, 1, Some(3)),
    Move::Storage(4, 32),
    Move::Link(3, 0, Some(4)),
    Move::Census([1, 1, 1, 32]),
    Move::References(3, 1),
    Move::References(4, 1),
];

#[test]
fn a_new_node_is_linked_or_goes_again(rt: HostRuntime) {
    play(&rt, &NEW_NODES);
}

/// A hundred links, each to a storage of its own.
fn link_often<R: Abort + AllocGlobal, L: Ledger>(rt: &R, blank: Blank)
    requires name { blank.name ≡ L.name }
    requires parts { blank.parts ≡ L.parts }
    requires some { 0 < blank.parts }
{
    let mut store = Store::new(rt.alloc());
    let mut steps: Steps<L> = Steps::open(blank);
    put_texture(rt, &mut store, 0, None, Fullness::Roomy);
    'links: for id in 1..101 {
        put_storage(rt, &mut store, id, 1);
        expect_link(rt, &mut store, (0, 0, Some(id)), true, &mut steps);
    }
    assert!(rt; census(&store) == [0, 1, 1, 1]);
}

#[test]
fn ample_memory_serves_a_hundred_links(rt: HostRuntime) {
    link_often::<_, Brand>(&rt, Blank::new(1));
}

#[test]
fn a_node_that_is_out_is_not_shown(rt: HostRuntime) {
    let mut store = Store::new(rt.alloc());
    put_storage(&rt, &mut store, 0, 4);
    hold(&rt, &mut store, 0);
    assert!(rt; store.get(0).is_some());
    let piece = store.take_node(0);
    assert!(rt; store.get(0).is_none() && store.count(0) == 1);
    store.put_node(0, piece);
    assert!(rt; store.get(0).is_some() && census(&store) == [0, 0, 1, 4]);
}
