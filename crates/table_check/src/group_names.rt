//! The objects of a share group in their order.
use keyed_hash::HashKey;
use share_group::{Group, NameKind};
use std::process::Abort;

/// Binds a name that has no object.
fn bind(rt: &impl Abort, group: &mut Group, kind: NameKind, name: u32, object: u64) {
    assert!(rt; name > 0 && group.object(kind, name).is_none());
    group
        .bind_name(kind, name, object)
        .expect(rt, "memory is ample");
}

/// The objects of a group in order.
fn expect_edges(rt: &impl Abort, group: &Group, objects: &[u64]) {
    assert!(rt; group.edge_count() as usize == objects.len());
    for k in 0..group.edge_count() {
        assert!(rt; group.edge(k) == objects[k as usize], "{k}");
    }
}

static BOUND: [(NameKind, u32, u64); 7] = [
    (NameKind::Framebuffer, 7, 40),
    (NameKind::Texture, 2_147_483_647, 41),
    (NameKind::Texture, 2_147_483_646, 42),
    (NameKind::Buffer, 5, 43),
    (NameKind::Texture, 1, 44),
    (NameKind::Texture, u32::MAX, 45),
    (NameKind::Renderbuffer, 1, 46),
];

#[test]
fn objects_stand_by_their_kinds_and_names(rt: HostRuntime) {
    let mut group = Group::new(rt.alloc(), HashKey::PLAIN);
    for (kind, name, object) in &BOUND {
        bind(&rt, &mut group, *kind, *name, *object);
    }
    expect_edges(&rt, &group, &[44, 42, 41, 45, 43, 46, 40]);
    for object in [Some(41), None] {
        assert!(rt; group.delete(NameKind::Texture, 2_147_483_647) == object);
    }
    expect_edges(&rt, &group, &[44, 42, 45, 43, 46, 40]);
    group.names_rise();
}
