//! Texts that are scenes.
use crate::texts::{add_lines, read};
use scene_reader::{ClipBox, Item, Part, ScaledPart, Scene, TiledPart, atlas_with, least_power};
use std::alloc::Global;
use std::process::Abort;

fn scene(rt: &impl Abort, alloc: Global, text: &str) -> Scene {
    match read(rt, alloc, text) {
        Ok(scene) => scene,
        Err(_) => panic!(rt; "{text} is no scene"),
    }
}

static ALL: &str =
    "egl-scene 1 2048 1\r\n# no item\n\n  atlas  3 2 1 #0102030405060708 \nsprite 3 1 0 1 1 -65536 65535 1024 1\nsmooth 3 0 0 2 1 0 -1 1 1024\ntile 3 0 0 1 1 2 3 4 5\nclip -65536 65535 65535 0\nnoclip";

fn part(u: u32, width: u32) -> Part {
    Part {
        atlas: 3,
        u,
        v: 0,
        width,
        height: 1,
    }
}

fn expect_atlas(rt: &impl Abort, scene: &Scene) {
    let Some(atlas) = atlas_with(&scene.items, 3) else {
        panic!(rt; "no atlas");
    };
    assert_eq!(rt; (atlas.width, atlas.height), (2, 1));
    assert_eq!(rt;
        atlas.texels.bytes().as_slice(),
        b"\x01\x02\x03\x04\x05\x06\x07\x08".as_slice()
    );
    assert!(rt; atlas_with(&scene.items, 1).is_none());
}

fn expect_item(rt: &impl Abort, place: usize, item: &Item) {
    match item {
        Item::Atlas(_) => assert_eq!(rt; place, 0),
        Item::Sprite(scaled) => {
            let wanted = ScaledPart {
                part: part(1, 1),
                x: -65_536,
                y: 65_535,
                width: 1_024,
                height: 1,
            };
            assert_eq!(rt; (place, *scaled), (1, wanted));
        }
        Item::Smooth(scaled) => {
            let wanted = ScaledPart {
                part: part(0, 2),
                x: 0,
                y: -1,
                width: 1,
                height: 1_024,
            };
            assert_eq!(rt; (place, *scaled), (2, wanted));
        }
        Item::Tile(tiled) => {
            let wanted = TiledPart {
                part: part(0, 1),
                x: 2,
                y: 3,
                columns: 4,
                rows: 5,
            };
            assert_eq!(rt; (place, *tiled), (3, wanted));
        }
        Item::Clip(clip) => {
            let wanted = ClipBox {
                x: -65_536,
                y: 65_535,
                width: 65_535,
                height: 0,
            };
            assert_eq!(rt; (place, *clip), (4, wanted));
        }
        Item::NoClip => assert_eq!(rt; place, 5),
    }
}

#[test]
fn each_item_is_read(rt: HostRuntime) {
    let scene = scene(&rt, rt.alloc(), ALL);
    assert_eq!(rt;
        (scene.width, scene.height, scene.items.len()),
        (2_048, 1, 6)
    );
    expect_atlas(&rt, &scene);
    for (place, item) in scene.items.iter().enumerate() {
        expect_item(&rt, place, item);
    }
}

#[test]
fn a_scene_may_have_4000_items(rt: HostRuntime) {
    let mut text = String::from_str(rt.alloc(), "egl-scene 1 4 1\n").expect(&rt, "memory");
    add_lines(&rt, &mut text, "noclip\n", 4_000);
    let scene = scene(&rt, rt.alloc(), &text);
    assert_eq!(rt; scene.items.len(), 4_000);
}

static POWERS: [(u32, u32); 7] = [
    (1, 1),
    (2, 2),
    (3, 4),
    (64, 64),
    (65, 128),
    (1_023, 1_024),
    (1_024, 1_024),
];

#[test]
fn a_power_is_the_least(rt: HostRuntime) {
    for (n, power) in &POWERS {
        assert_eq!(rt; least_power(*n), *power);
    }
}
