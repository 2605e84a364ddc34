//! Objects of each kind: their bytes and references, and what they have in their slots.
use buffer_objects::Buffer;
use context_state::{Bindings, ContextPart};
use driver_objects::{
    BackedRenderbuffer, BackedSurface, BackedTexture, BindTarget, BoundObjects, Context, Object,
    ObjectKind, Storage, buffer_target,
};
use egl_image::EglImage;
use egl_names::codes::{
    GL_ARRAY_BUFFER, GL_ARRAY_BUFFER_BINDING, GL_ELEMENT_ARRAY_BUFFER,
    GL_ELEMENT_ARRAY_BUFFER_BINDING, GL_FRAMEBUFFER_BINDING_OES, GL_RENDERBUFFER_BINDING_OES,
    GL_TEXTURE_BINDING_2D,
};
use framebuffer_objects::{Framebuffer, Point, Renderbuffer};
use keyed_hash::HashKey;
use pixel_formats::Format;
use pixel_rows::Image;
use share_group::{Group, NameKind};
use std::alloc::Global;
use std::process::Abort;
use surface_store::Surface;
use texture_objects::{LEVELS, Texture};

fn context(bound: BoundObjects) -> Object {
    Object::Context(Context {
        config: 4,
        display: 1,
        part: Some(ContextPart::new()),
        group: 7,
        texture: 8,
        bound,
        names: Bindings {
            texture: 0,
            array_buffer: 0,
            element_array_buffer: 0,
            renderbuffer: 0,
            framebuffer: 0,
        },
        flushed: 0,
    })
}

/// A texture and a framebuffer.
const SOME_BOUND: BoundObjects = BoundObjects {
    texture: Some(4),
    array_buffer: None,
    element_array_buffer: None,
    renderbuffer: None,
    framebuffer: Some(2),
};

const ALL_BOUND: BoundObjects = BoundObjects {
    texture: Some(1),
    array_buffer: Some(2),
    element_array_buffer: Some(3),
    renderbuffer: Some(4),
    framebuffer: Some(5),
};

/// A texture with a storage at its level 1 and one at its last.
fn texture() -> Object {
    let mut levels = [None; LEVELS];
    levels[1] = Some(5);
    levels[LEVELS - 1] = Some(6);
    Object::Texture(BackedTexture {
        texture: Texture::new(),
        levels,
    })
}

/// A group with a texture that has the name 3, and a name that was generated and has no object.
fn group(rt: &impl Abort, alloc: Global) -> Object {
    let mut group = Group::new(alloc, HashKey::PLAIN);
    group
        .generate(NameKind::Texture, 1)
        .expect(rt, "memory is ample");
    assert!(rt; group.object(NameKind::Texture, 3).is_none());
    group
        .bind_name(NameKind::Texture, 3, 8)
        .expect(rt, "memory is ample");
    Object::Group(group)
}

fn surface(rt: &impl Abort, alloc: Global) -> Object {
    let surface = Surface::pbuffer(alloc, 4, 3, 5, false).expect(rt, "memory is ample");
    Object::Surface(BackedSurface {
        surface,
        storage: 9,
        window: Some(3),
    })
}

fn buffer(rt: &impl Abort, alloc: Global) -> Object {
    let mut buffer = Buffer::new(alloc);
    buffer.data(7, 0, None).expect(rt, "memory is ample");
    Object::Buffer(buffer)
}

fn renderbuffer(storage: Option<u64>) -> Object {
    Object::Renderbuffer(BackedRenderbuffer {
        renderbuffer: Renderbuffer::new(),
        storage,
    })
}

/// A framebuffer with a texture as colour, and a renderbuffer as stencil.
fn framebuffer() -> Framebuffer {
    let mut framebuffer = Framebuffer::new();
    framebuffer.attach_texture(Point::Color, 3, 8);
    framebuffer.attach_renderbuffer(Point::Stencil, 4, 9);
    framebuffer
}

fn storage(rt: &impl Abort, alloc: Global) -> Object {
    let image = Image::new(alloc, Format::Rgba8888, 3, 5);
    Object::Storage(Storage::new(image.expect(rt, "memory is ample")))
}

/// An object has these references.
fn expect_edges(rt: &impl Abort, object: &Object, edges: &[u64]) {
    assert!(rt; object.edge_count() as usize == edges.len());
    for k in 0..object.edge_count() {
        assert!(rt; object.edge(k) == edges[k as usize], "{k}");
    }
}

/// An object is of a kind, with so many bytes and these references.
fn expect(rt: &impl Abort, object: Object, kind: ObjectKind, bytes: u64, edges: &[u64]) {
    assert!(rt; object.kind() == kind && object.bytes() == bytes);
    expect_edges(rt, &object, edges);
}

#[test]
fn contexts_have_what_is_bound(rt: HostRuntime) {
    let (some, all) = (context(SOME_BOUND), context(ALL_BOUND));
    expect(&rt, some, ObjectKind::Context, 0, &[7, 8, 4, 2]);
    expect(&rt, all, ObjectKind::Context, 0, &[7, 8, 1, 2, 3, 4, 5]);
}

#[test]
fn objects_with_names_have_what_is_set(rt: HostRuntime) {
    let alloc = rt.alloc();
    expect(&rt, group(&rt, alloc), ObjectKind::Group, 0, &[8]);
    expect(&rt, texture(), ObjectKind::Texture, 0, &[5, 6]);
    expect(&rt, buffer(&rt, alloc), ObjectKind::Buffer, 7, &[]);
    expect(&rt, renderbuffer(None), ObjectKind::Renderbuffer, 0, &[]);
    expect(
        &rt,
        renderbuffer(Some(9)),
        ObjectKind::Renderbuffer,
        0,
        &[9],
    );
    let framebuffer = Object::Framebuffer(framebuffer());
    expect(&rt, framebuffer, ObjectKind::Framebuffer, 0, &[8, 9]);
}

#[test]
fn surfaces_and_images_have_their_pixels(rt: HostRuntime) {
    let alloc = rt.alloc();
    let image = Object::Image(EglImage { storage: 9 });
    expect(&rt, surface(&rt, alloc), ObjectKind::Surface, 0, &[9]);
    expect(&rt, image, ObjectKind::Image, 0, &[9]);
    expect(&rt, storage(&rt, alloc), ObjectKind::Storage, 60, &[]);
}

/// A target has its slot, its binding and its object.
fn expect_target(rt: &impl Abort, target: BindTarget, slot: u64, binding: u64, object: u64) {
    assert!(rt; target.slot() == slot && target.binding() == binding);
    assert!(rt; target.bound(&ALL_BOUND) == Some(object));
}

#[test]
fn each_target_has_its_slot_and_its_object(rt: HostRuntime) {
    let array = buffer_target(GL_ARRAY_BUFFER);
    let elements = buffer_target(GL_ELEMENT_ARRAY_BUFFER);
    expect_target(&rt, BindTarget::Texture, 2, GL_TEXTURE_BINDING_2D, 1);
    expect_target(&rt, array, 3, GL_ARRAY_BUFFER_BINDING, 2);
    expect_target(&rt, elements, 4, GL_ELEMENT_ARRAY_BUFFER_BINDING, 3);
    expect_target(
        &rt,
        BindTarget::Renderbuffer,
        5,
        GL_RENDERBUFFER_BINDING_OES,
        4,
    );
    expect_target(
        &rt,
        BindTarget::Framebuffer,
        6,
        GL_FRAMEBUFFER_BINDING_OES,
        5,
    );
}

/// A slot of a framebuffer, what is attached there, and all that is attached once another object is, or nothing.
static SLOTS: [(u64, Option<u64>, &[u64], &[u64]); 3] = [
    (0, Some(8), &[5, 9], &[9]),
    (1, None, &[8, 5, 9], &[8, 9]),
    (2, Some(9), &[8, 5], &[8]),
];

/// Sets a slot of a framebuffer, which answers what it had and leaves these references.
fn expect_linked(
    rt: &impl Abort,
    slot: u64,
    target: Option<u64>,
    former: Option<u64>,
    edges: &[u64],
) {
    assert!(rt; slot < 3);
    let mut object = Object::Framebuffer(framebuffer());
    let had = object.link(slot, target).expect(rt, "no memory is wanted");
    assert!(rt; had == former, "{slot}");
    expect_edges(rt, &object, edges);
}

#[test]
fn a_slot_of_a_framebuffer_is_a_point(rt: HostRuntime) {
    for (slot, former, linked, cleared) in &SLOTS {
        expect_linked(&rt, *slot, Some(5), *former, linked);
        expect_linked(&rt, *slot, None, *former, cleared);
    }
}
