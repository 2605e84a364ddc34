//! All that refers to objects: valid handles, threads, and other objects.
ghost use Rattle.std.specs.Prelude.{◌≡◌, ◌++◌, ◌∷◌, [], map, OnOk, IfOk};
ghost use Rattle.driver_objects.specs.Objects.{edges_of};
ghost use Rattle.driver_objects.specs.declared.objects.Object.TheVariants.{Context as AContext, Framebuffer as AFramebuffer};
ghost use Rattle.egl_model.specs.State.{object_at};
ghost use Rattle.egl_explain.specs.References.{bound_to, handle_reference, holders_of, level_references, name_reference, object_references, record_references, references_at, references_in, references_of, thread_references, to};

use display_table::Handle;
use driver_core::Driver;
use driver_objects::{BindTarget, Context, Object};
use egl_calls::NoMemory;
use egl_model::{Bound, ThreadRecord};
use framebuffer_objects::{Framebuffer, Point};
use std::alloc::Global;

/// What an object is to another that refers to it.
#[derive(Clone, Copy, Debug, PartialEq, Eq, Drop)]
pub enum LinkRole {
    /// A context's share group.
    Group,
    /// A context's texture with the name 0.
    OwnTexture,
    /// What a context has bound.
    Bound(BindTarget),
    /// What has a name in a share group.
    Named,
    /// The pixels of a level of a texture.
    Level(usize),
    /// The pixels of a renderbuffer, a surface or an EGL image.
    Pixels,
    /// What is attached at a point of a framebuffer.
    Attached(Point),
}

/// What an object is to a thread.
#[derive(Clone, Copy, Debug, PartialEq, Eq, Drop)]
pub enum Use {
    /// Its current context.
    Current,
    /// The surface that it draws to.
    Draw,
    /// The surface that it reads from.
    Read,
    /// The sync that it waits for.
    Wait,
}

/// What refers to an object.
#[derive(Clone, Copy, Debug, PartialEq, Eq, Drop)]
pub enum Holder {
    /// A valid handle: its number and its display.
    Handle(u32, u64),
    /// A thread.
    Thread(usize, Use),
    /// An object, by its number.
    Object(u64, LinkRole),
}

/// A reference: what refers, and the number of the object to which it leads.
#[derive(Clone, Copy, Debug, PartialEq, Eq, Drop)]
pub struct ObjectReference {
    pub holder: Holder,
    pub object: u64,
}

/// Adds a reference.
fn push(list: &mut Vec<ObjectReference>, holder: Holder, object: u64) -> Result<(), NoMemory>
    ensures { OnOk result (list.new.items ≡ list.old.items ++ record { holder = holder; object = object } ∷ []) }
{
    match list.push(ObjectReference { holder, object }) {
        Ok(()) => Ok(()),
        Err(_) => Err(NoMemory),
    }
}

/// Adds a reference, where it leads to an object.
fn push_to(
    list: &mut Vec<ObjectReference>,
    holder: Holder,
    object: Option<u64>,
) -> Result<(), NoMemory>
    ensures { OnOk result (list.new.items ≡ list.old.items ++ to holder object) }
{
    match object {
        Some(object) => push(list, holder, object),
        None => Ok(()),
    }
}

/// Adds those of the valid handles.
fn push_handles(list: &mut Vec<ObjectReference>, handles: &[Handle]) -> Result<(), NoMemory>
    ensures { OnOk result (list.new.items ≡ list.old.items ++ map handle_reference handles.now) }
{
    'each: for handle in handles {
        push(
            list,
            Holder::Handle(handle.number, handle.display),
            handle.object,
        )?;
    }
    Ok(())
}

/// The object that is bound.
fn bound_to(bound: Option<Bound>) -> Option<u64>
    ensures { result ≡ bound_to bound }
{
    match bound {
        Some(bound) => Some(bound.object),
        None => None,
    }
}

/// Adds those of a thread.
fn push_record(
    list: &mut Vec<ObjectReference>,
    thread: usize,
    kept: &ThreadRecord,
) -> Result<(), NoMemory>
    ensures { OnOk result (list.new.items ≡ list.old.items ++ record_references thread kept.now) }
{
    push_to(
        list,
        Holder::Thread(thread, Use::Current),
        bound_to(kept.context),
    )?;
    push_to(list, Holder::Thread(thread, Use::Draw), bound_to(kept.draw))?;
    push_to(list, Holder::Thread(thread, Use::Read), bound_to(kept.read))?;
    push_to(list, Holder::Thread(thread, Use::Wait), kept.wait)
}

/// Adds those of the threads.
#[tactic(auto, unfolding(crate::specs::References::thread_references))]
fn push_threads(list: &mut Vec<ObjectReference>, records: &[ThreadRecord]) -> Result<(), NoMemory>
    ensures { OnOk result (list.new.items ≡ list.old.items ++ thread_references 0 records.now) }
{
    let mut thread = 0;
    'each: for kept in records {
        push_record(list, thread, kept)?;
        thread += 1;
    }
    Ok(())
}

/// Adds those of a context.
fn push_context(
    list: &mut Vec<ObjectReference>,
    number: u64,
    context: &Context,
) -> Result<(), NoMemory>
    ensures { OnOk result (list.new.items ≡ list.old.items ++ references_of number (AContext context.now)) }
{
    let bound = &context.bound;
    push(list, Holder::Object(number, LinkRole::Group), context.group)?;
    push(
        list,
        Holder::Object(number, LinkRole::OwnTexture),
        context.texture,
    )?;
    push_to(
        list,
        Holder::Object(number, LinkRole::Bound(BindTarget::Texture)),
        bound.texture,
    )?;
    push_to(
        list,
        Holder::Object(number, LinkRole::Bound(BindTarget::ArrayBuffer)),
        bound.array_buffer,
    )?;
    push_to(
        list,
        Holder::Object(number, LinkRole::Bound(BindTarget::ElementArrayBuffer)),
        bound.element_array_buffer,
    )?;
    push_to(
        list,
        Holder::Object(number, LinkRole::Bound(BindTarget::Renderbuffer)),
        bound.renderbuffer,
    )?;
    push_to(
        list,
        Holder::Object(number, LinkRole::Bound(BindTarget::Framebuffer)),
        bound.framebuffer,
    )
}

/// Adds those of the names of a group.
#[tactic(auto, using(crate::proofs::ReferenceLaws::next_name))]
fn push_names(list: &mut Vec<ObjectReference>, number: u64, group: &Object) -> Result<(), NoMemory>
    ensures { OnOk result (list.new.items ≡ list.old.items ++ map (name_reference number) (edges_of group.now)) }
{
    'each: for k in 0..group.edge_count() {
        push(list, Holder::Object(number, LinkRole::Named), group.edge(k))?;
    }
    Ok(())
}

/// Adds those of the levels of a texture.
fn push_levels(
    list: &mut Vec<ObjectReference>,
    number: u64,
    levels: &[Option<u64>],
) -> Result<(), NoMemory>
    ensures { OnOk result (list.new.items ≡ list.old.items ++ level_references number 0 levels.now) }
{
    let mut place = 0;
    'each: for level in levels {
        push_to(list, Holder::Object(number, LinkRole::Level(place)), *level)?;
        place += 1;
    }
    Ok(())
}

/// Adds those of the points of a framebuffer.
fn push_points(
    list: &mut Vec<ObjectReference>,
    number: u64,
    framebuffer: &Framebuffer,
) -> Result<(), NoMemory>
    ensures { OnOk result (list.new.items ≡ list.old.items ++ references_of number (AFramebuffer framebuffer.now)) }
{
    push_to(
        list,
        Holder::Object(number, LinkRole::Attached(Point::Color)),
        framebuffer.part(Point::Color),
    )?;
    push_to(
        list,
        Holder::Object(number, LinkRole::Attached(Point::Depth)),
        framebuffer.part(Point::Depth),
    )?;
    push_to(
        list,
        Holder::Object(number, LinkRole::Attached(Point::Stencil)),
        framebuffer.part(Point::Stencil),
    )
}

/// Adds those of an object.
fn push_object(
    list: &mut Vec<ObjectReference>,
    number: u64,
    object: &Object,
) -> Result<(), NoMemory>
    ensures { OnOk result (list.new.items ≡ list.old.items ++ references_of number object.now) }
{
    let pixels = Holder::Object(number, LinkRole::Pixels);
    match object {
        Object::Context(context) => push_context(list, number, context),
        Object::Group(_) => push_names(list, number, object),
        Object::Texture(texture) => push_levels(list, number, &texture.levels),
        Object::Renderbuffer(renderbuffer) => push_to(list, pixels, renderbuffer.storage),
        Object::Framebuffer(framebuffer) => push_points(list, number, framebuffer),
        Object::Surface(surface) => push(list, pixels, surface.storage),
        Object::Image(image) => push(list, pixels, image.storage),
        Object::Buffer(_) | Object::Storage(_) | Object::Sync(_) => Ok(()),
    }
}

/// Adds those of the object of a number, where there is one.
fn push_at(list: &mut Vec<ObjectReference>, driver: &Driver, number: u64) -> Result<(), NoMemory>
    ensures { OnOk result (list.new.items ≡ list.old.items ++ references_at number (object_at driver.now.state number)) }
{
    match driver.object(number) {
        Some(object) => push_object(list, number, object),
        None => Ok(()),
    }
}

/// Adds those of the objects.
#[tactic(auto, unfolding(crate::specs::References::object_references), using(crate::proofs::ReferenceLaws::next_object))]
fn push_objects(list: &mut Vec<ObjectReference>, driver: &Driver) -> Result<(), NoMemory>
    ensures { OnOk result (list.new.items ≡ list.old.items ++ object_references 0 driver.now.state.objects) }
{
    'each: for number in 0..driver.object_count() {
        push_at(list, driver, number)?;
    }
    Ok(())
}

/// All references of a driver: those of its valid handles, of its threads and of its objects, each in the order of their numbers.
pub fn references_in(alloc: Global, driver: &Driver) -> Result<Vec<ObjectReference>, NoMemory>
    ensures { IfOk result (λ list. list.items ≡ references_in driver.now.state) }
{
    let mut list = Vec::new(alloc);
    let handles = driver.handles(alloc)?;
    push_handles(&mut list, &handles)?;
    push_threads(&mut list, driver.records())?;
    push_objects(&mut list, driver)?;
    Ok(list)
}

/// Adds what refers by a reference, where that leads to the object.
fn push_holder(
    list: &mut Vec<Holder>,
    reference: &ObjectReference,
    object: u64,
) -> Result<(), NoMemory>
    ensures { OnOk result (list.new.items ≡ list.old.items ++ holders_of object (reference.now ∷ [])) }
{
    if reference.object != object {
        return Ok(());
    }
    match list.push(reference.holder) {
        Ok(()) => Ok(()),
        Err(_) => Err(NoMemory),
    }
}

/// What refers to an object, of some references.
#[tactic(auto, using(crate::proofs::ReferenceLaws::next_holder))]
pub fn holders_of(
    alloc: Global,
    references: &[ObjectReference],
    object: u64,
) -> Result<Vec<Holder>, NoMemory>
    ensures { IfOk result (λ list. list.items ≡ holders_of object references.now) }
{
    let mut list = Vec::new(alloc);
    'each: for reference in references {
        push_holder(&mut list, reference, object)?;
    }
    Ok(list)
}
