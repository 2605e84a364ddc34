//! What is told of objects to programs.
use crate::json_entries::object_of;
use crate::object_words::{Inventory, kind_name, name_in, point_name, target_name, variable_of};
use crate::objects::lack_of;
use crate::references::{Holder, LinkRole, Use};
use crate::source_lines::line_at;
use driver_objects::ObjectKind;
use egl_calls::NoMemory;
use egl_flow::Status;
use json_lines::{JsonList, JsonObject};
use std::alloc::Global;

/// Bytes as a text, where they are one.
pub fn put_bytes(object: &mut JsonObject, name: &str, bytes: &[u8]) -> Result<(), NoMemory> {
    match str::from_utf8(bytes) {
        Ok(text) => object.put_text(name, text),
        Err(_) => Ok(()),
    }
}

/// The names of the kinds of objects in a census, in its order, and of the bytes of pixels and buffers.
const CENSUS_NAMES: [&str; 11] = [
    "contexts",
    "share_groups",
    "textures",
    "buffers",
    "renderbuffers",
    "framebuffers",
    "surfaces",
    "pixel_storages",
    "images",
    "syncs",
    "bytes",
];

/// How many objects there are of each kind.
pub fn census_object(alloc: Global, census: &[u64; 11]) -> Result<JsonObject, NoMemory> {
    let mut object = object_of(alloc, "census")?;
    'each: for (count, name) in census.iter().zip(CENSUS_NAMES.iter()) {
        object.put_count(name, *count)?;
    }
    Ok(object)
}

fn use_word(use_of: Use) -> &'static str {
    match use_of {
        Use::Current => "current",
        Use::Draw => "draw",
        Use::Read => "read",
        Use::Wait => "wait",
    }
}

/// What an object is to another.
fn put_role(
    object: &mut JsonObject,
    inventory: &Inventory,
    holder: u64,
    role: LinkRole,
    number: u64,
) -> Result<(), NoMemory> {
    match role {
        LinkRole::Group => object.put_text("as", "group"),
        LinkRole::OwnTexture => object.put_text("as", "own_texture"),
        LinkRole::Bound(target) => {
            object.put_text("as", "bound")?;
            object.put_text("target", target_name(target))
        }
        LinkRole::Named => {
            object.put_text("as", "named")?;
            match name_in(inventory.driver, inventory.births, holder, number) {
                Some(found) => object.put_count("name", u64::from(found.name)),
                None => Ok(()),
            }
        }
        LinkRole::Level(level) => {
            object.put_text("as", "level")?;
            object.put_count("level", level as u64)
        }
        LinkRole::Pixels => object.put_text("as", "pixels"),
        LinkRole::Attached(point) => {
            object.put_text("as", "attached")?;
            object.put_text("point", point_name(point))
        }
    }
}

/// Something that leads to an object.
fn holder_object(
    alloc: Global,
    inventory: &Inventory,
    holder: Holder,
    number: u64,
) -> Result<JsonObject, NoMemory> {
    let mut object = JsonObject::new(alloc);
    match holder {
        Holder::Handle(handle, display) => {
            object.put_count("handle", u64::from(handle))?;
            object.put_count("display", display)?;
        }
        Holder::Thread(thread, use_of) => {
            object.put_count("thread", thread as u64)?;
            object.put_text("as", use_word(use_of))?;
        }
        Holder::Object(other, role) => {
            object.put_count("object", other)?;
            put_role(&mut object, inventory, other, role, number)?;
        }
    }
    Ok(object)
}

/// All that leads to an object.
fn holders_list(
    alloc: Global,
    inventory: &Inventory,
    holders: &[Holder],
    number: u64,
) -> Result<JsonList, NoMemory> {
    let mut list = JsonList::new(alloc);
    'each: for holder in holders {
        list.push_object(holder_object(alloc, inventory, *holder, number)?)?;
    }
    Ok(list)
}

/// Where an object comes from.
pub fn put_origin(
    object: &mut JsonObject,
    inventory: &Inventory,
    kind: ObjectKind,
    number: u64,
) -> Result<(), NoMemory> {
    let Some(birth) = inventory.births.get(number as usize) else {
        return Ok(());
    };
    object.put_count("line", birth.line)?;
    let variable = variable_of(kind, line_at(inventory.lines, birth.line));
    if variable.is_empty() {
        return Ok(());
    }
    put_bytes(object, "variable", variable)
}

/// An object, and all that leads to it. Other lines name it by its number.
pub fn inventory_object(
    alloc: Global,
    inventory: &Inventory,
    holders: &[Holder],
    number: u64,
) -> Result<JsonObject, NoMemory> {
    let mut object = object_of(alloc, "object")?;
    object.put_count("object", number)?;
    if let Some(found) = inventory.driver.object(number) {
        object.put_text("type", kind_name(found.kind()))?;
        put_origin(&mut object, inventory, found.kind(), number)?;
        if let Some(lack) = lack_of(found.kind(), holders) {
            object.put_text("lack", lack)?;
        }
    }
    object.put_list("holders", holders_list(alloc, inventory, holders, number)?)?;
    Ok(object)
}

/// The last line: the status of the program.
pub fn status_object(alloc: Global, status: Status) -> Result<JsonObject, NoMemory> {
    let mut object = object_of(alloc, "status")?;
    object.put_count("status", u64::from(status.number()))?;
    Ok(object)
}
