//! What objects are called, and what they are to what refers to them.
ghost use Rattle.std.specs.Prelude.{◌≡◌, Some, IfSome};
ghost use Rattle.egl_model.specs.Names.{object_named};

use crate::objects::Birth;
use crate::pages::Page;
use crate::references::{Holder, LinkRole, Use};
use crate::source_lines::{assigned_in, line_at, word_in};
use driver_core::Driver;
use driver_objects::{BindTarget, Object, ObjectKind};
use framebuffer_objects::Point;
use share_group::NameKind;
use trace_reader::word_cuts::begins_with;

/// What objects are told by: the driver that has them, where they come from, and the lines of the input.
#[derive(Clone, Copy, Drop)]
pub struct Inventory<'a> {
    pub driver: &'a Driver,
    pub births: &'a [Birth],
    pub lines: &'a [&'a [u8]],
}

/// A name of a share group.
#[derive(Clone, Copy, Drop)]
pub struct GroupName {
    pub kind: NameKind,
    pub name: u32,
}

/// The kind of the names that objects of a kind have.
fn named_kind(kind: ObjectKind) -> Option<NameKind> {
    match kind {
        ObjectKind::Texture => Some(NameKind::Texture),
        ObjectKind::Buffer => Some(NameKind::Buffer),
        ObjectKind::Renderbuffer => Some(NameKind::Renderbuffer),
        ObjectKind::Framebuffer => Some(NameKind::Framebuffer),
        ObjectKind::Context
        | ObjectKind::Group
        | ObjectKind::Surface
        | ObjectKind::Storage
        | ObjectKind::Image
        | ObjectKind::Sync => None,
    }
}

/// The name that an object has in a group: the one by which it was bound first, where that leads to it.
pub fn name_in(driver: &Driver, births: &[Birth], group: u64, object: u64) -> Option<GroupName>
    ensures { IfSome result (λ x. object_named driver.now.state group x.kind x.name ≡ Some object) }
{
    let kind = named_kind(driver.object(object)?.kind())?;
    let birth = births.get(object as usize)?;
    let Ok(name) = u32::try_from(birth.name) else {
        return None;
    };
    match driver.object(group) {
        Some(Object::Group(group)) => {
            if group.object(kind, name) == Some(object) {
                Some(GroupName { kind, name })
            } else {
                None
            }
        }
        _ => None,
    }
}

/// The name of a kind.
pub fn kind_name(kind: ObjectKind) -> &'static str {
    match kind {
        ObjectKind::Context => "context",
        ObjectKind::Group => "share group",
        ObjectKind::Texture => "texture",
        ObjectKind::Buffer => "buffer",
        ObjectKind::Renderbuffer => "renderbuffer",
        ObjectKind::Framebuffer => "framebuffer",
        ObjectKind::Surface => "surface",
        ObjectKind::Storage => "pixel storage",
        ObjectKind::Image => "EGL image",
        ObjectKind::Sync => "sync",
    }
}

/// The target of a binding.
pub fn target_name(target: BindTarget) -> &'static str {
    match target {
        BindTarget::Texture => "GL_TEXTURE_2D",
        BindTarget::ArrayBuffer => "GL_ARRAY_BUFFER",
        BindTarget::ElementArrayBuffer => "GL_ELEMENT_ARRAY_BUFFER",
        BindTarget::Renderbuffer => "GL_RENDERBUFFER_OES",
        BindTarget::Framebuffer => "GL_FRAMEBUFFER_OES",
    }
}

pub fn point_name(point: Point) -> &'static str {
    match point {
        Point::Color => "GL_COLOR_ATTACHMENT0_OES",
        Point::Depth => "GL_DEPTH_ATTACHMENT_OES",
        Point::Stencil => "GL_STENCIL_ATTACHMENT_OES",
    }
}

/// What the names of a kind name.
fn named_object_word(kind: NameKind) -> &'static str {
    match kind {
        NameKind::Texture => "texture",
        NameKind::Buffer => "buffer",
        NameKind::Renderbuffer => "renderbuffer",
        NameKind::Framebuffer => "framebuffer",
    }
}

/// What an object is to a thread.
fn use_words(use_of: Use) -> &'static str {
    match use_of {
        Use::Current => "current to thread ",
        Use::Draw => "drawn to by thread ",
        Use::Read => "read from by thread ",
        Use::Wait => "waited for by thread ",
    }
}

/// The variable that a line binds as a name; the empty word where it binds none.
fn bound_in(line: &[u8]) -> &[u8] {
    let name = word_in(line, 3);
    if word_in(line, 1).starts_with(b"glBind") && begins_with(name, b'$') {
        name
    } else {
        b""
    }
}

/// The variable by which a trace names an object of a kind: what the line assigns that made it, or the name that it binds; the empty word where there is none.
pub fn variable_of(kind: ObjectKind, line: &[u8]) -> &[u8] {
    match kind {
        ObjectKind::Context | ObjectKind::Surface | ObjectKind::Image | ObjectKind::Sync => {
            assigned_in(line)
        }
        ObjectKind::Texture
        | ObjectKind::Buffer
        | ObjectKind::Renderbuffer
        | ObjectKind::Framebuffer => bound_in(line),
        ObjectKind::Group | ObjectKind::Storage => b"",
    }
}

/// An object by its kind, its variable, and the line that made it.
pub fn put_object(page: &mut Page, inventory: &Inventory, number: u64) {
    let Some(object) = inventory.driver.object(number) else {
        return;
    };
    page.put(kind_name(object.kind()));
    if let Some(birth) = inventory.births.get(number as usize) {
        let variable = variable_of(object.kind(), line_at(inventory.lines, birth.line));
        if !variable.is_empty() {
            page.put(" ");
            page.put_bytes(variable);
        }
        page.put(" of line ");
        page.put_decimal(birth.line);
    }
}

/// The name that an object has in a group.
fn put_name(page: &mut Page, inventory: &Inventory, group: u64, object: u64) {
    match name_in(inventory.driver, inventory.births, group, object) {
        Some(found) => {
            page.put(named_object_word(found.kind));
            page.put(" name ");
            page.put_decimal(u64::from(found.name))
        }
        None => page.put("a name"),
    }
}

/// What an object is to another.
fn put_role(page: &mut Page, inventory: &Inventory, holder: u64, role: LinkRole, object: u64) {
    match role {
        LinkRole::Group => page.put("the group of the "),
        LinkRole::OwnTexture => page.put("texture 0 of the "),
        LinkRole::Bound(target) => {
            page.put("bound to ");
            page.put(target_name(target));
            page.put(" in the ")
        }
        LinkRole::Named => {
            put_name(page, inventory, holder, object);
            page.put(" in the ")
        }
        LinkRole::Level(level) => {
            page.put("level ");
            page.put_decimal(level as u64);
            page.put(" of the ")
        }
        LinkRole::Pixels => page.put("the pixels of the "),
        LinkRole::Attached(point) => {
            page.put(point_name(point));
            page.put(" of the ")
        }
    }
}

/// Something that leads to an object.
fn put_holder(page: &mut Page, inventory: &Inventory, holder: Holder, object: u64) {
    match holder {
        Holder::Handle(number, display) => {
            page.put("handle ");
            page.put_decimal(u64::from(number));
            page.put(" of display ");
            page.put_decimal(display)
        }
        Holder::Thread(thread, use_of) => {
            page.put(use_words(use_of));
            page.put_decimal(thread as u64)
        }
        Holder::Object(holder, role) => {
            put_role(page, inventory, holder, role, object);
            put_object(page, inventory, holder)
        }
    }
}

/// All that leads to an object.
pub fn put_holders(page: &mut Page, inventory: &Inventory, holders: &[Holder], object: u64) {
    'each: for (k, holder) in holders.iter().enumerate() {
        if k > 0 {
            page.put("; ");
        }
        put_holder(page, inventory, *holder, object);
    }
}
