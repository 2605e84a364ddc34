//! Framebuffers.
ghost use Rattle.std.specs.Prelude.{◌≡◌, true, false, Some, None};
ghost use Rattle.framebuffer_objects.specs.Framebuffers.{at_point, fresh, object_of, with_point};

use crate::points::Point;
use std::marker::Model;

/// What is attached at a point: a texture or else a renderbuffer, the name under which it was attached, and its object's number.
#[derive(Clone, Copy, Debug, PartialEq, Eq, Drop)]
pub struct Attached {
    pub texture: bool,
    pub name: u32,
    pub object: u64,
}

/// What a framebuffer has attached at each of its points.
#[derive(Drop)]
pub struct Framebuffer {
    color: Option<Attached>,
    depth: Option<Attached>,
    stencil: Option<Attached>,
}

impl Model for Framebuffer {
    ghost use Rattle.framebuffer_objects.specs.Framebuffers.{FramebufferValue};

    ghost Value = { FramebufferValue };

    ghost view = { λ f. record { color = f.color; depth = f.depth; stencil = f.stencil } };
}

/// The number of an attached object.
fn object_of(attached: Option<Attached>) -> Option<u64>
    ensures { result ≡ object_of attached }
{
    match attached {
        Some(attached) => Some(attached.object),
        None => None,
    }
}

impl Framebuffer {
    /// A framebuffer with nothing attached.
    pub fn new() -> Framebuffer
        ensures { result ≡ fresh }
    {
        Framebuffer {
            color: None,
            depth: None,
            stencil: None,
        }
    }

    fn set(&mut self, point: Point, attached: Option<Attached>)
        ensures { self.new ≡ with_point point attached self.old }
    {
        match point {
            Point::Color => self.color = attached,
            Point::Depth => self.depth = attached,
            Point::Stencil => self.stencil = attached,
        }
    }

    /// What is attached at a point.
    pub fn attached(&self, point: Point) -> Option<Attached>
        ensures { result ≡ at_point point self.now }
    {
        match point {
            Point::Color => self.color,
            Point::Depth => self.depth,
            Point::Stencil => self.stencil,
        }
    }

    /// The object that is attached at a point.
    pub fn part(&self, point: Point) -> Option<u64>
        ensures { result ≡ object_of (at_point point self.now) }
    {
        object_of(self.attached(point))
    }

    /// Attaches a texture under a name, and answers the object that was attached there before.
    pub fn attach_texture(&mut self, point: Point, name: u32, texture: u64) -> Option<u64>
        ensures former { result ≡ object_of (at_point point self.old) }
        ensures attached { self.new ≡ with_point point (Some (record { texture = true; name = name; object = texture })) self.old }
    {
        let former = self.part(point);
        let attached = Attached {
            texture: true,
            name,
            object: texture,
        };
        self.set(point, Some(attached));
        former
    }

    /// Attaches a renderbuffer under a name, and answers the object that was attached there before.
    pub fn attach_renderbuffer(&mut self, point: Point, name: u32, renderbuffer: u64) -> Option<u64>
        ensures former { result ≡ object_of (at_point point self.old) }
        ensures attached { self.new ≡ with_point point (Some (record { texture = false; name = name; object = renderbuffer })) self.old }
    {
        let former = self.part(point);
        let attached = Attached {
            texture: false,
            name,
            object: renderbuffer,
        };
        self.set(point, Some(attached));
        former
    }

    /// Detaches what is attached at a point, and answers its object.
    pub fn detach(&mut self, point: Point) -> Option<u64>
        ensures former { result ≡ object_of (at_point point self.old) }
        ensures detached { self.new ≡ with_point point None self.old }
    {
        let former = self.part(point);
        self.set(point, None);
        former
    }
}
