//! Renderbuffers.
ghost use Rattle.std.specs.Prelude.{◌≡◌, ◌≤◌, true, Some, None, IsOk, IfOk, OnOk, OnErr};
ghost use Rattle.egl_calls.specs.Ranges.{unsigned};
ghost use Rattle.framebuffer_objects.specs.Completeness.{is_for, renderbuffer_part};
ghost use Rattle.framebuffer_objects.specs.InternalFormats.{format_of, is_internal, point_of};
ghost use Rattle.framebuffer_objects.specs.Renderbuffers.{fresh, of_kind, pixels_of};
ghost use Rattle.framebuffer_objects.specs.declared.points.Point.TheVariants.{Color};

use crate::completeness::Part;
use crate::internal_formats::{format_of, point_of};
use crate::points::Point;
use egl_calls::{NoMemory, unsigned};
use pixel_rows::Image;
use std::alloc::Global;
use std::marker::Model;

/// A renderbuffer: the kind and the sides of its storage, in pixels. It keeps no pixels.
#[derive(Drop)]
pub struct Renderbuffer {
    point: Option<Point>,
    width: u32,
    height: u32,
}

impl Model for Renderbuffer {
    ghost use Rattle.framebuffer_objects.specs.Renderbuffers.{RenderbufferValue, IsStored};

    ghost Value = { RenderbufferValue };

    ghost view = { λ r. record { point = r.point; width = r.width; height = r.height } };

    ghost invariant = { λ r. IsStored r.point r.width r.height };
}

impl Renderbuffer {
    /// A renderbuffer without storage.
    pub fn new() -> Renderbuffer
        ensures { result ≡ fresh }
    {
        Renderbuffer {
            point: None,
            width: 0,
            height: 0,
        }
    }

    fn is_for(&self, point: Point) -> bool
        ensures { result ≡ is_for point self.now.point }
    {
        match (point, self.point) {
            (Point::Color, Some(Point::Color))
            | (Point::Depth, Some(Point::Depth))
            | (Point::Stencil, Some(Point::Stencil)) => true,
            _ => false,
        }
    }

    fn become_kind(&mut self, point: Point, w: u32, h: u32)
        ensures { self.new ≡ of_kind point w h }
    {
        self.point = Some(point);
        self.width = w;
        self.height = h;
    }

    /// Gives it storage of an internal format, one of the codes of GL_RGB565_OES, GL_RGBA4_OES, GL_RGB5_A1_OES, GL_RGBA8_OES, GL_DEPTH_COMPONENT16_OES and GL_STENCIL_INDEX8_OES. Answers the pixels of a colour, all zero, and none for depth and stencil, which take no memory.
    pub fn storage(
        &mut self,
        alloc: Global,
        internal: i64,
        w: u32,
        h: u32,
    ) -> Result<Option<Image>, NoMemory>
        requires format { is_internal (unsigned internal) ≡ true }
        requires sides { (w ≤ 2048) × (h ≤ 2048) }
        ensures pixels { IfOk result (λ i. i ≡ pixels_of (unsigned internal) w h) }
        ensures ok { OnOk result (self.new ≡ of_kind (point_of (unsigned internal)) w h) }
        ensures err { OnErr result (self.new ≡ self.old) }
        ensures memory { format_of (unsigned internal) ≡ None → IsOk result }
    {
        let internal = unsigned(internal);
        let pixels = match format_of(internal) {
            Some(format) => Some(Image::new(alloc, format, w, h)?),
            None => None,
        };
        self.become_kind(point_of(internal), w, h);
        Ok(pixels)
    }

    /// Takes over the storage of an image with these sides: from then on it is a colour renderbuffer. It takes no memory.
    pub fn target(&mut self, w: u32, h: u32)
        ensures { self.new ≡ of_kind Color w h }
    {
        self.become_kind(Point::Color, w, h);
    }

    /// What it is at the depth or the stencil point of a framebuffer: it may be there where its storage is for that point, and has no side of 0.
    pub fn part(&self, point: Point) -> Part
        ensures { result ≡ renderbuffer_part point self.now }
    {
        Part {
            present: true,
            attachable: self.is_for(point) && self.width > 0 && self.height > 0,
            w: self.width,
            h: self.height,
        }
    }

    /// The kind of its storage, and none before it has any.
    pub fn point(&self) -> Option<Point>
        ensures { result ≡ self.now.point }
    {
        self.point
    }

    /// The value of GL_RENDERBUFFER_WIDTH_OES, in pixels; 0 without storage.
    pub fn width(&self) -> u32
        ensures width { result ≡ self.now.width }
        ensures none { self.now.point ≡ None → result ≡ 0 }
    {
        self.width
    }

    /// The value of GL_RENDERBUFFER_HEIGHT_OES, in pixels; 0 without storage.
    pub fn height(&self) -> u32
        ensures height { result ≡ self.now.height }
        ensures none { self.now.point ≡ None → result ≡ 0 }
    {
        self.height
    }
}
