//! Framebuffers (OES_framebuffer_object).
ghost use Rattle.std.specs.Prelude.{◌≡◌, ◌<◌, ◌==◌, false, pos, Some, IfSome, option_copied};
ghost use Rattle.std.specs.Option.{option_and_then, option_map_or};
ghost use Rattle.egl_calls.specs.Ranges.{IsNumber, is_client_wait};
ghost use Rattle.egl_model.specs.Currents.{current_context, part_of_context};
ghost use Rattle.egl_model.specs.Framebuffers.{attached, attached_as, attached_type, attachment_of, attachment_parameter, bound_framebuffer, called_point, color_part_in, color_storage, framebuffer_name, framebuffer_of, given_attachment, is_complete, object_framebuffer, part_in, status_in, stored_part, target_framebuffer, window_framebuffer, window_status};
ghost use Rattle.egl_model.specs.Objects.{storage_in};
ghost use Rattle.egl_model.specs.State.{object_at};
ghost use Rattle.egl_names.specs.declared.codes.TheConstants.{GL_FRAMEBUFFER_COMPLETE_OES as COMPLETE};
ghost use Rattle.framebuffer_objects.specs.Completeness as completeness;
ghost use Rattle.framebuffer_objects.specs.Completeness.{part_at};
ghost use Rattle.framebuffer_objects.specs.Framebuffers.{at_point};
ghost use Rattle.driver_facts.specs.Groups.{IsAttachable};
ghost use Rattle.driver_facts.specs.Tables.{state_in};

use crate::names::name_of;
use crate::tables::Tables;
use egl_calls::arguments::number;
use egl_calls::places::{ATTACHED_NAME, ATTACHMENT, ATTACHMENT_PNAME};
use egl_calls::{Call, unsigned};
use egl_names::codes::{
    GL_FRAMEBUFFER_ATTACHMENT_OBJECT_NAME_OES, GL_FRAMEBUFFER_COMPLETE_OES,
    GL_FRAMEBUFFER_UNDEFINED_OES, GL_NONE_OES, GL_RENDERBUFFER_OES, GL_TEXTURE,
};
use framebuffer_objects::{Attached, Framebuffer, Part, Point, attachment_point, status};
use share_group::NameKind;

/// The framebuffer that is bound to a thread: the storages to which it draws and from which it reads, and the code of its status.
#[derive(Clone, Copy, Drop)]
pub struct BoundFramebuffer {
    pub draw: Option<u64>,
    pub read: Option<u64>,
    pub status: u32,
}

impl BoundFramebuffer {
    fn is_complete(&self) -> bool
        ensures { result ≡ (self.now.status == COMPLETE) }
    {
        u64::from(self.status) == GL_FRAMEBUFFER_COMPLETE_OES
    }
}

/// The status of the framebuffer of the window system: whether there are surfaces to draw to.
fn window_status(draw: Option<u64>) -> u32
    ensures { result ≡ window_status draw }
{
    if draw.is_some() {
        GL_FRAMEBUFFER_COMPLETE_OES as u32
    } else {
        GL_FRAMEBUFFER_UNDEFINED_OES as u32
    }
}

/// The code of a status, which has 32 bits.
#[tactic(auto, using(crate::proofs::FramebufferLaws::list_fits))]
fn status_of(parts: &[Part; 3]) -> u32
    ensures { result ≡ completeness.status (part_at parts.now 0) (part_at parts.now 1) (part_at parts.now 2) }
{
    unsigned(status(parts)) as u32
}

/// The point that a call names.
pub fn called_point(call: &Call) -> Point
    ensures { result ≡ called_point call.now }
{
    attachment_point(number(call, ATTACHMENT))
}

/// The code of what is attached: a texture, a renderbuffer or nothing.
fn attached_type(attached: Option<Attached>) -> u32
    ensures { result ≡ attached_type attached }
{
    match attached {
        Some(attached) => {
            if attached.texture {
                GL_TEXTURE as u32
            } else {
                GL_RENDERBUFFER_OES as u32
            }
        }
        None => GL_NONE_OES as u32,
    }
}

/// The name under which something is attached, and 0 where nothing is.
fn attached_name(attached: Option<Attached>) -> u32
    ensures { result ≡ option_map_or (λ a. a.name) attached 0 }
{
    match attached {
        Some(attached) => attached.name,
        None => 0,
    }
}

impl Tables {
    /// The number of the framebuffer on which calls work: of what the context has bound.
    pub fn target_framebuffer(&self, context: u64) -> Option<u64>
        ensures { result ≡ target_framebuffer (state_in self.now) context }
    {
        match self.objects.context(context) {
            Some(context) => context.bound.framebuffer,
            None => None,
        }
    }

    /// That framebuffer.
    fn framebuffer_of(&self, context: u64) -> Option<&Framebuffer>
        ensures { option_copied result ≡ framebuffer_of (state_in self.now) context }
    {
        match self.target_framebuffer(context) {
            Some(framebuffer) => self.objects.framebuffer(framebuffer),
            None => None,
        }
    }

    /// What is attached at the point that a call names.
    pub(crate) fn attachment_of(&self, context: u64, call: &Call) -> Option<Attached>
        ensures { result ≡ attachment_of (state_in self.now) context call.now }
    {
        match self.framebuffer_of(context) {
            Some(framebuffer) => framebuffer.attached(called_point(call)),
            None => None,
        }
    }

    /// The value of a parameter of what is attached.
    pub fn attachment_parameter(&self, context: u64, call: &Call) -> i64
        ensures value { result ≡ attachment_parameter call.now (attachment_of (state_in self.now) context call.now) }
        ensures number { IsNumber result }
    {
        let attached = self.attachment_of(context, call);
        if number(call, ATTACHMENT_PNAME) == GL_FRAMEBUFFER_ATTACHMENT_OBJECT_NAME_OES {
            i64::from(attached_name(attached))
        } else {
            i64::from(attached_type(attached))
        }
    }

    /// A texture or a renderbuffer, as it is attached under a name; nothing else is.
    #[tactic(auto, using(crate::proofs::FramebufferLaws::texture_as, crate::proofs::FramebufferLaws::renderbuffer_as, crate::proofs::FramebufferLaws::nothing_as, crate::proofs::FramebufferLaws::texture_there, crate::proofs::FramebufferLaws::renderbuffer_there))]
    fn attached_as(&self, name: u32, object: u64) -> Option<Attached>
        ensures value { result ≡ attached_as name object (object_at (state_in self.now) object) }
        ensures there { IfSome result (IsAttachable (state_in self.now).objects) }
    {
        if self.objects.is_texture(object) {
            return Some(Attached {
                texture: true,
                name,
                object,
            });
        }
        if self.objects.is_renderbuffer(object) {
            return Some(Attached {
                texture: false,
                name,
                object,
            });
        }
        None
    }

    /// What has the name that a call gives, as it is attached; nothing has the name 0.
    pub fn given_attachment(&self, context: u64, kind: NameKind, call: &Call) -> Option<Attached>
        requires { is_client_wait call.now.kind ≡ false }
        ensures value { result ≡ given_attachment kind (state_in self.now) context call.now }
        ensures there { IfSome result (IsAttachable (state_in self.now).objects) }
    {
        let name = name_of(call, ATTACHED_NAME);
        match self.object_named(context, kind, name) {
            Some(object) => self.attached_as(name, object),
            None => None,
        }
    }

    /// The storage of a framebuffer's colour.
    fn color_storage(&self, framebuffer: &Framebuffer) -> Option<u64>
        ensures { result ≡ color_storage (state_in self.now).objects framebuffer.now }
    {
        match framebuffer.part(Point::Color) {
            Some(object) => self.objects.pixels(object, 0),
            None => None,
        }
    }

    /// Pixels as a colour: where there is no storage, nothing that may be there.
    fn stored_part(&self, storage: Option<u64>) -> Part
        ensures { result ≡ stored_part (option_and_then (storage_in (state_in self.now).objects) storage) }
    {
        let Some(storage) = storage else {
            return Part::unattachable();
        };
        match self.objects.storage(storage) {
            Some(storage) => Part::color(storage.format(), storage.width(), storage.height()),
            None => Part::unattachable(),
        }
    }

    /// What stands at the colour point of a framebuffer.
    fn color_part(&self, framebuffer: &Framebuffer) -> Part
        ensures { result ≡ color_part_in (state_in self.now).objects framebuffer.now.color }
    {
        match framebuffer.attached(Point::Color) {
            Some(attached) => self.stored_part(self.objects.pixels(attached.object, 0)),
            None => Part::none(),
        }
    }

    /// What stands at the depth or the stencil point.
    fn part_at(&self, point: Point, framebuffer: &Framebuffer) -> Part
        ensures { result ≡ part_in point (state_in self.now).objects (at_point point framebuffer.now) }
    {
        match framebuffer.attached(point) {
            Some(attached) => match self.objects.renderbuffer(attached.object) {
                Some(backed) => backed.renderbuffer.part(point),
                None => Part::unattachable(),
            },
            None => Part::none(),
        }
    }

    /// The status of a framebuffer.
    fn status_of(&self, framebuffer: &Framebuffer) -> u32
        ensures { result ≡ status_in (state_in self.now).objects framebuffer.now }
    {
        status_of(&[
            self.color_part(framebuffer),
            self.part_at(Point::Depth, framebuffer),
            self.part_at(Point::Stencil, framebuffer),
        ])
    }

    /// A framebuffer as one that is bound: its colour is drawn to and read from.
    fn object_framebuffer(&self, framebuffer: &Framebuffer) -> BoundFramebuffer
        ensures draw { result.draw ≡ (object_framebuffer (state_in self.now).objects framebuffer.now).draw }
        ensures read { result.read ≡ (object_framebuffer (state_in self.now).objects framebuffer.now).read }
        ensures status { result.status ≡ (object_framebuffer (state_in self.now).objects framebuffer.now).status }
    {
        let color = self.color_storage(framebuffer);
        BoundFramebuffer {
            draw: color,
            read: color,
            status: self.status_of(framebuffer),
        }
    }

    /// The framebuffer of the window system: the thread's surfaces.
    fn window_framebuffer(&self, thread: u32) -> BoundFramebuffer
        requires { thread < self.now.threads.made }
        ensures draw { result.draw ≡ (window_framebuffer (state_in self.now) thread).draw }
        ensures read { result.read ≡ (window_framebuffer (state_in self.now) thread).read }
        ensures status { result.status ≡ (window_framebuffer (state_in self.now) thread).status }
    {
        let draw = self.draw_storage(thread);
        BoundFramebuffer {
            draw,
            read: self.read_storage(thread),
            status: window_status(draw),
        }
    }

    /// The name of the framebuffer that a context has bound, and 0 for that of the window system.
    fn framebuffer_name(&self, context: u64) -> u32
        ensures { result ≡ framebuffer_name (part_of_context (state_in self.now) context) }
    {
        match self.objects.context(context) {
            Some(context) => match &context.part {
                Some(part) => part.framebuffer(),
                None => 0,
            },
            None => 0,
        }
    }

    /// The framebuffer that is bound to a thread whose current context is there.
    fn framebuffer_with(&self, thread: u32, context: u64) -> BoundFramebuffer
        requires made { thread < self.now.threads.made }
        requires current { current_context (state_in self.now) thread ≡ Some context }
        ensures draw { result.draw ≡ (bound_framebuffer (state_in self.now) thread).draw }
        ensures read { result.read ≡ (bound_framebuffer (state_in self.now) thread).read }
        ensures status { result.status ≡ (bound_framebuffer (state_in self.now) thread).status }
    {
        if self.framebuffer_name(context) == 0 {
            return self.window_framebuffer(thread);
        }
        match self.framebuffer_of(context) {
            Some(framebuffer) => self.object_framebuffer(framebuffer),
            None => self.object_framebuffer(&Framebuffer::new()),
        }
    }

    /// The framebuffer that is bound to a thread: that of the window system, or what its current context has bound.
    pub fn bound_framebuffer(&self, thread: u32) -> BoundFramebuffer
        requires { thread < self.now.threads.made }
        ensures draw { result.draw ≡ (bound_framebuffer (state_in self.now) thread).draw }
        ensures read { result.read ≡ (bound_framebuffer (state_in self.now) thread).read }
        ensures status { result.status ≡ (bound_framebuffer (state_in self.now) thread).status }
    {
        match self.current_context(thread) {
            Some(context) => self.framebuffer_with(thread, context),
            None => self.window_framebuffer(thread),
        }
    }

    /// Whether that framebuffer is complete.
    pub(crate) fn has_complete_framebuffer(&self, thread: u32) -> bool
        requires { thread < self.now.threads.made }
        ensures { result ≡ is_complete (bound_framebuffer (state_in self.now) thread) }
    {
        self.bound_framebuffer(thread).is_complete()
    }

    /// The code of its status.
    pub fn framebuffer_status(&self, thread: u32) -> i64
        requires { thread < self.now.threads.made }
        ensures value { result ≡ pos (bound_framebuffer (state_in self.now) thread).status }
        ensures number { IsNumber result }
    {
        i64::from(self.bound_framebuffer(thread).status)
    }
}
