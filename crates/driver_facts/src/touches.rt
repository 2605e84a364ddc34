//! What a call reads and writes.
ghost use Rattle.std.specs.Prelude.{◌≡◌, ◌≢◌, ◌<◌, ◌++◌, ◌∷◌, [], None, is_some, map, pos, true, false, IfOk, IsOk, OnOk};
ghost use Rattle.context_state.specs.Kinds.{context_gl_call};
ghost use Rattle.driver_objects.specs.Objects.{filled};
ghost use Rattle.egl_calls.specs.declared.kinds.Kind.TheVariants.{Egl as EglCall, Gl as GlCall, Own as OwnCall};
ghost use Rattle.call_table.specs.Rows.{gl_role};
ghost use Rattle.call_table.specs.declared.roles.Role.TheVariants.{Clears, CopiesPart};
ghost use Rattle.egl_calls.specs.declared.kinds.OwnKind.TheVariants.{ReadBuffer, ReadFront};
ghost use Rattle.egl_model.specs.Currents.{bound_surface, current_context, part_of_context};
ghost use Rattle.egl_model.specs.EglCalls.{egl_refusal};
ghost use Rattle.egl_model.specs.State.{record_of};
ghost use Rattle.egl_model.specs.Step.{egl_step, gl_step, own_step, step_by};
ghost use Rattle.egl_model.specs.Textures.{target_texture};
ghost use Rattle.egl_model.specs.Drawing.{clears_colour};
ghost use Rattle.thread_part.specs.Memory.{clears_nothing};
ghost use Rattle.driver_facts.specs.Memory.{is_bare, is_bare_on};
ghost use Rattle.driver_facts.specs.Touches.{bound_target, color_object, deletion_touches, draw_touches, egl_touches, front, gl_touches, gl_touches_on, got_touches, levels_in, nothing, object, object_touches, objects_named, own_touches, pixels_read, reading, role_touches, sampled_by, swap_of, target_objects, tells, touches_by, touches_of, where_done, with_color, with_levels, writing};
ghost use Rattle.driver_facts.specs.Tables.{KnowsRoots, state_in};

use crate::names::listed_name;
use crate::tables::Tables;
use call_table::{Role, gl_role};
use context_state::context_gl_call;
use egl_calls::arguments::number;
use egl_calls::places::{FRONT, LEVEL};
use egl_calls::{Call, EglKind, GlKind, Kind, NoMemory, Numbers, OwnKind, unsigned};
use framebuffer_objects::Point;
use share_group::NameKind;
use std::alloc::Global;
use texture_objects::LEVELS;
use thread_part::clears_colour;

/// What a call reads and writes: an object by its number, the front of a window by the window's id below 0.
#[derive(Drop)]
pub struct Touches {
    pub reads: Numbers,
    pub writes: Numbers,
}

fn nothing(alloc: Global) -> Touches
    ensures { result ≡ nothing }
{
    Touches {
        reads: Numbers::new(alloc),
        writes: Numbers::new(alloc),
    }
}

fn reading(alloc: Global, reads: Numbers) -> Touches
    ensures { result ≡ reading reads }
{
    Touches {
        reads,
        writes: Numbers::new(alloc),
    }
}

fn writing(alloc: Global, writes: Numbers) -> Touches
    ensures { result ≡ writing writes }
{
    Touches {
        reads: Numbers::new(alloc),
        writes,
    }
}

/// Adds the number of an object: for want of memory where a list can't hold it.
fn push_object(numbers: &mut Numbers, number: u64) -> Result<(), NoMemory>
    ensures { OnOk result (numbers.new ≡ numbers.old ++ pos number ∷ []) }
{
    match i64::try_from(number) {
        Ok(number) => numbers.push(number),
        Err(_) => Err(NoMemory),
    }
}

/// Adds what the window of an id shows.
fn push_front(numbers: &mut Numbers, id: u64) -> Result<(), NoMemory>
    ensures { OnOk result (numbers.new ≡ numbers.old ++ front id ∷ []) }
{
    match i64::try_from(id) {
        Ok(id) => numbers.push(-id),
        Err(_) => Err(NoMemory),
    }
}

/// Adds the number of an object, where there is one.
fn push_found(numbers: &mut Numbers, found: Option<u64>) -> Result<(), NoMemory>
    ensures { OnOk result (numbers.new ≡ numbers.old ++ object found) }
{
    match found {
        Some(number) => push_object(numbers, number),
        None => Ok(()),
    }
}

/// The number of an object, where there is one.
fn object(alloc: Global, found: Option<u64>) -> Result<Numbers, NoMemory>
    ensures { IfOk result (λ xs. xs ≡ object found) }
{
    let mut numbers = Numbers::new(alloc);
    push_found(&mut numbers, found)?;
    Ok(numbers)
}

// Calls of EGL.
impl Tables {
    /// What a swap by a thread touches.
    fn swap_touches(&self, alloc: Global, thread: u32) -> Result<Touches, NoMemory>
        requires { thread < self.now.threads.made }
        ensures { IfOk result (λ x. x ≡ swap_of (bound_surface (state_in self.now) (record_of (state_in self.now) thread).draw)) }
    {
        let Some(backed) = self.bound_surface(self.record(thread).draw) else {
            return Ok(nothing(alloc));
        };
        let Some(id) = backed.surface.window() else {
            return Ok(nothing(alloc));
        };
        let mut writes = Numbers::new(alloc);
        push_object(&mut writes, backed.storage)?;
        push_front(&mut writes, unsigned(id))?;
        Ok(writing(alloc, writes))
    }

    fn is_egl_refused(&self, thread: u32, kind: EglKind, call: &Call) -> bool
        requires made { thread < self.now.threads.made }
        requires kind { call.now.kind ≡ EglCall kind }
        requires roots { KnowsRoots self.now }
        ensures { result ≡ is_some (egl_refusal (state_in self.now) thread kind call.now) }
    {
        let found = self.egl_found(call);
        self.egl_refusal(thread, kind, call, &found).is_some()
    }

    #[tactic(auto, using(crate::proofs::TouchLaws::egl_touched, crate::proofs::TouchLaws::egl_untouched))]
    fn egl_touches(
        &self,
        alloc: Global,
        thread: u32,
        kind: EglKind,
        call: &Call,
    ) -> Result<Touches, NoMemory>
        requires made { thread < self.now.threads.made }
        requires kind { call.now.kind ≡ EglCall kind }
        requires roots { KnowsRoots self.now }
        ensures touched { IfOk result (λ x. x ≡ where_done (egl_step (state_in self.now) thread kind call.now) (egl_touches (state_in self.now) thread kind)) }
        ensures bare { is_some (egl_refusal (state_in self.now) thread kind call.now) ≡ true → IsOk result }
    {
        if self.is_egl_refused(thread, kind, call) {
            return Ok(nothing(alloc));
        }
        match kind {
            EglKind::SwapBuffers => self.swap_touches(alloc, thread),
            _ => Ok(nothing(alloc)),
        }
    }
}

// Calls of OpenGL ES: what is read on the way to pixels.
impl Tables {
    /// Adds the storages of a texture's levels.
    #[tactic(auto, using(crate::proofs::TouchLaws::levels_more, crate::proofs::TouchLaws::levels_end))]
    fn push_levels(&self, numbers: &mut Numbers, texture: u64) -> Result<(), NoMemory>
        ensures { OnOk result (numbers.new ≡ numbers.old ++ map pos (filled (levels_in (state_in self.now) texture))) }
    {
        self.objects.has_levels(texture);
        'each: for level in 0..LEVELS {
            push_found(numbers, self.objects.level(texture, level as u64))?;
        }
        Ok(())
    }

    /// Adds a texture and the storages of its levels.
    fn push_with_levels(&self, numbers: &mut Numbers, texture: Option<u64>) -> Result<(), NoMemory>
        ensures { OnOk result (numbers.new ≡ numbers.old ++ with_levels (state_in self.now) texture) }
    {
        let Some(texture) = texture else {
            return Ok(());
        };
        push_object(numbers, texture)?;
        self.push_levels(numbers, texture)
    }

    /// Adds what a draw samples.
    fn push_sampled(&self, numbers: &mut Numbers, context: u64) -> Result<(), NoMemory>
        ensures { OnOk result (numbers.new ≡ numbers.old ++ sampled_by (part_of_context (state_in self.now) context) (state_in self.now) (target_texture (state_in self.now) context)) }
    {
        let Some(part) = self.context_part(context) else {
            return Ok(());
        };
        if !part.textured() {
            return Ok(());
        }
        self.push_with_levels(numbers, self.target_texture(context))
    }

    /// The texture or renderbuffer at the colour point of a framebuffer.
    fn color_object(&self, framebuffer: u64) -> Option<u64>
        ensures { result ≡ color_object (state_in self.now) framebuffer }
    {
        match self.objects.framebuffer(framebuffer) {
            Some(framebuffer) => framebuffer.part(Point::Color),
            None => None,
        }
    }

    /// Adds a framebuffer and what is at its colour point.
    fn push_with_color(
        &self,
        numbers: &mut Numbers,
        framebuffer: Option<u64>,
    ) -> Result<(), NoMemory>
        ensures { OnOk result (numbers.new ≡ numbers.old ++ with_color (state_in self.now) framebuffer) }
    {
        let Some(framebuffer) = framebuffer else {
            return Ok(());
        };
        push_object(numbers, framebuffer)?;
        push_found(numbers, self.color_object(framebuffer))
    }

    /// Adds the framebuffer that a context has bound, and what is at its colour point.
    fn push_target_objects(&self, numbers: &mut Numbers, context: u64) -> Result<(), NoMemory>
        ensures { OnOk result (numbers.new ≡ numbers.old ++ target_objects (state_in self.now) context) }
    {
        self.push_with_color(numbers, self.target_framebuffer(context))
    }

    /// Adds the pixels that a thread reads, and what leads to them.
    fn push_pixels_read(
        &self,
        numbers: &mut Numbers,
        thread: u32,
        context: u64,
    ) -> Result<(), NoMemory>
        requires { thread < self.now.threads.made }
        ensures { OnOk result (numbers.new ≡ numbers.old ++ pixels_read (state_in self.now) thread context) }
    {
        push_found(numbers, self.bound_framebuffer(thread).read)?;
        self.push_target_objects(numbers, context)
    }

    /// The pixels that a thread reads, and what leads to them.
    fn pixels_read(&self, alloc: Global, thread: u32, context: u64) -> Result<Numbers, NoMemory>
        requires { thread < self.now.threads.made }
        ensures { IfOk result (λ xs. xs ≡ pixels_read (state_in self.now) thread context) }
    {
        let mut numbers = Numbers::new(alloc);
        self.push_pixels_read(&mut numbers, thread, context)?;
        Ok(numbers)
    }

    fn draw_touches(&self, alloc: Global, thread: u32, context: u64) -> Result<Touches, NoMemory>
        requires { thread < self.now.threads.made }
        ensures { IfOk result (λ x. x ≡ draw_touches (state_in self.now) thread context) }
    {
        let mut reads = Numbers::new(alloc);
        self.push_sampled(&mut reads, context)?;
        self.push_target_objects(&mut reads, context)?;
        let writes = object(alloc, self.bound_framebuffer(thread).draw)?;
        Ok(Touches { reads, writes })
    }

    fn clear_touches(
        &self,
        alloc: Global,
        thread: u32,
        context: u64,
        call: &Call,
    ) -> Result<Touches, NoMemory>
        requires { thread < self.now.threads.made }
        ensures touched { IfOk result (λ x. x ≡ role_touches Clears (state_in self.now) thread context call.now) }
        ensures nothing { clears_colour call.now ≡ false → IsOk result }
    {
        if !clears_colour(call) {
            return Ok(nothing(alloc));
        }
        let mut reads = Numbers::new(alloc);
        self.push_target_objects(&mut reads, context)?;
        let writes = object(alloc, self.bound_framebuffer(thread).draw)?;
        Ok(Touches { reads, writes })
    }

    /// What a call touches that copies to a part of a level.
    fn copy_part_touches(
        &self,
        alloc: Global,
        thread: u32,
        context: u64,
        call: &Call,
    ) -> Result<Touches, NoMemory>
        requires { thread < self.now.threads.made }
        ensures { IfOk result (λ x. x ≡ role_touches CopiesPart (state_in self.now) thread context call.now) }
    {
        let mut reads = object(alloc, self.target_texture(context))?;
        self.push_pixels_read(&mut reads, thread, context)?;
        let writes = object(alloc, self.level_storage(context, number(call, LEVEL)))?;
        Ok(Touches { reads, writes })
    }
}

// Names that are deleted.
impl Tables {
    /// Adds the objects that the names of a call's list have.
    #[tactic(auto, using(crate::proofs::TouchLaws::names_more))]
    fn push_named(
        &self,
        numbers: &mut Numbers,
        context: u64,
        kind: NameKind,
        call: &Call,
    ) -> Result<(), NoMemory>
        ensures { OnOk result (numbers.new ≡ numbers.old ++ objects_named (state_in self.now) context kind call.now.list) }
    {
        'each: for k in 0..call.list.as_slice().len() {
            let name = listed_name(call, k);
            push_found(numbers, self.object_named(context, kind, name))?;
        }
        Ok(())
    }

    fn deletion_touches(
        &self,
        alloc: Global,
        context: u64,
        kind: NameKind,
        call: &Call,
    ) -> Result<Touches, NoMemory>
        ensures { IfOk result (λ x. x ≡ deletion_touches (state_in self.now) context kind call.now.list) }
    {
        let mut writes = Numbers::new(alloc);
        self.push_named(&mut writes, context, kind, call)?;
        Ok(writing(alloc, writes))
    }
}

// All calls.
impl Tables {
    /// The object with names of a kind that is bound; the target of a buffer is the call's.
    fn bound_target(&self, context: u64, names: NameKind, call: &Call) -> Option<u64>
        ensures { result ≡ bound_target (state_in self.now) context call.now names }
    {
        match names {
            NameKind::Texture => self.target_texture(context),
            NameKind::Buffer => self.target_buffer(context, call),
            NameKind::Renderbuffer => self.target_renderbuffer(context),
            NameKind::Framebuffer => self.target_framebuffer(context),
        }
    }

    /// What a call touches that writes what is bound.
    fn set_touches(
        &self,
        alloc: Global,
        context: u64,
        names: NameKind,
        call: &Call,
    ) -> Result<Touches, NoMemory>
        ensures { IfOk result (λ x. x ≡ writing (object (bound_target (state_in self.now) context call.now names))) }
    {
        Ok(writing(
            alloc,
            object(alloc, self.bound_target(context, names, call))?,
        ))
    }

    /// What a call touches that asks for something of what is bound.
    fn got_touches(
        &self,
        alloc: Global,
        context: u64,
        names: NameKind,
        call: &Call,
    ) -> Result<Touches, NoMemory>
        ensures { IfOk result (λ x. x ≡ got_touches (state_in self.now) context call.now names) }
    {
        match names {
            NameKind::Buffer => {
                Ok(reading(alloc, object(alloc, self.target_buffer(context, call))?))
            }
            _ => Ok(nothing(alloc)),
        }
    }

    /// What a call touches that asks or changes more than its context's own state.
    fn object_touches(
        &self,
        alloc: Global,
        thread: u32,
        context: u64,
        kind: GlKind,
        call: &Call,
    ) -> Result<Touches, NoMemory>
        requires made { thread < self.now.threads.made }
        requires told { tells (gl_role kind) ≡ true }
        ensures touched { IfOk result (λ x. x ≡ object_touches (state_in self.now) thread context kind call.now) }
        ensures nothing { clears_nothing kind call.now ≡ true → IsOk result }
    {
        match gl_role(kind) {
            Role::Clears => self.clear_touches(alloc, thread, context, call),
            Role::ReadsPixels => Ok(reading(alloc, self.pixels_read(alloc, thread, context)?)),
            Role::Draws => self.draw_touches(alloc, thread, context),
            Role::Specifies(names) | Role::TakesImage(names) | Role::Sets(names) => {
                self.set_touches(alloc, context, names, call)
            }
            Role::Gets(names) => self.got_touches(alloc, context, names, call),
            Role::Copies => Ok(Touches {
                reads: self.pixels_read(alloc, thread, context)?,
                writes: object(alloc, self.target_texture(context))?,
            }),
            Role::Rewrites => Ok(Touches {
                reads: object(alloc, self.target_texture(context))?,
                writes: object(alloc, self.level_storage(context, number(call, LEVEL)))?,
            }),
            Role::CopiesPart => self.copy_part_touches(alloc, thread, context, call),
            Role::Attaches(_) => {
                Ok(writing(alloc, object(alloc, self.target_framebuffer(context))?))
            }
            Role::Deletes(names) => self.deletion_touches(alloc, context, names, call),
            Role::Generates(_) | Role::Asks(_) | Role::Binds(_) | Role::Flushes => {
                Ok(nothing(alloc))
            }
            _ => unreachable!(),
        }
    }

    /// What a call of OpenGL ES touches that no rule refuses.
    #[tactic(auto, using(crate::proofs::TouchLaws::role_told))]
    fn context_touches(
        &self,
        alloc: Global,
        thread: u32,
        context: u64,
        kind: GlKind,
        call: &Call,
    ) -> Result<Touches, NoMemory>
        requires { thread < self.now.threads.made }
        ensures touched { IfOk result (λ x. x ≡ gl_touches (state_in self.now) thread context kind call.now) }
        ensures nothing { clears_nothing kind call.now ≡ true → IsOk result }
    {
        match context_gl_call(kind) {
            Some(_) => Ok(nothing(alloc)),
            None => self.object_touches(alloc, thread, context, kind, call),
        }
    }

    #[tactic(auto, using(crate::proofs::TouchLaws::gl_without, crate::proofs::TouchLaws::gl_touched))]
    fn gl_touches(
        &self,
        alloc: Global,
        thread: u32,
        kind: GlKind,
        call: &Call,
    ) -> Result<Touches, NoMemory>
        requires made { thread < self.now.threads.made }
        requires kind { call.now.kind ≡ GlCall kind }
        ensures touched { IfOk result (λ x. x ≡ where_done (gl_step (state_in self.now) thread kind call.now) (gl_touches_on (state_in self.now) thread (current_context (state_in self.now) thread) kind call.now)) }
        ensures bare { is_bare_on (state_in self.now) thread (current_context (state_in self.now) thread) kind call.now ≡ true → IsOk result }
    {
        let Some(context) = self.current_context(thread) else {
            return Ok(nothing(alloc));
        };
        match self.gl_refusal(thread, context, kind, call) {
            Some(_) => Ok(nothing(alloc)),
            None => self.context_touches(alloc, thread, context, kind, call),
        }
    }

    /// What a `readBuffer` touches.
    #[tactic(auto, using(crate::proofs::TouchLaws::buffer_without, crate::proofs::TouchLaws::buffer_untouched, crate::proofs::TouchLaws::buffer_touched))]
    fn read_buffer_touches(
        &self,
        alloc: Global,
        thread: u32,
        call: &Call,
    ) -> Result<Touches, NoMemory>
        requires made { thread < self.now.threads.made }
        requires kind { call.now.kind ≡ OwnCall ReadBuffer }
        ensures { IfOk result (λ x. x ≡ where_done (own_step (state_in self.now) thread ReadBuffer call.now) (own_touches (state_in self.now) thread ReadBuffer call.now)) }
    {
        let Some(context) = self.current_context(thread) else {
            return Ok(nothing(alloc));
        };
        match self.buffer_refusal(thread, context, call) {
            Some(_) => Ok(nothing(alloc)),
            None => Ok(reading(alloc, object(alloc, self.target_buffer(context, call))?)),
        }
    }

    /// What a `readFront` touches.
    fn read_front_touches(
        &self,
        alloc: Global,
        thread: u32,
        call: &Call,
    ) -> Result<Touches, NoMemory>
        ensures { IfOk result (λ x. x ≡ own_touches (state_in self.now) thread ReadFront call.now) }
    {
        let _ = thread;
        let id = number(call, FRONT);
        if self.windows.front(id).is_none() {
            return Ok(nothing(alloc));
        }
        let mut reads = Numbers::new(alloc);
        push_front(&mut reads, id)?;
        Ok(reading(alloc, reads))
    }

    /// What one of this project's own calls besides readBuffer touches.
    #[tactic(auto, using(crate::proofs::TouchLaws::own_touched))]
    fn own_touches(
        &self,
        alloc: Global,
        thread: u32,
        kind: OwnKind,
        call: &Call,
    ) -> Result<Touches, NoMemory>
        requires { kind ≢ ReadBuffer }
        ensures { IfOk result (λ x. x ≡ where_done (own_step (state_in self.now) thread kind call.now) (own_touches (state_in self.now) thread kind call.now)) }
    {
        match kind {
            OwnKind::ReadFront => self.read_front_touches(alloc, thread, call),
            OwnKind::Post | OwnKind::Await | OwnKind::Halt => Ok(nothing(alloc)),
            OwnKind::WaitEnd | OwnKind::Census => Ok(nothing(alloc)),
            OwnKind::ReadBuffer => unreachable!(),
        }
    }

    /// What a call touches of a thread that doesn't wait.
    fn touches_by(&self, alloc: Global, thread: u32, call: &Call) -> Result<Touches, NoMemory>
        requires made { thread < self.now.threads.made }
        requires roots { KnowsRoots self.now }
        ensures touched { IfOk result (λ x. x ≡ where_done (step_by (state_in self.now) thread call.now.kind call.now) (touches_by (state_in self.now) thread call.now.kind call.now)) }
        ensures bare { is_bare (state_in self.now) thread call.now.kind call.now ≡ true → IsOk result }
    {
        match call.kind {
            Kind::Egl(kind) => self.egl_touches(alloc, thread, kind, call),
            Kind::Gl(kind) => self.gl_touches(alloc, thread, kind, call),
            Kind::Own(OwnKind::ReadBuffer) => self.read_buffer_touches(alloc, thread, call),
            Kind::Own(kind) => self.own_touches(alloc, thread, kind, call),
        }
    }

    /// What a call of a thread reads and writes, as the driver is before it. A call that would be refused or would wait touches nothing. It changes nothing, and memory is wanted for the lists alone.
    #[tactic(auto, using(crate::proofs::TouchLaws::touches_waiting, crate::proofs::TouchLaws::touches_going))]
    pub fn touches(&self, alloc: Global, thread: u32, call: &Call) -> Result<Touches, NoMemory>
        requires made { thread < self.now.threads.made }
        requires roots { KnowsRoots self.now }
        ensures touched { IfOk result (λ x. x ≡ touches_of (state_in self.now) thread call.now) }
        ensures bare { is_bare (state_in self.now) thread call.now.kind call.now ≡ true → IsOk result }
    {
        match self.record(thread).wait {
            Some(_) => Ok(nothing(alloc)),
            None => self.touches_by(alloc, thread, call),
        }
    }
}
