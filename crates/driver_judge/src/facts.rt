//! What of our driver's state answers are compared by.
ghost use Rattle.std.specs.Prelude.{◌≡◌, Some, option_copied};
ghost use Rattle.std.specs.Option.{option_map};
ghost use Rattle.egl_model.specs.Currents.{bound_surface, current_context, part_of_context};
ghost use Rattle.egl_model.specs.Drawing.{pack_alignment};
ghost use Rattle.egl_model.specs.Framebuffers.{attached_storage, attachment_of, bound_framebuffer, color_storage, framebuffer_name, framebuffer_of};
ghost use Rattle.egl_model.specs.Names.{group_of};
ghost use Rattle.egl_model.specs.Objects.{context_in, framebuffer_in, storage_in, surface_in};
ghost use Rattle.egl_model.specs.State.{record_of};
ghost use Rattle.driver_judge.specs.Answers.{thread_group};
ghost use Rattle.driver_judge.specs.Pixels.{stored_format};

use driver_core::Driver;
use driver_facts::called_point;
use driver_objects::{BackedSurface, Context, Object, Storage};
use egl_calls::{Call, EglError};
use egl_model::{Bound, ClientApi, ThreadRecord};
use framebuffer_objects::{Attached, Framebuffer, Point};
use pixel_formats::Format;

/// What is kept for a thread that has made no call.
const NO_CALL: ThreadRecord = ThreadRecord {
    error: EglError::Success,
    api: ClientApi::OpenGlEs,
    context: None,
    draw: None,
    read: None,
    wait: None,
};

/// What is kept for a thread.
#[tactic(auto, using(crate::proofs::FactLaws::padded_at))]
fn record_of(driver: &Driver, thread: u32) -> ThreadRecord
    ensures { result ≡ record_of driver.now.state thread }
{
    match driver.records().get(thread as usize) {
        Some(record) => *record,
        None => NO_CALL,
    }
}

/// The number of a thread's current context.
pub fn current_context(driver: &Driver, thread: u32) -> Option<u64>
    ensures { result ≡ current_context driver.now.state thread }
{
    match record_of(driver, thread).context {
        Some(bound) => Some(bound.object),
        None => None,
    }
}

fn context_at(driver: &Driver, number: u64) -> Option<&Context>
    ensures { option_copied result ≡ context_in driver.now.state.objects number }
{
    match driver.object(number) {
        Some(Object::Context(context)) => Some(context),
        _ => None,
    }
}

fn framebuffer_at(driver: &Driver, number: u64) -> Option<&Framebuffer>
    ensures { option_copied result ≡ framebuffer_in driver.now.state.objects number }
{
    match driver.object(number) {
        Some(Object::Framebuffer(framebuffer)) => Some(framebuffer),
        _ => None,
    }
}

fn surface_at(driver: &Driver, number: u64) -> Option<&BackedSurface>
    ensures { option_copied result ≡ surface_in driver.now.state.objects number }
{
    match driver.object(number) {
        Some(Object::Surface(surface)) => Some(surface),
        _ => None,
    }
}

fn storage_at(driver: &Driver, number: u64) -> Option<&Storage>
    ensures { option_copied result ≡ storage_in driver.now.state.objects number }
{
    match driver.object(number) {
        Some(Object::Storage(storage)) => Some(storage),
        _ => None,
    }
}

/// The group of a context.
fn group_of(driver: &Driver, number: u64) -> u64
    ensures { result ≡ group_of driver.now.state number }
{
    match context_at(driver, number) {
        Some(context) => context.group,
        None => 0,
    }
}

/// The group whose names a thread's calls use.
#[tactic(auto, unfolding(crate::specs::Answers::thread_group))]
pub fn thread_group(driver: &Driver, thread: u32) -> Option<u64>
    ensures { result ≡ thread_group driver.now.state thread }
{
    match current_context(driver, thread) {
        Some(context) => Some(group_of(driver, context)),
        None => None,
    }
}

/// The framebuffer that a context has bound.
fn framebuffer_of(driver: &Driver, number: u64) -> Option<&Framebuffer>
    ensures { option_copied result ≡ framebuffer_of driver.now.state number }
{
    match context_at(driver, number) {
        Some(context) => match context.bound.framebuffer {
            Some(bound) => framebuffer_at(driver, bound),
            None => None,
        },
        None => None,
    }
}

/// What is attached at the point that a call names.
pub fn attachment_of(driver: &Driver, number: u64, call: &Call) -> Option<Attached>
    ensures { result ≡ attachment_of driver.now.state number call.now }
{
    match framebuffer_of(driver, number) {
        Some(framebuffer) => framebuffer.attached(called_point(call)),
        None => None,
    }
}

/// The name of the framebuffer that a context has bound, and 0 for that of the window system.
fn framebuffer_name(driver: &Driver, number: u64) -> u32
    ensures { result ≡ framebuffer_name (part_of_context driver.now.state number) }
{
    match context_at(driver, number) {
        Some(context) => match &context.part {
            Some(part) => part.framebuffer(),
            None => 0,
        },
        None => 0,
    }
}

/// To how many bytes the rows are aligned that a context reads.
pub fn pack_alignment(driver: &Driver, number: u64) -> u32
    ensures { result ≡ pack_alignment driver.now.state number }
{
    match context_at(driver, number) {
        Some(context) => match &context.part {
            Some(part) => part.pack_align(),
            None => 4,
        },
        None => 4,
    }
}

/// The storage of an object's pixels.
fn attached_storage(driver: &Driver, number: u64) -> Option<u64>
    ensures { result ≡ attached_storage driver.now.state.objects number }
{
    match driver.object(number) {
        Some(Object::Texture(texture)) => texture.levels[0],
        Some(Object::Renderbuffer(renderbuffer)) => renderbuffer.storage,
        _ => None,
    }
}

/// The storage of a framebuffer's colour.
fn color_storage(driver: &Driver, framebuffer: &Framebuffer) -> Option<u64>
    ensures { result ≡ color_storage driver.now.state.objects framebuffer.now }
{
    match framebuffer.part(Point::Color) {
        Some(object) => attached_storage(driver, object),
        None => None,
    }
}

/// The storage of a surface that is bound.
fn surface_storage(driver: &Driver, bound: Option<Bound>) -> Option<u64>
    ensures { result ≡ option_map (λ x. x.storage) (bound_surface driver.now.state bound) }
{
    match bound {
        Some(bound) => match surface_at(driver, bound.object) {
            Some(surface) => Some(surface.storage),
            None => None,
        },
        None => None,
    }
}

/// The storage from which a thread reads, whose current context is there.
fn read_with(driver: &Driver, thread: u32, number: u64) -> Option<u64>
    requires { current_context driver.now.state thread ≡ Some number }
    ensures { result ≡ (bound_framebuffer driver.now.state thread).read }
{
    if framebuffer_name(driver, number) == 0 {
        return surface_storage(driver, record_of(driver, thread).read);
    }
    match framebuffer_of(driver, number) {
        Some(framebuffer) => color_storage(driver, framebuffer),
        None => None,
    }
}

/// The storage from which a thread reads.
fn read_storage(driver: &Driver, thread: u32) -> Option<u64>
    ensures { result ≡ (bound_framebuffer driver.now.state thread).read }
{
    match current_context(driver, thread) {
        Some(number) => read_with(driver, thread, number),
        None => surface_storage(driver, record_of(driver, thread).read),
    }
}

/// The format in which pixels are stored that a thread reads.
pub fn stored_format(driver: &Driver, thread: u32) -> Format
    ensures { result ≡ stored_format driver.now.state (bound_framebuffer driver.now.state thread).read }
{
    match read_storage(driver, thread) {
        Some(number) => match storage_at(driver, number) {
            Some(storage) => storage.format(),
            None => Format::Rgba8888,
        },
        None => Format::Rgba8888,
    }
}
