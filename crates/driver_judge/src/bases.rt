//! What of our driver's state before a call its answer is compared by.
ghost use Rattle.std.specs.Prelude.{◌≡◌, ◌<◌};
ghost use Rattle.std.specs.Option.{option_and_then};
ghost use Rattle.egl_calls.specs.Ranges.{IsNumber};
ghost use Rattle.egl_model.specs.Currents.{current_context};
ghost use Rattle.egl_model.specs.Framebuffers.{attachment_of};
ghost use Rattle.driver_judge.specs.Answers.{basis_of, destroying, destroying_call, grid_for, held, is_free, is_valid_handle, may_stand};
ghost use Rattle.driver_judge.specs.Sorts.{attached_name, attachment, sort_of};

use crate::facts::{attachment_of, current_context, thread_group};
use crate::maps::Both;
use crate::outcomes::are_none;
use crate::pixels::{Grid, grid_of, no_grid};
use crate::sorts::{Mapped, Sort, answers, attribute_sort, binding, config_attribute};
use call_table::AnswerSort;
use display_table::HandleKind;
use driver_core::Driver;
use egl_calls::arguments::{number, signed};
use egl_calls::places::{ATTACHMENT_PNAME, ATTRIBUTE, DISPLAY, PNAME};
use egl_calls::{Call, EglKind, Kind, Numbers, unsigned};
use egl_names::codes::GL_FRAMEBUFFER_ATTACHMENT_OBJECT_NAME_OES;
use framebuffer_objects::Attached;
use share_group::NameKind;
use std::alloc::Global;

/// What of the state an answer is compared by: what it is, the group of the current context, the pixels that are read, and whether their number may stand for a new handle.
#[derive(Clone, Copy, Debug, PartialEq, Eq, Drop)]
pub struct Basis {
    pub sort: Sort,
    pub group: Option<u64>,
    pub grid: Grid,
    pub free: bool,
}

fn attached_name(attached: Option<Attached>) -> Sort
    ensures { result ≡ attached_name attached }
{
    match attached {
        Some(attached) => {
            if attached.texture {
                Sort::SameName(NameKind::Texture)
            } else {
                Sort::SameName(NameKind::Renderbuffer)
            }
        }
        None => Sort::Equal,
    }
}

fn attachment(attached: Option<Attached>, which: u64) -> Sort
    ensures { result ≡ attachment attached which }
{
    if which == GL_FRAMEBUFFER_ATTACHMENT_OBJECT_NAME_OES {
        attached_name(attached)
    } else {
        Sort::Equal
    }
}

/// What is attached that a call of a thread asks for.
fn asked_attachment(driver: &Driver, thread: u32, call: &Call) -> Option<Attached>
    requires { thread < driver.now.made }
    ensures { result ≡ option_and_then (λ n. attachment_of driver.now.state n call.now) (current_context driver.now.state thread) }
{
    match current_context(driver, thread) {
        Some(context) => attachment_of(driver, context, call),
        None => None,
    }
}

/// What the answer of a call of a thread is.
#[tactic(auto, unfolding(crate::specs::Sorts::sort_of))]
fn sort_of(driver: &Driver, thread: u32, call: &Call) -> Sort
    requires { thread < driver.now.made }
    ensures { result ≡ sort_of driver.now.state thread call.now }
{
    match answers(call.kind) {
        AnswerSort::Same => Sort::Equal,
        AnswerSort::Makes(kind) => Sort::NewHandle(kind),
        AnswerSort::Displays => Sort::SameHandle(Mapped::Display),
        AnswerSort::Currents(kind) => Sort::SameHandle(Mapped::Handle(kind)),
        AnswerSort::ConfigLists => Sort::ConfigList,
        AnswerSort::ConfigAttributes => config_attribute(number(call, ATTRIBUTE)),
        AnswerSort::Attributes => attribute_sort(number(call, ATTRIBUTE)),
        AnswerSort::MakesNames(kind) => Sort::NewNames(kind),
        AnswerSort::FreesNames(kind) => Sort::FreedNames(kind),
        AnswerSort::Bindings => binding(number(call, PNAME)),
        AnswerSort::Attachments => attachment(
            asked_attachment(driver, thread, call),
            number(call, ATTACHMENT_PNAME),
        ),
        AnswerSort::Reads => Sort::PixelBytes,
    }
}

fn destroying(kind: HandleKind) -> Kind
    ensures { result ≡ destroying kind }
{
    match kind {
        HandleKind::Context => Kind::Egl(EglKind::DestroyContext),
        HandleKind::Surface => Kind::Egl(EglKind::DestroySurface),
        HandleKind::Image => Kind::Egl(EglKind::DestroyImage),
        HandleKind::Sync => Kind::Egl(EglKind::DestroySync),
    }
}

/// A number of a handle or a display; 0 for any other.
fn held(number: i128) -> i64
    ensures value { result ≡ held number }
    ensures number { IsNumber result }
{
    if 0 <= number && number <= 4_294_967_295 {
        number as i64
    } else {
        0
    }
}

/// The call that destroys what a handle names.
fn destroying_call(alloc: Global, kind: HandleKind, display: i64, handle: i128) -> Call
    ensures { result ≡ destroying_call kind display handle }
{
    Call {
        kind: destroying(kind),
        args: [held(i128::from(display)), held(handle), 0, 0, 0, 0, 0, 0],
        list: Numbers::new(alloc),
        bytes: None,
    }
}

/// Whether a handle is valid: the call that destroys what it names isn't refused.
#[tactic(auto, unfolding(crate::specs::Answers::is_valid_handle))]
fn is_valid_handle(
    alloc: Global,
    driver: &Driver,
    thread: u32,
    kind: HandleKind,
    display: i64,
    handle: i128,
) -> bool
    requires { thread < driver.now.made }
    ensures { result ≡ is_valid_handle driver.now.state thread kind display handle }
{
    let call = destroying_call(alloc, kind, display, handle);
    are_none(&driver.refusals(thread, &call))
}

/// Whether their number may stand for a new handle.
fn may_stand(
    alloc: Global,
    driver: &Driver,
    handles: &Both,
    thread: u32,
    kind: HandleKind,
    display: i64,
    theirs: i128,
) -> bool
    requires { thread < driver.now.made }
    ensures { result ≡ may_stand driver.now.state handles.now thread kind display theirs }
{
    if theirs == 0 {
        return false;
    }
    match handles.handle_of(Mapped::Handle(kind), unsigned(display), theirs) {
        Some(ours) => !is_valid_handle(alloc, driver, thread, kind, display, ours),
        None => true,
    }
}

fn is_free(
    alloc: Global,
    driver: &Driver,
    handles: &Both,
    thread: u32,
    sort: Sort,
    call: &Call,
    theirs: i128,
) -> bool
    requires { thread < driver.now.made }
    ensures { result ≡ is_free driver.now.state handles.now thread sort call.now theirs }
{
    match sort {
        Sort::NewHandle(kind) => may_stand(
            alloc,
            driver,
            handles,
            thread,
            kind,
            signed(call, DISPLAY),
            theirs,
        ),
        _ => true,
    }
}

fn grid_for(driver: &Driver, thread: u32, sort: Sort, call: &Call) -> Grid
    requires { thread < driver.now.made }
    ensures { result ≡ grid_for driver.now.state thread sort call.now }
{
    match sort {
        Sort::PixelBytes => grid_of(driver, thread, call),
        _ => no_grid(),
    }
}

/// What the answer to a call of a thread is compared by, where theirs has this value.
#[tactic(auto, unfolding(crate::specs::Answers::basis_of))]
pub fn basis_of(
    alloc: Global,
    driver: &Driver,
    handles: &Both,
    thread: u32,
    call: &Call,
    theirs: i128,
) -> Basis
    requires { thread < driver.now.made }
    ensures { result ≡ basis_of driver.now.state handles.now thread call.now theirs }
{
    let sort = sort_of(driver, thread, call);
    Basis {
        sort,
        group: thread_group(driver, thread),
        grid: grid_for(driver, thread, sort, call),
        free: is_free(alloc, driver, handles, thread, sort, call, theirs),
    }
}
