//! The names that a call has as numbers.
ghost use Rattle.std.specs.Prelude.{◌≡◌, Some, pos, slice_index_or};
ghost use Rattle.std.specs.List.{list_any};
ghost use Rattle.egl_model.specs.Images.{source_kind};
ghost use Rattle.driver_judge.specs.UsedNames.{is_ever_renamed, is_other, is_renamed, is_renamed_in, name_places, names_by_role, uses_renamed_by};

use crate::maps::{Both, Entries, found, name_key};
use call_table::{Role, egl_role, gl_role};
use display_table::HandleKind;
use egl_calls::places::{ASKED_NAME, ATTACHED_NAME, BOUND_NAME, CLIENT_BUFFER, IMAGE_SOURCE};
use egl_calls::{Kind, unsigned};
use egl_names::codes::EGL_GL_TEXTURE_2D;
use share_group::NameKind;
use trace_reader::LineCall;

/// Where a call has names, and of which kind.
#[derive(Clone, Copy, Debug, PartialEq, Eq, Drop)]
pub enum NamePlaces {
    /// One, at this place.
    AtPlace(NameKind, u64),
    /// The items of its list.
    InList(NameKind),
    /// That of which an image is made.
    OfImage,
}

/// Where a call for this has names.
fn names_by_role(role: Role) -> Option<NamePlaces>
    ensures { result ≡ names_by_role role }
{
    match role {
        Role::Asks(kind) => Some(NamePlaces::AtPlace(kind, ASKED_NAME as u64)),
        Role::Binds(kind) => Some(NamePlaces::AtPlace(kind, BOUND_NAME as u64)),
        Role::Attaches(kind) => Some(NamePlaces::AtPlace(kind, ATTACHED_NAME as u64)),
        Role::Deletes(kind) => Some(NamePlaces::InList(kind)),
        Role::Creates(HandleKind::Image) => Some(NamePlaces::OfImage),
        _ => None,
    }
}

/// Where a call has names.
pub fn name_places(kind: Kind) -> Option<NamePlaces>
    ensures { result ≡ name_places kind }
{
    match kind {
        Kind::Egl(kind) => names_by_role(egl_role(kind)),
        Kind::Gl(kind) => names_by_role(gl_role(kind)),
        Kind::Own(_) => None,
    }
}

fn is_other(known: Option<i128>, name: i64) -> bool
    ensures { result ≡ is_other known name }
{
    match known {
        Some(known) => known != i128::from(name),
        None => false,
    }
}

fn is_renamed(names: &Both, group: u64, kind: NameKind, name: i64) -> bool
    ensures { result ≡ is_renamed names.now group kind name }
{
    name != 0
        && (is_other(names.given_for(group, kind, i128::from(name)), name)
            || is_other(names.given_as(group, kind, i128::from(name)), name))
}

/// Whether a number is a name in a group that is another's on the other side.
fn is_renamed_in(names: &Both, group: Option<u64>, kind: NameKind, name: i64) -> bool
    ensures { result ≡ is_renamed_in names.now group kind name }
{
    match group {
        Some(group) => is_renamed(names, group, kind, name),
        None => false,
    }
}

/// Whether one of the items is such a number.
fn has_renamed(names: &Both, group: Option<u64>, kind: NameKind, items: &[i64]) -> bool
    ensures { result ≡ list_any (is_renamed_in names.now group kind) items.now }
{
    'each: for item in items {
        if is_renamed_in(names, group, kind, *item) {
            return true;
        }
    }
    false
}

/// Whether a number ever was a name of a kind with another number on the other side.
fn is_ever_renamed(renamed: &Entries, kind: NameKind, name: i64) -> bool
    ensures { result ≡ is_ever_renamed renamed.now.entries kind name }
{
    found(renamed, name_key(0, kind, i128::from(name))).is_some()
}

fn source_kind(call: &LineCall) -> NameKind
    ensures { result ≡ source_kind call.now }
{
    if unsigned(argument_at(call, IMAGE_SOURCE as u64)) == EGL_GL_TEXTURE_2D {
        NameKind::Texture
    } else {
        NameKind::Renderbuffer
    }
}

#[tactic(auto, using(std::proofs::lemmas::List::get_or_past))]
fn argument_at(call: &LineCall, place: u64) -> i64
    ensures { result ≡ slice_index_or call.now.args place (pos 0) }
{
    let args = call.args();
    if place < 8 { args[place as usize] } else { 0 }
}

/// Whether a call with names at these places has one as a number that is another's in theirs.
pub fn uses_renamed_at(
    renamed: &Entries,
    names: &Both,
    group: Option<u64>,
    call: &LineCall,
    places: NamePlaces,
) -> bool
    ensures { result ≡ uses_renamed_by renamed.now.entries names.now group call.now (Some places) }
{
    match places {
        NamePlaces::AtPlace(kind, place) => {
            is_renamed_in(names, group, kind, argument_at(call, place))
        }
        NamePlaces::InList(kind) => has_renamed(names, group, kind, call.list()),
        NamePlaces::OfImage => is_ever_renamed(
            renamed,
            source_kind(call),
            argument_at(call, CLIENT_BUFFER as u64),
        ),
    }
}
