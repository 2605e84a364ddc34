//! Handles.
ghost use Rattle.std.specs.Prelude.{◌≡◌};
ghost use Rattle.display_table.specs.Handles.{kind_place};

/// What a handle may name.
#[derive(Clone, Copy, Debug, PartialEq, Eq, Drop)]
pub enum HandleKind {
    Context,
    Surface,
    Image,
    Sync,
}

/// A valid handle: its number, the display that it was made for, and the object that it names (EGL 1.5, section 2.1).
#[derive(Clone, Copy, Debug, PartialEq, Eq, Drop)]
pub struct Handle {
    pub number: u32,
    pub display: u64,
    pub kind: HandleKind,
    pub object: u64,
}

pub(crate) fn place_of(kind: HandleKind) -> u8
    ensures { result ≡ kind_place kind }
{
    match kind {
        HandleKind::Context => 0,
        HandleKind::Surface => 1,
        HandleKind::Image => 2,
        HandleKind::Sync => 3,
    }
}
