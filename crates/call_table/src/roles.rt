//! What calls are for.
ghost use Rattle.std.specs.Prelude.{◌≡◌};
ghost use Rattle.call_table.specs.Roles.{clears, draws, is_own_state, lets_go, takes_pixels};

use display_table::HandleKind;
use share_group::NameKind;

/// What a call is for. What follows from it stands by the role and not by the call: what it touches, whether it may want memory, whether it sets references, and often what it does.
#[derive(Clone, Copy, Debug, PartialEq, Eq, Drop)]
pub enum Role {
    /// It is like no other.
    Plain,
    /// It makes a handle of this kind.
    Creates(HandleKind),
    /// It makes a handle of this kind invalid.
    Destroys(HandleKind),
    /// It makes a context and surfaces current, or none.
    MakesCurrent,
    /// It lets go of all that a display or a thread has.
    Releases,
    /// It makes new names of this kind.
    Generates(NameKind),
    /// It deletes the objects of names of this kind.
    Deletes(NameKind),
    /// It asks whether a name of this kind has an object.
    Asks(NameKind),
    /// It binds the object of a name of this kind, and makes one where there is none.
    Binds(NameKind),
    /// It attaches the object of a name of this kind to the framebuffer that is bound, or detaches what is there.
    Attaches(NameKind),
    /// It gives the object of this kind that is bound new pixels or bytes.
    Specifies(NameKind),
    /// It gives the texture that is bound a level of pixels that are read.
    Copies,
    /// It gives the object of this kind that is bound the pixels of an image.
    TakesImage(NameKind),
    /// It writes a part of a level of the texture that is bound.
    Rewrites,
    /// The same with pixels that are read.
    CopiesPart,
    /// It sets something of the object of this kind that is bound.
    Sets(NameKind),
    /// It asks for something of the object of this kind that is bound.
    Gets(NameKind),
    /// It clears buffers.
    Clears,
    /// It draws a texture.
    Draws,
    /// It answers pixels.
    ReadsPixels,
    /// It flushes the current context, so that its fences are signalled.
    Flushes,
    /// Its thread waits until a sync is signalled.
    ClientWaits,
    /// The server waits until a sync is signalled.
    ServerWaits,
    /// It asks or sets what its thread or its context keeps for itself, and nothing else.
    OwnState,
}

impl Role {
    /// Whether the call does nothing but let go, or flush: such a call is played where there is no memory.
    pub fn lets_go(self) -> bool
        ensures { result ≡ lets_go self }
    {
        match self {
            Role::Destroys(_) | Role::Releases | Role::Deletes(_) | Role::Flushes => true,
            _ => false,
        }
    }

    /// Whether the call clears buffers.
    pub fn clears(self) -> bool
        ensures { result ≡ clears self }
    {
        match self {
            Role::Clears => true,
            _ => false,
        }
    }

    /// Whether the call clears buffers or answers pixels, which a thread may have for itself.
    pub fn takes_pixels(self) -> bool
        ensures { result ≡ takes_pixels self }
    {
        match self {
            Role::Clears | Role::ReadsPixels => true,
            _ => false,
        }
    }

    /// Whether the call draws a texture.
    pub fn draws(self) -> bool
        ensures { result ≡ draws self }
    {
        match self {
            Role::Draws => true,
            _ => false,
        }
    }

    /// Whether the call asks or sets what its thread or its context keeps for itself, and nothing else.
    pub fn is_own_state(self) -> bool
        ensures { result ≡ is_own_state self }
    {
        match self {
            Role::OwnState => true,
            _ => false,
        }
    }
}
