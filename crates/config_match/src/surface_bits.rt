//! The bits of EGL_SURFACE_TYPE.
ghost use Rattle.std.specs.Prelude.{⊤, ◌≡◌, ◌==◌, [], ◌∷◌, codes};
ghost use Rattle.std.specs.Int.RustNames.{bit_and};

use bitflags::{Flag, Flags, bitflag_items};

/// Which surfaces a config may have (EGL 1.5, section 3.4). The numbers of the bits are this project's own.
#[derive(Clone, Copy, PartialEq, Eq, Debug)]
pub struct SurfaceBits(u32);

bitflag_items! {
    impl SurfaceBits: u32 {
        const PBUFFER = 1;
        const PIXMAP = 2;
        const WINDOW = 4;
        const SWAP_BEHAVIOR_PRESERVED = 8;
    }
}

impl SurfaceBits {
    /// A window or a pbuffer, which may keep its pixels at a swap.
    pub const WINDOW_OR_PBUFFER: SurfaceBits = SurfaceBits(1 | 4 | 8);

    /// A pbuffer, which may keep its pixels at a swap.
    pub const PBUFFER_ALONE: SurfaceBits = SurfaceBits(1 | 8);
}

impl Flags for SurfaceBits {
    type Bits = u32;

    ghost exact = { ⊤ };

    ghost table = { (codes "PBUFFER", 1) ∷ (codes "PIXMAP", 2) ∷ (codes "WINDOW", 4) ∷ (codes "SWAP_BEHAVIOR_PRESERVED", 8) ∷ [] };

    ghost set_of = { λ s. s.0 };

    fn flags<'a>() -> &'a [Flag<SurfaceBits>] {
        SurfaceBits::FLAGS
    }

    fn bits(&self) -> u32 {
        self.0
    }

    fn from_bits_retain(bits: u32) -> SurfaceBits {
        SurfaceBits(bits)
    }
}

/// Whether every one of some bits is set. A number with a bit past the 32nd is never so.
#[tactic(auto, using(crate::proofs::MatchLaws::past_all_bits))]
pub fn has_surface_bits(surface: SurfaceBits, bits: u64) -> bool
    ensures { result ≡ (bit_and surface.0 bits == bits) }
{
    if bits > 4_294_967_295 {
        return false;
    }
    surface.contains(SurfaceBits::from_bits_retain(bits as u32))
}

/// The bits as a number.
pub fn surface_number(surface: SurfaceBits) -> u32
    ensures { result ≡ surface.0 }
{
    surface.bits()
}
