//! Valid handles (EGL 1.5, section 2.1): how they are found, made and removed.
ghost use Rattle.std.specs.Prelude.{◌≡◌, ◌<◌};
ghost use Rattle.egl_model.specs.Handles.{handle_at};
ghost use Rattle.driver_facts.specs.Tables.{state_in};

use crate::tables::Tables;
use display_table::{Handle, HandleKind};
use egl_calls::Call;
use egl_calls::arguments::signed;
use egl_calls::places::DISPLAY;

impl Tables {
    /// The valid handle of the display that a call names first, by its number at a place.
    pub fn handle_at(&self, call: &Call, place: usize, kind: HandleKind) -> Option<Handle>
        requires { place < 8 }
        ensures { result ≡ handle_at (state_in self.now) call.now place kind }
    {
        self.displays
            .handle(signed(call, DISPLAY), signed(call, place), kind)
    }
}
