//! Where an entry stands: its thread and its line.
ghost use Rattle.std.specs.Prelude.{◌≡◌, ◌++◌, OnOk};
ghost use Rattle.egl_cli.specs.Places.{place_words};

use egl_calls::{Bytes, NoMemory};
use journal_text::texts::{put_decimal, put_text};

/// A thread, and the number of its line.
pub fn put_place(out: &mut Bytes, thread: u32, line: u64) -> Result<(), NoMemory>
    ensures { OnOk result (out.new ≡ out.old ++ place_words thread line) }
{
    put_decimal(out, u64::from(thread))?;
    put_text(out, " ")?;
    put_decimal(out, line)
}
