//! The frames of a run: what a screen shows on which the windows of its trace are stacked.
ghost use Rattle.std.specs.Prelude.{◌≡◌, ◌≤◌, ◌<◌, ◌*◌, ◌++◌, [], All, length, IfOk, OnOk};
ghost use Rattle.std.specs.List.{sum};
ghost use Rattle.egl_cli.specs.Frames as values;

use driver_core::Driver;
use egl_calls::{Bytes, EglKind, Entry, Journal, Kind, NoMemory, is_done};
use journal_text::sum_of;
use journal_text::texts::{put_decimal, put_text};
use screen_compose::{Fronts, Placed, Screen};
use std::alloc::Global;
use surface_store::{Window, WindowSpec};
use trace_reader::Trace;
use trace_session::driver_of;

/// How much further to the right and upward each window lies than the one below it, in pixels.
const OFFSET: u32 = 16;

/// A window over which so many lie lower.
fn placed_over(below: u32, spec: WindowSpec) -> Placed
    requires { below < 64 }
    ensures { result ≡ values.placed_over below spec }
{
    let start = i64::from(OFFSET * below);
    Placed {
        window: spec.id,
        x: start,
        y: start,
    }
}

/// The windows of a trace, the first the lowest.
fn stacked(alloc: Global, specs: &[WindowSpec]) -> Result<Vec<Placed>, NoMemory>
    requires { length specs.now ≤ 64 }
    ensures { IfOk result (λ l. l.items ≡ values.stacked specs.now) }
{
    let mut list = Vec::new(alloc);
    'each: for below in 0..specs.len() {
        let Ok(()) = list.push(placed_over(below as u32, specs[below])) else {
            return Err(NoMemory);
        };
    }
    Ok(list)
}

/// Whether an entry makes a frame: a swap that wasn't refused.
fn makes_frame(entry: &Entry) -> bool
    ensures { result ≡ values.makes_frame entry.now }
{
    matches!(entry.call.kind, Kind::Egl(EglKind::SwapBuffers)) && is_done(entry.reply.outcome)
}

/// The line of a frame.
#[tactic(auto, unfolding(crate::specs::Frames::frame_line))]
fn put_frame_line(out: &mut Bytes, number: u64, at: u64, total: u64) -> Result<(), NoMemory>
    ensures { OnOk result (out.new ≡ out.old ++ values.frame_line number at total) }
{
    put_text(out, "frame ")?;
    put_decimal(out, number)?;
    put_text(out, " ")?;
    put_decimal(out, at)?;
    put_text(out, " ")?;
    put_decimal(out, total)?;
    put_text(out, "\n")
}

/// Shows windows on a screen, and prints the frame: its number, and how many entries there are by then.
fn put_frame(
    alloc: Global,
    out: &mut Bytes,
    screen: &mut Screen,
    windows: &[Window],
    number: u64,
    at: u64,
) -> Result<(), NoMemory>
    ensures out { OnOk result (out.new ≡ out.old ++ values.frame_line number at (sum (values.picture_of screen.old.width screen.old.height screen.old.placed windows.now))) }
    ensures width { OnOk result (screen.new.width ≡ screen.old.width) }
    ensures height { OnOk result (screen.new.height ≡ screen.old.height) }
    ensures placed { OnOk result (screen.new.placed ≡ screen.old.placed) }
{
    let fronts = Fronts::of_windows(alloc, windows, screen.placed(), at)?;
    screen.show(fronts);
    let frame = screen.frame(alloc, number)?;
    put_frame_line(out, frame.number, frame.at, sum_of(frame.rows.as_slice()))
}

/// Plays entries again, and prints each frame that they make.
fn put_frames(
    alloc: Global,
    out: &mut Bytes,
    driver: &mut Driver,
    screen: &mut Screen,
    entries: &[Entry],
) -> Result<(), NoMemory>
    requires { All (λ e. e.thread < driver.old.made) entries.now }
    ensures { OnOk result (out.new ≡ out.old ++ values.frames_of screen.old.width screen.old.height screen.old.placed driver.old.state [] entries.now) }
{
    let mut number = 0u64;
    let mut at = 0u64;
    'each: for entry in entries {
        driver.play(alloc, entry.thread, &entry.call)?;
        at += 1;
        if makes_frame(entry) {
            put_frame(alloc, out, screen, driver.windows(), number, at)?;
            number += 1;
        }
    }
    Ok(())
}

/// A screen of these sides with the windows of a trace.
fn screen_of(alloc: Global, width: u32, height: u32, trace: &Trace) -> Result<Screen, NoMemory>
    requires wide { (0 < width) × (width ≤ 2048) }
    requires high { (0 < height) × (height ≤ 2048) }
    ensures width { IfOk result (λ s. s.width ≡ width) }
    ensures height { IfOk result (λ s. s.height ≡ height) }
    ensures placed { IfOk result (λ s. s.placed ≡ values.stacked trace.now.windows) }
{
    let placed = stacked(alloc, trace.windows())?;
    Screen::new(alloc, width, height, &placed)
}

/// The frames of a journal of a trace, on a screen of these sides. The driver plays the journal's calls again, and what the windows show behind a swap is composed where it changed.
#[tactic(auto, unfolding(crate::specs::Frames::frames_text))]
pub fn frames_text(
    alloc: Global,
    width: u32,
    height: u32,
    trace: &Trace,
    journal: &Journal,
) -> Result<Bytes, NoMemory>
    requires wide { (0 < width) × (width ≤ 2048) }
    requires high { (0 < height) × (height ≤ 2048) }
    requires threads { All (λ e. e.thread < trace.now.threads) journal.now.entries }
    ensures { IfOk result (λ b. b ≡ values.frames_text width height trace.now journal.now.entries) }
{
    let mut out = Bytes::new(alloc);
    let mut driver = driver_of(alloc, trace)?;
    let mut screen = screen_of(alloc, width, height, trace)?;
    put_frames(
        alloc,
        &mut out,
        &mut driver,
        &mut screen,
        journal.as_slice(),
    )?;
    put_text(&mut out, "end\n")?;
    Ok(out)
}
