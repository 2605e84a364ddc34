//! A screen, and frames of it.
ghost use Rattle.std.specs.Prelude.{◌≡◌, ◌+◌, ◌<◌, ◌≤◌, ◌++◌, true, length, replicate, IfOk, OnOk};
ghost use Rattle.screen_compose.specs.Changes.{changed_rows};
ghost use Rattle.screen_compose.specs.Composing.{black, composed};
ghost use Rattle.screen_compose.specs.Fronts.{AreOf, no_fronts};
ghost use Rattle.screen_compose.specs.Placing as placing;
ghost use Rattle.screen_compose.specs.Screens as values;

use crate::composing::recompose;
use crate::fronts::Fronts;
use crate::placed::Placed;
use crate::rows::Row;
use egl_calls::{Bytes, NoMemory};
use ref_store::Steps;
use std::alloc::Global;
use std::marker::{Brand, Model};
use std::sync::ledger::{Blank, Ledger};

/// Windows stacked on a screen, row 0 the lowest. It keeps its rows, and composes only those anew that change.
pub struct Screen {
    width: u32,
    height: u32,
    placed: Vec<Placed>,
    fronts: Fronts,
    rows: Vec<Row>,
}

// Written out, so that no crate above proves the drops of what it owns.
impl Drop for Screen {
    fn drop(self) {
        let Screen {
            width: _,
            height: _,
            placed: _,
            fronts: _,
            rows: _,
        } = self;
    }
}

impl Model for Screen {
    ghost use Rattle.screen_compose.specs.Screens.{ScreenValue, Shows};

    ghost Value = { ScreenValue };

    ghost view = { λ s. record { width = s.width; height = s.height; placed = s.placed.items; fronts = s.fronts } };

    ghost invariant = { λ s. Shows s.width s.height s.placed.items s.fronts s.rows.items };
}

/// A picture of a screen: its number, how many entries the history had of which it shows the fronts, the screen's sides, and red, green, blue and alpha of each pixel, rows from 0 upward.
#[derive(Drop)]
pub struct Frame {
    pub number: u64,
    pub at: u64,
    pub w: u32,
    pub h: u32,
    pub rows: Bytes,
}

fn black_rows(alloc: Global, w: u32, h: u32) -> Result<Vec<Row>, NoMemory>
    ensures { IfOk result (λ r. r.items ≡ replicate h (replicate w black)) }
{
    let mut rows = Vec::new(alloc);
    'each: for _y in 0..h {
        let Ok(()) = rows.push(Row::black(alloc, w)?) else {
            return Err(NoMemory);
        };
    }
    Ok(rows)
}

fn put_row(out: &mut Bytes, row: &Row) -> Result<(), NoMemory>
    ensures { OnOk result (out.new ≡ out.old ++ values.row_bytes row.now) }
{
    'each: for p in row.as_slice() {
        out.extend(&[p.r, p.g, p.b, p.a])?;
    }
    Ok(())
}

#[tactic(auto, unfolding(crate::specs::Screens::picture_bytes))]
fn picture(alloc: Global, rows: &[Row]) -> Result<Bytes, NoMemory>
    ensures { IfOk result (λ b. b ≡ values.picture_bytes rows.now) }
{
    let mut out = Bytes::new(alloc);
    'each: for row in rows {
        put_row(&mut out, row)?;
    }
    Ok(out)
}

fn list_of(alloc: Global, placed: &[Placed]) -> Result<Vec<Placed>, NoMemory>
    ensures { IfOk result (λ l. l.items ≡ placed.now) }
{
    match Vec::from_slice(alloc, placed) {
        Ok(list) => Ok(list),
        Err(_) => Err(NoMemory),
    }
}

impl Screen {
    /// A screen on which these windows are placed, of which it shows nothing yet: each pixel is black.
    pub fn new(alloc: Global, w: u32, h: u32, placed: &[Placed]) -> Result<Screen, NoMemory>
        requires { placing.screen_ok w h placed.now ≡ true }
        ensures screen { IfOk result (λ s. s ≡ record { width = w; height = h; placed = placed.now; fronts = no_fronts placed.now }) }
        ensures black { composed (no_fronts placed.now).layers w h ≡ replicate h (replicate w black) }
    {
        Ok(Screen {
            width: w,
            height: h,
            placed: list_of(alloc, placed)?,
            fronts: Fronts::none(alloc, placed)?,
            rows: black_rows(alloc, w, h)?,
        })
    }

    /// Shows new fronts of its windows, and answers how many rows changed. It composes those alone, each in one step, and takes no memory.
    pub fn update<L: Ledger>(&mut self, fronts: Fronts, steps: &mut Steps<L>) -> u64
        requires { AreOf fronts self.old.placed }
        ensures screen { self.new ≡ record self.old { fronts = fronts } }
        ensures changed { result ≡ changed_rows self.old.fronts.layers fronts.layers self.old.height }
        ensures steps { steps.new ≤ steps.old + result }
    {
        let changed = recompose(&mut self.rows, &self.fronts, &fronts, steps);
        self.fronts = fronts;
        changed
    }

    /// The windows that are placed on it, the lowest first.
    pub fn placed(&self) -> &[Placed]
        ensures { result.now ≡ self.now.placed }
    {
        &self.placed
    }

    /// What the screen shows, as a frame of this number.
    pub fn frame(&self, alloc: Global, number: u64) -> Result<Frame, NoMemory>
        ensures frame { IfOk result (λ f. f ≡ record { number = number; at = self.now.fronts.at; w = self.now.width; h = self.now.height; rows = values.screen_bytes self.now }) }
        ensures few { length (values.screen_bytes self.now) ≤ 16777216 }
    {
        Ok(Frame {
            number,
            at: self.fronts.at(),
            w: self.width,
            h: self.height,
            rows: picture(alloc, &self.rows)?,
        })
    }
}

// An update whose counter nobody reads.
fn uncounted<L: Ledger>(screen: &mut Screen, fronts: Fronts, blank: Blank) -> u64
    requires same { AreOf fronts screen.old.placed }
    requires name { blank.name ≡ L.name }
    requires parts { blank.parts ≡ L.parts }
    requires some { 0 < blank.parts }
    ensures screen { screen.new ≡ record screen.old { fronts = fronts } }
    ensures changed { result ≡ changed_rows screen.old.fronts.layers fronts.layers screen.old.height }
{
    screen.update(fronts, &mut Steps::<L>::open(blank))
}

impl Screen {
    /// Shows new fronts of its windows, and answers how many rows changed, as `update` does, and counts nothing.
    pub fn show(&mut self, fronts: Fronts) -> u64
        requires { AreOf fronts self.old.placed }
        ensures screen { self.new ≡ record self.old { fronts = fronts } }
        ensures changed { result ≡ changed_rows self.old.fronts.layers fronts.layers self.old.height }
    {
        uncounted::<Brand>(self, fronts, Blank::new(1))
    }
}
