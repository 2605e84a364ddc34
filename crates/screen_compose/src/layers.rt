//! Placed windows, each with what it shows.
ghost use Rattle.std.specs.Prelude.{◌≡◌, IfOk, option_copied};
ghost use Rattle.screen_compose.specs.Changes as changes;
ghost use Rattle.screen_compose.specs.Composing as values;
ghost use Rattle.screen_compose.specs.Fronts.{bare_layer, rows_in};

use crate::placed::Placed;
use crate::rows::{Row, place_in};
use egl_calls::NoMemory;
use pixel_rows::Image;
use std::alloc::Global;
use std::marker::Model;

/// What a window shows, by rows from the lowest upward.
#[derive(Drop)]
pub(crate) struct Front {
    rows: Vec<Row>,
}

impl Model for Front {
    ghost use Rattle.std.specs.Prelude.{List};
    ghost use Rattle.pixel_formats.specs.declared.pixels.Pixel.{Pixel};

    ghost Value = { List (List Pixel) };

    ghost view = { λ f. f.rows.items };
}

/// A placed window with its front; without one where no such window is declared.
#[derive(Drop)]
pub(crate) struct Layer {
    placed: Placed,
    front: Option<Front>,
}

impl Model for Layer {
    ghost use Rattle.screen_compose.specs.Fronts.{LayerValue};

    ghost Value = { LayerValue };

    ghost view = { λ l. record { placed = l.placed; front = l.front } };
}

impl Front {
    #[tactic(auto, using(crate::proofs::RowLaws::row_more, crate::proofs::RowLaws::no_rows))]
    pub fn of(alloc: Global, image: &Image) -> Result<Front, NoMemory>
        ensures { IfOk result (λ f. f ≡ rows_in image.now) }
    {
        let mut rows = Vec::new(alloc);
        'each: for y in 0..image.height() {
            let Ok(()) = rows.push(Row::of(alloc, image, y)?) else {
                return Err(NoMemory);
            };
        }
        Ok(Front { rows })
    }

    /// The row that lies in row `y` of the screen, where the lowest lies in row `start`.
    fn row_from(&self, start: i64, y: u32) -> Option<&Row>
        ensures { option_copied result ≡ values.row_from start y self.now }
    {
        self.rows.get(place_in(self.rows.len(), y as usize, start)?)
    }
}

impl Layer {
    pub fn new(placed: Placed, front: Option<Front>) -> Layer
        ensures { result ≡ record { placed = placed; front = front } }
    {
        Layer { placed, front }
    }

    pub fn bare(placed: Placed) -> Layer
        ensures { result ≡ bare_layer placed }
    {
        Layer {
            placed,
            front: None,
        }
    }

    /// The column of the screen in which its rows begin.
    pub fn start(&self) -> i64
        ensures { result ≡ self.now.placed.x }
    {
        self.placed.x
    }

    /// The row that lies in row `y` of the screen.
    pub fn row_at(&self, y: u32) -> Option<&Row>
        ensures { option_copied result ≡ values.row_at self.now y }
    {
        match &self.front {
            Some(front) => front.row_from(self.placed.y, y),
            None => None,
        }
    }
}

/// Whether a row is in only one of two fronts, or differs.
fn differ(old_row: Option<&Row>, new_row: Option<&Row>) -> bool
    ensures { result ≡ changes.differ (option_copied old_row.entry) (option_copied new_row.entry) }
{
    match (old_row, new_row) {
        (None, None) => false,
        (Some(old), Some(new)) => !old.is_same(new),
        _ => true,
    }
}

/// Whether a row of the screen changes.
pub(crate) fn is_changed(olds: &[Layer], news: &[Layer], y: u32) -> bool
    ensures { result ≡ changes.is_changed olds.now news.now y }
{
    'each: for k in 0..olds.len().min(news.len()) {
        if differ(olds[k].row_at(y), news[k].row_at(y)) {
            return true;
        }
    }
    false
}
