//! Images.

ghost use Rattle.std.specs.Prelude.{◌≡◌, ℕ, ◌+◌, ◌-◌, ◌*◌, ◌<◌, ◌≤◌, length, slice_index_or, true, IsOk, OnOk, OnErr, IfOk, IfErr};
ghost use Rattle.pixel_formats.specs.declared.formats.Format.TheVariants.{Rgba8888};
ghost use Rattle.pixel_rows.specs.Cells.{seen};
ghost use Rattle.pixel_rows.specs.Images as values;
ghost use Rattle.pixel_rows.specs.Images.{IsImage, IsSameShape, blank, no_pixel, pixel_at};
ghost use Rattle.pixel_rows.specs.Lanes.{scaled};
ghost use Rattle.pixel_rows.specs.Masks.{every};
ghost use Rattle.pixel_rows.specs.Painting.{painted};
ghost use Rattle.pixel_rows.specs.Payloads.{loaded};
ghost use Rattle.pixel_rows.specs.Rects.{IsInside, is_at, is_in, is_in_run};
ghost use Rattle.pixel_rows.specs.Transfers as transfers;
ghost use Rattle.pixel_rows.specs.Transfers.{HasReadSides, IsAlignment};

use crate::blocks::{Block, block_of};
use crate::cells::Cells;
use crate::masks::Mask;
use crate::rects::Rect;
use crate::rows::{
    Rows, cells_of, copy_rows, fill_rows, gather_row, gather_scaled_row, lay_row, load_rows, own,
    owns, pixel_in_rows, put_row, refreeze,
};
use crate::runs::read_cells;
use crate::{rows, transfers};
use egl_calls::{Bytes, NoMemory};
use pixel_formats::{Format, Pixel};
use std::alloc::Global;
use std::fmt::{self, Debug, Formatter, Write};
use std::marker::Model;
use thiserror::Error;

/// A format and rows of pixels, row 0 the lowest. Sides are at most 2,048 pixels.
///
/// A pixel is kept in the bytes of the format, one to four of them. The bytes are the image's own, or
/// they are frozen: then other images may share them, and the first write gives the image its own.
pub struct Image {
    pub(crate) format: Format,
    pub(crate) width: u32,
    pub(crate) height: u32,
    pub(crate) rows: Rows,
}

// Written out, so that no crate above proves the drops of what it owns.
impl Drop for Image {
    fn drop(self) {
        let Image {
            format: _,
            width: _,
            height: _,
            rows: _,
        } = self;
    }
}

impl Model for Image {
    ghost use Rattle.pixel_rows.specs.Cells.{seen};
    ghost use Rattle.pixel_rows.specs.Images.{ImageValue};
    ghost use Rattle.pixel_rows.specs.Rows.{IsStored, cells_in_rows, is_owned};

    ghost Value = { ImageValue };

    ghost view = { λ i. record { format = i.format; width = i.width; height = i.height; pixels = seen i.format (cells_in_rows i.rows); owned = is_owned i.rows } };

    ghost invariant = { λ i. IsStored i.format i.width i.height i.rows };
}

impl Debug for Image {
    fn fmt<W: Write>(&self, f: &mut Formatter<W>) -> fmt::Result {
        write!(
            f,
            "Image({:?}, {}, {})",
            self.format, self.width, self.height
        )
    }
}

/// Memory ran out before an image was frozen. It is handed back as it was.
#[derive(Debug, Drop, Error)]
#[error("memory ran out before an image was frozen")]
pub struct FreezeError {
    pub image: Image,
}

impl Image {
    /// An image whose stored components are all 0.
    pub fn new(alloc: Global, format: Format, w: u32, h: u32) -> Result<Image, NoMemory>
        requires { (w ≤ 2048) × (h ≤ 2048) }
        ensures { IfOk result (λ i. i ≡ blank format w h) }
    {
        let count = h as usize * w as usize;
        Ok(Image {
            format,
            width: w,
            height: h,
            rows: Rows::Owned(Cells::zeros(alloc, format, count)?),
        })
    }

    /// How the pixels are stored.
    pub fn format(&self) -> Format
        ensures format { result ≡ self.now.format }
        ensures whole { IsImage self.now }
    {
        self.format
    }

    /// How many pixels a row has.
    pub fn width(&self) -> u32
        ensures width { result ≡ self.now.width }
        ensures whole { IsImage self.now }
    {
        self.width
    }

    /// How many rows there are.
    pub fn height(&self) -> u32
        ensures height { result ≡ self.now.height }
        ensures whole { IsImage self.now }
    {
        self.height
    }

    /// Whether the bytes are the image's own, so that a write takes no memory.
    pub fn is_owned(&self) -> bool
        ensures { result ≡ self.now.owned }
    {
        owns(&self.rows)
    }

    /// The same pixels, frozen, so that `share` copies none of them.
    pub fn freeze(self) -> Result<Image, FreezeError>
        ensures frozen { IfOk result (λ i. i ≡ values.frozen self) }
        ensures err { IfErr result (λ e. e.image ≡ self) }
    {
        let Image {
            format,
            width,
            height,
            rows,
        } = self;
        match rows::frozen(rows) {
            Ok(rows) => Ok(Image {
                format,
                width,
                height,
                rows,
            }),
            Err(rows) => Err(FreezeError {
                image: Image {
                    format,
                    width,
                    height,
                    rows,
                },
            }),
        }
    }

    /// Freezes an image again that was written. Where there is no memory to share its bytes, `share`
    /// copies them.
    pub fn refreeze(&mut self)
        ensures frozen { self.new ≡ values.frozen self.old }
        ensures whole { IsImage self.new }
    {
        refreeze(&mut self.rows);
    }

    /// An equal image. A later write to either leaves the other. Of a frozen image no pixel is copied, but
    /// where `refreeze` found no memory.
    pub fn share(&self) -> Result<Image, NoMemory>
        ensures { IfOk result (λ i. i ≡ self.now) }
    {
        Ok(Image {
            format: self.format,
            width: self.width,
            height: self.height,
            rows: rows::share(&self.rows)?,
        })
    }

    /// The pixel in column `x` and row `y`, at 8 bits a component.
    pub fn at(&self, x: u32, y: u32) -> Pixel
        requires { (x < self.now.width) × (y < self.now.height) }
        ensures { result ≡ pixel_at self.now x y }
    {
        let place = y as usize * self.width as usize + x as usize;
        pixel_in_rows(&self.rows, place, self.format)
    }

    /// Reads the pixels of some columns of a row, at 8 bits a component: four bytes each, as `Rgba8888`
    /// keeps them.
    pub fn read_row(&self, row: u32, columns: &[u32], cells: &mut [[u8; 4]])
        requires long { length cells.old ≡ length columns.now }
        requires row { row < self.now.height }
        requires columns { (k : ℕ) → k < length columns.now → slice_index_or columns.now k 0 < self.now.width }
        ensures long { length cells.new ≡ length cells.old }
        ensures each { (k : ℕ) → k < length columns.now → slice_index_or (seen Rgba8888 cells.new) k no_pixel ≡ pixel_at self.now (slice_index_or columns.now k 0) row }
    {
        let first = row as usize * self.width as usize;
        read_cells(cells, cells_of(&self.rows), first, columns, self.format);
    }

    /// Writes one pixel. Want of memory leaves the image as it was, and it comes only where the bytes
    /// aren't the image's own.
    pub fn put(&mut self, x: u32, y: u32, p: Pixel, mask: Mask) -> Result<(), NoMemory>
        requires { (x < self.old.width) × (y < self.old.height) }
        ensures ok { OnOk result (self.new ≡ painted self.old (is_at x y) (λ _ _. p) mask) }
        ensures shape { IsSameShape self.old self.new }
        ensures whole { IsImage self.new }
        ensures err { OnErr result (self.new ≡ self.old) }
        ensures room { self.old.owned ≡ true → IsOk result }
    {
        let (x, y) = (x as usize, y as usize);
        let block = Block {
            left: x,
            right: x + 1,
            bottom: y,
            top: y + 1,
        };
        own(&mut self.rows)?;
        fill_rows(
            &mut self.rows,
            self.width as usize,
            block,
            self.format,
            p,
            mask,
        );
        Ok(())
    }

    /// Writes a row of pixels from column `x` of row `y` on. Want of memory leaves the image as it was,
    /// and it comes only where the bytes aren't the image's own.
    pub fn put_row(&mut self, x: u32, y: u32, row: &[Pixel], mask: Mask) -> Result<(), NoMemory>
        requires { (x + length row.now ≤ self.old.width) × (y < self.old.height) }
        ensures ok { OnOk result (self.new ≡ painted self.old (is_in_run x y (length row.now)) (λ u _. slice_index_or row.now (u - x) no_pixel) mask) }
        ensures shape { IsSameShape self.old self.new }
        ensures whole { IsImage self.new }
        ensures err { OnErr result (self.new ≡ self.old) }
        ensures room { self.old.owned ≡ true → IsOk result }
    {
        let at = y as usize * self.width as usize + x as usize;
        own(&mut self.rows)?;
        put_row(&mut self.rows, at, row, self.format, mask);
        Ok(())
    }

    /// Writes a row of pixels from column `x` of row `y` on, each of four bytes, as `Rgba8888` keeps them.
    /// Want of memory leaves the image as it was, and it comes only where the bytes aren't the image's own.
    pub fn lay_row(&mut self, x: u32, y: u32, row: &[[u8; 4]], mask: Mask) -> Result<(), NoMemory>
        requires { (x + length row.now ≤ self.old.width) × (y < self.old.height) }
        ensures ok { OnOk result (self.new ≡ painted self.old (is_in_run x y (length row.now)) (λ u _. slice_index_or (seen Rgba8888 row.now) (u - x) no_pixel) mask) }
        ensures shape { IsSameShape self.old self.new }
        ensures whole { IsImage self.new }
        ensures err { OnErr result (self.new ≡ self.old) }
        ensures room { self.old.owned ≡ true → IsOk result }
    {
        let at = y as usize * self.width as usize + x as usize;
        own(&mut self.rows)?;
        lay_row(&mut self.rows, at, row, self.format, mask);
        Ok(())
    }

    /// Writes the pixels of some columns of a row of an image of the same format, from column `x` of
    /// row `y` on: a copy of bytes where each column is the next one. Want of memory leaves the image
    /// as it was, and it comes only where the bytes aren't the image's own.
    pub fn gather_row(
        &mut self,
        x: u32,
        y: u32,
        from: &Image,
        columns: &[u32],
        row: u32,
    ) -> Result<(), NoMemory>
        requires format { from.now.format ≡ self.old.format }
        requires place { (x + length columns.now ≤ self.old.width) × (y < self.old.height) }
        requires row { row < from.now.height }
        requires columns { (k : ℕ) → k < length columns.now → slice_index_or columns.now k 0 < from.now.width }
        ensures ok { OnOk result (self.new ≡ painted self.old (is_in_run x y (length columns.now)) (λ u _. pixel_at from.now (slice_index_or columns.now (u - x) 0) row) every) }
        ensures shape { IsSameShape self.old self.new }
        ensures whole { IsImage self.new }
        ensures err { OnErr result (self.new ≡ self.old) }
        ensures room { self.old.owned ≡ true → IsOk result }
    {
        let at = y as usize * self.width as usize + x as usize;
        let first = row as usize * from.width as usize;
        own(&mut self.rows)?;
        gather_row(&mut self.rows, at, &from.rows, first, columns, self.format);
        Ok(())
    }

    /// Writes the pixels of some columns of a row of an image, each multiplied by a colour, from column
    /// `x` of row `y` on, both images at 8 bits a component in `Rgba8888`. Want of memory leaves the image
    /// as it was, and it comes only where the bytes aren't the image's own.
    pub fn gather_scaled_row(
        &mut self,
        x: u32,
        y: u32,
        from: &Image,
        columns: &[u32],
        row: u32,
        by: Pixel,
    ) -> Result<(), NoMemory>
        requires format { (self.old.format ≡ Rgba8888) × (from.now.format ≡ Rgba8888) }
        requires place { (x + length columns.now ≤ self.old.width) × (y < self.old.height) }
        requires row { row < from.now.height }
        requires columns { (k : ℕ) → k < length columns.now → slice_index_or columns.now k 0 < from.now.width }
        ensures ok { OnOk result (self.new ≡ painted self.old (is_in_run x y (length columns.now)) (λ u _. scaled by (pixel_at from.now (slice_index_or columns.now (u - x) 0) row)) every) }
        ensures shape { IsSameShape self.old self.new }
        ensures whole { IsImage self.new }
        ensures err { OnErr result (self.new ≡ self.old) }
        ensures room { self.old.owned ≡ true → IsOk result }
    {
        let at = y as usize * self.width as usize + x as usize;
        let first = row as usize * from.width as usize;
        own(&mut self.rows)?;
        gather_scaled_row(
            &mut self.rows,
            at,
            &from.rows,
            first,
            columns,
            self.format,
            by,
        );
        Ok(())
    }

    /// Writes a rectangle of pixels. Want of memory leaves the image as it was, and it comes only where
    /// the bytes aren't the image's own.
    pub fn fill_rect(&mut self, rect: Rect, p: Pixel, mask: Mask) -> Result<(), NoMemory>
        requires { IsInside rect self.old.width self.old.height }
        ensures ok { OnOk result (self.new ≡ painted self.old (is_in rect) (λ _ _. p) mask) }
        ensures shape { IsSameShape self.old self.new }
        ensures whole { IsImage self.new }
        ensures err { OnErr result (self.new ≡ self.old) }
        ensures room { self.old.owned ≡ true → IsOk result }
    {
        let block = block_of(rect, self.width, self.height);
        own(&mut self.rows)?;
        fill_rows(
            &mut self.rows,
            self.width as usize,
            block,
            self.format,
            p,
            mask,
        );
        Ok(())
    }

    /// Writes a rectangle of pixels from bytes of the format `from`. The first row is the lowest. Each
    /// row takes the smallest multiple of `align` bytes that holds its pixels, the bytes past the end
    /// are 0, and of a two-byte pixel the low byte comes first (OpenGL ES 1.1, "Unpacking"). Want of
    /// memory leaves the image as it was, and it comes only where the bytes aren't the image's own.
    pub fn load_rows(
        &mut self,
        rect: Rect,
        bytes: &Bytes,
        from: Format,
        align: u32,
    ) -> Result<(), NoMemory>
        requires rect { IsInside rect self.old.width self.old.height }
        requires alignment { IsAlignment align }
        ensures ok { OnOk result (self.new ≡ loaded self.old rect bytes.now from align) }
        ensures shape { IsSameShape self.old self.new }
        ensures whole { IsImage self.new }
        ensures err { OnErr result (self.new ≡ self.old) }
        ensures room { self.old.owned ≡ true → IsOk result }
    {
        let target = block_of(rect, self.width, self.height);
        own(&mut self.rows)?;
        load_rows(
            &mut self.rows,
            self.width as usize,
            target,
            bytes.as_slice(),
            align,
            self.format,
            from,
        );
        Ok(())
    }

    /// Writes each pixel of an image of the same sides, at 8 bits a component in `Rgba8888`. Want of memory leaves the image as it was, and it
    /// comes only where the bytes aren't the image's own.
    pub fn copy_pixels(&mut self, from: &Image) -> Result<(), NoMemory>
        requires { (from.now.width ≡ self.old.width) × (from.now.height ≡ self.old.height) }
        ensures ok { OnOk result (self.new ≡ values.copied self.old from.now) }
        ensures eight_bits { OnOk result (self.old.format ≡ Rgba8888 → self.new.pixels ≡ from.now.pixels) }
        ensures shape { IsSameShape self.old self.new }
        ensures whole { IsImage self.new }
        ensures err { OnErr result (self.new ≡ self.old) }
        ensures room { self.old.owned ≡ true → IsOk result }
    {
        own(&mut self.rows)?;
        copy_rows(&mut self.rows, &from.rows, self.format, from.format);
        Ok(())
    }

    /// The rows of a rectangle from the lowest upward, in the format `to`. Each row takes the
    /// smallest multiple of `align` bytes that holds its pixels, the last one too, and what it has
    /// over is 0. A pixel outside the image gives zeros.
    pub fn row_bytes(
        &self,
        alloc: Global,
        rect: Rect,
        to: Format,
        align: u32,
    ) -> Result<Bytes, NoMemory>
        requires sides { HasReadSides rect }
        requires alignment { IsAlignment align }
        ensures { IfOk result (λ b. b ≡ transfers.row_bytes self.now rect to align) }
    {
        transfers::row_bytes(alloc, self, rect, to, align)
    }
}
