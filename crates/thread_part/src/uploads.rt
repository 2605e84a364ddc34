//! What calls give textures and buffers (OpenGL ES 1.1, sections 2.9, 3.7.1 and 3.7.2). It may be made before the turn in which it is attached.
ghost use Rattle.std.specs.Prelude.{◌≡◌, length, None, IfOk};
ghost use Rattle.std.specs.Option.{option_copied, option_map};
ghost use Rattle.egl_calls.specs.declared.kinds.Kind.TheVariants.{Gl as GlCall};
ghost use Rattle.egl_calls.specs.declared.kinds.GlKind.TheVariants.{CopyTexImage2d, TexImage2d};
ghost use Rattle.buffer_objects.specs.Contents.{given};
ghost use Rattle.call_rules.specs.GlRules as gl_rules;
ghost use Rattle.driver_objects.specs.Storages.{IsCopiedSide, copied_image, stored};
ghost use Rattle.egl_model.specs.Copies.{copied_format, copied_rect, copies_nothing};
ghost use Rattle.egl_model.specs.Textures.{has_no_side, new_level};
ghost use Rattle.model_laws.specs.Local.{read_image};
ghost use Rattle.pixel_rows.specs.Images.{frozen};
ghost use Rattle.pixel_rows.specs.Transfers.{IsAlignment};
ghost use Rattle.texture_objects.specs.Uploads.{IsImageCall};
ghost use Rattle.thread_part.specs.Uploads.{are_few, contents_early, copied_locally, early_facts, given_by, is_upload, new_contents, upload_of, upload_with};
ghost use Rattle.thread_part.specs.declared.uploads.Upload.TheVariants.{Pixels};

use crate::parts::Parts;
use buffer_objects::Buffer;
use context_state::ContextPart;
use driver_objects::Storage;
use egl_calls::arguments::{number, signed};
use egl_calls::places::{
    BUFFER_SIZE, BUFFER_USAGE, COPIED_HEIGHT, COPIED_WIDTH, COPIED_X, COPIED_Y, IMAGE_HEIGHT,
    IMAGE_WIDTH, INTERNAL_FORMAT,
};
use egl_calls::{Bytes, Call, GlKind, Kind, NoMemory, unsigned};
use egl_names::codes::GL_UNSIGNED_BYTE;
use pixel_formats::Format;
use pixel_rows::{Image, Rect};
use rect_pipeline::copy_tex;
use std::alloc::Global;
use texture_objects::{form_of, tex_image};

/// How many bytes the contents of a buffer may have that are made early, where the call itself doesn't hold as many: as many as the largest level of a texture. The driver may have no room for them, and refuse the call.
pub const SMALL_BYTES: u64 = 4_194_304;

/// What a call gives, made before the call's turn.
#[derive(Drop)]
pub enum Upload {
    /// The storage of a level of a texture.
    Pixels(Storage),
    /// What a buffer is then.
    Contents(Buffer),
}

fn has_no_side(call: &Call) -> bool
    ensures { result ≡ has_no_side call.now }
{
    number(call, IMAGE_WIDTH) == 0 || number(call, IMAGE_HEIGHT) == 0
}

fn frozen(image: Image) -> Result<Storage, NoMemory>
    ensures { IfOk result (λ v. v ≡ stored (frozen image)) }
{
    match image.freeze() {
        Ok(image) => Ok(Storage::new(image)),
        Err(_) => Err(NoMemory),
    }
}

/// The storage that a glTexImage2D gives a level: its pixels, frozen, and none where a side is 0.
pub fn new_level(alloc: Global, call: &Call, align: u32) -> Result<Option<Storage>, NoMemory>
    requires call { IsImageCall call.now }
    requires alignment { IsAlignment align }
    ensures { IfOk result (λ o. o ≡ new_level call.now align) }
{
    if has_no_side(call) {
        return Ok(None);
    }
    Ok(Some(frozen(tex_image(alloc, call, align)?)?))
}

/// The format of the level that a glCopyTexImage2D gives: a byte for each component.
pub fn copied_format(call: &Call) -> Format
    ensures { result ≡ copied_format call.now }
{
    form_of(signed(call, INTERNAL_FORMAT), GL_UNSIGNED_BYTE as i64).unwrap_or(Format::Rgba8888)
}

/// Whether a glCopyTexImage2D gives a level no pixel.
pub fn copies_nothing(call: &Call) -> bool
    ensures { result ≡ copies_nothing call.now }
{
    number(call, COPIED_WIDTH) == 0 || number(call, COPIED_HEIGHT) == 0
}

/// The rectangle that a glCopyTexImage2D reads.
pub fn copied_rect(call: &Call) -> Rect
    ensures { result ≡ copied_rect call.now }
{
    Rect {
        x: signed(call, COPIED_X),
        y: signed(call, COPIED_Y),
        w: signed(call, COPIED_WIDTH),
        h: signed(call, COPIED_HEIGHT),
    }
}

fn copied_pixels(
    alloc: Global,
    format: Format,
    from: &Image,
    rect: Rect,
) -> Result<Storage, NoMemory>
    requires wide { IsCopiedSide rect.w }
    requires high { IsCopiedSide rect.h }
    ensures { IfOk result (λ v. v ≡ stored (copied_image format from.now rect)) }
{
    let mut image = Image::new(
        alloc,
        format,
        unsigned(rect.w) as u32,
        unsigned(rect.h) as u32,
    )?;
    copy_tex(&mut image, 0, 0, from, rect)?;
    frozen(image)
}

/// The bytes that a call gives; none for the null pointer.
fn given(call: &Call) -> Option<&Bytes>
    ensures { option_copied result ≡ call.now.bytes }
{
    match &call.bytes {
        Some(payload) => Some(payload.bytes()),
        None => None,
    }
}

/// The buffer that a glBufferData leaves: its contents and its usage.
pub fn new_contents(alloc: Global, call: &Call) -> Result<Buffer, NoMemory>
    ensures { IfOk result (λ b. b ≡ new_contents call.now) }
{
    let mut buffer = Buffer::new(alloc);
    buffer.data(
        number(call, BUFFER_SIZE),
        signed(call, BUFFER_USAGE),
        given(call),
    )?;
    Ok(buffer)
}

/// How many bytes a call gives.
fn given_bytes(call: &Call) -> u64
    ensures { result ≡ length (given call.now.bytes) }
{
    match given(call) {
        Some(bytes) => bytes.len(),
        None => 0,
    }
}

/// Whether the driver's room for the contents of a buffer need not be asked for first.
fn are_few(call: &Call) -> bool
    ensures { result ≡ are_few call.now }
{
    number(call, BUFFER_SIZE) <= given_bytes(call).max(SMALL_BYTES)
}

fn is_upload(kind: Kind) -> bool
    ensures { result ≡ is_upload kind }
{
    matches!(
        kind,
        Kind::Gl(GlKind::TexImage2d | GlKind::CopyTexImage2d | GlKind::BufferData)
    )
}

/// What a glBufferData gives.
fn contents_early(alloc: Global, call: &Call) -> Result<Option<Upload>, NoMemory>
    ensures { IfOk result (λ o. o ≡ contents_early call.now) }
{
    if are_few(call) {
        Ok(Some(Upload::Contents(new_contents(alloc, call)?)))
    } else {
        Ok(None)
    }
}

impl Parts {
    /// The pixels of the surface that is read from.
    fn read_image(&self) -> Option<&Image>
        ensures { option_copied result ≡ read_image self.now }
    {
        if self.same {
            self.draw.as_ref()
        } else {
            self.read.as_ref()
        }
    }

    /// What a glTexImage2D gives.
    fn image_early(
        &self,
        alloc: Global,
        part: &ContextPart,
        call: &Call,
    ) -> Result<Option<Upload>, NoMemory>
        requires kind { call.now.kind ≡ GlCall TexImage2d }
        requires allowed { gl_rules.gl_refusal call.now (early_facts self.now) ≡ None }
        ensures { IfOk result (λ o. o ≡ option_map (λ v. Pixels v) (new_level call.now part.now.unpack_alignment)) }
    {
        match new_level(alloc, call, part.unpack_align())? {
            Some(storage) => Ok(Some(Upload::Pixels(storage))),
            None => Ok(None),
        }
    }

    /// What a glCopyTexImage2D gives, where it reads from the thread's own surface.
    fn copy_early(
        &self,
        alloc: Global,
        part: &ContextPart,
        call: &Call,
    ) -> Result<Option<Upload>, NoMemory>
        requires kind { call.now.kind ≡ GlCall CopyTexImage2d }
        requires allowed { gl_rules.gl_refusal call.now (early_facts self.now) ≡ None }
        ensures { IfOk result (λ o. o ≡ option_map (λ v. Pixels v) (copied_locally self.now part.now call.now)) }
    {
        if part.framebuffer() != 0 || copies_nothing(call) {
            return Ok(None);
        }
        let Some(image) = self.read_image() else {
            return Ok(None);
        };
        let storage = copied_pixels(alloc, copied_format(call), image, copied_rect(call))?;
        Ok(Some(Upload::Pixels(storage)))
    }

    fn given_by(
        &self,
        alloc: Global,
        part: &ContextPart,
        call: &Call,
    ) -> Result<Option<Upload>, NoMemory>
        requires allowed { gl_rules.gl_refusal call.now (early_facts self.now) ≡ None }
        ensures { IfOk result (λ o. o ≡ given_by self.now part.now call.now.kind call.now) }
    {
        match call.kind {
            Kind::Gl(GlKind::TexImage2d) => self.image_early(alloc, part, call),
            Kind::Gl(GlKind::CopyTexImage2d) => self.copy_early(alloc, part, call),
            Kind::Gl(GlKind::BufferData) => contents_early(alloc, call),
            _ => Ok(None),
        }
    }

    fn upload_with(
        &self,
        alloc: Global,
        part: &Option<ContextPart>,
        call: &Call,
    ) -> Result<Option<Upload>, NoMemory>
        ensures { IfOk result (λ o. o ≡ upload_with self.now part.now call.now) }
    {
        let Some(part) = part else {
            return Ok(None);
        };
        match self.early_refusal(call) {
            Some(_) => Ok(None),
            None => self.given_by(alloc, part, call),
        }
    }

    pub(crate) fn upload_of(&self, alloc: Global, call: &Call) -> Result<Option<Upload>, NoMemory>
        ensures { IfOk result (λ o. o ≡ upload_of self.now call.now) }
    {
        if is_upload(call.kind) && !self.waiting {
            self.upload_with(alloc, &self.context, call)
        } else {
            Ok(None)
        }
    }
}
