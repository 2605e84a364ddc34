//! The pixels that calls give a texture.
ghost use Rattle.std.specs.Prelude.{◌≡◌, true, IfOk, IsOk, IsSome, OnErr, OnOk};
ghost use Rattle.std.specs.Option.{option_copied};
ghost use Rattle.egl_calls.specs.Ranges.{unsigned};
ghost use Rattle.pixel_rows.specs.Images.{IsImage, IsSameShape};
ghost use Rattle.pixel_rows.specs.Payloads.{loaded};
ghost use Rattle.pixel_rows.specs.Rects.{IsInside};
ghost use Rattle.pixel_rows.specs.Transfers.{IsAlignment};
ghost use Rattle.texture_objects.specs.Uploads.{IsImageCall, IsPartCall, data_form, given, given_form, rewritten, uploaded};

use crate::forms::form_of;
use egl_calls::{Bytes, Call, NoMemory, Payload, unsigned};
use pixel_formats::Format;
use pixel_rows::{Image, Rect};
use std::alloc::Global;

/// The form of a call's data, whose format and type go together.
fn data_form(call: &Call) -> Format
    requires { IsSome (given_form call.now) }
    ensures { result ≡ data_form call.now }
{
    let [_, _, _, _, _, _, format, kind] = call.args;
    let Some(form) = form_of(format, kind) else {
        unreachable!()
    };
    form
}

/// Writes a part of an image from the bytes of a call, which are 0 past their end; the null pointer gives none.
fn load(
    alloc: Global,
    image: &mut Image,
    rect: Rect,
    bytes: Option<&Payload>,
    form: Format,
    align: u32,
) -> Result<(), NoMemory>
    requires rect { IsInside rect image.old.width image.old.height }
    requires alignment { IsAlignment align }
    ensures ok { OnOk result (image.new ≡ loaded image.old rect (given (option_copied bytes.entry)) form align) }
    ensures shape { IsSameShape image.old image.new }
    ensures whole { IsImage image.new }
    ensures err { OnErr result (image.new ≡ image.old) }
    ensures room { image.old.owned ≡ true → IsOk result }
{
    match bytes {
        Some(payload) => image.load_rows(rect, payload.bytes(), form, align),
        None => image.load_rows(rect, &Bytes::new(alloc), form, align),
    }
}

/// The image that a glTexImage2D gives a level, of the form of its data. The first row of the data is the lowest. Each row takes the smallest multiple of `align` bytes that holds its pixels, the bytes past the end are 0, and the null pointer gives zeros (OpenGL ES 1.1, "Texture Image Specification"). A side may be 0.
pub fn tex_image(alloc: Global, call: &Call, align: u32) -> Result<Image, NoMemory>
    requires call { IsImageCall call.now }
    requires alignment { IsAlignment align }
    ensures { IfOk result (λ i. i ≡ uploaded call.now align) }
{
    let [_, _, _, w, h, ..] = call.args;
    let form = data_form(call);
    let mut image = Image::new(alloc, form, unsigned(w) as u32, unsigned(h) as u32)?;
    let whole = Rect { x: 0, y: 0, w, h };
    load(alloc, &mut image, whole, call.bytes.as_ref(), form, align)?;
    Ok(image)
}

/// Writes the part of an image that a glTexSubImage2D names, and converts the data to the image's format. Its rows are as in `tex_image` (OpenGL ES 1.1, "Alternate Texture Image Specification Commands"). Want of memory leaves the image as it was, and it comes only where the bytes aren't the image's own.
pub fn tex_sub_image(
    alloc: Global,
    into: &mut Image,
    call: &Call,
    align: u32,
) -> Result<(), NoMemory>
    requires call { IsPartCall call.now into.old }
    requires alignment { IsAlignment align }
    ensures ok { OnOk result (into.new ≡ rewritten call.now align into.old) }
    ensures shape { IsSameShape into.old into.new }
    ensures whole { IsImage into.new }
    ensures err { OnErr result (into.new ≡ into.old) }
    ensures room { into.old.owned ≡ true → IsOk result }
{
    let [_, _, x, y, w, h, ..] = call.args;
    let form = data_form(call);
    let part = Rect { x, y, w, h };
    load(alloc, into, part, call.bytes.as_ref(), form, align)
}
