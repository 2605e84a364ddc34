//! The calls of a scene.
ghost use Rattle.std.specs.Prelude.{◌≡◌, ◌∷◌, ◌++◌, ◌≤◌, ◌<◌, [], OnOk};
ghost use Rattle.egl_calls.specs.Ranges.{AreArguments, IsNumber};
ghost use Rattle.egl_calls.specs.declared.kinds.Kind.TheVariants.{Gl};
ghost use Rattle.sprite_scene.specs.Calls as values;

use crate::call_lists::{Calls, listed, plain};
use egl_calls::{Call, EglKind, GlKind, Kind, NoMemory, Numbers, Payload};
use egl_names::codes::{
    EGL_HEIGHT, EGL_WIDTH, GL_NEAREST, GL_REPLACE, GL_RGBA, GL_SCISSOR_TEST, GL_TEXTURE_2D,
    GL_TEXTURE_CROP_RECT_OES, GL_TEXTURE_ENV, GL_TEXTURE_ENV_MODE, GL_TEXTURE_MAG_FILTER,
    GL_TEXTURE_MIN_FILTER, GL_UNSIGNED_BYTE,
};
use scene_reader::{Part, ScaledPart};
use std::alloc::Global;

/// The display, and the handles of its surface and its context.
const DISPLAY: i64 = 1;

const SURFACE: i64 = 3;

const CONTEXT: i64 = 4;

/// The config whose components have 8 bits, alpha too.
const CONFIG: i64 = 4;

const TEXTURE_2D: i64 = GL_TEXTURE_2D as i64;

/// A call without a list and bytes that is the same in each scene: its kind and its numbers. The definition of a scene's calls reads them here.
type FixedCall = (Kind, [i64; 8]);

const GET_DISPLAY: FixedCall = (Kind::Egl(EglKind::GetDisplay), [0; 8]);

const INITIALIZE: FixedCall = (
    Kind::Egl(EglKind::Initialize),
    [DISPLAY, 0, 0, 0, 0, 0, 0, 0],
);

const CREATE_CONTEXT: FixedCall = (
    Kind::Egl(EglKind::CreateContext),
    [DISPLAY, CONFIG, 0, 0, 0, 0, 0, 0],
);

const MAKE_CURRENT: FixedCall = (
    Kind::Egl(EglKind::MakeCurrent),
    [DISPLAY, SURFACE, SURFACE, CONTEXT, 0, 0, 0, 0],
);

/// Textures replace what is there.
const REPLACE: FixedCall = (
    Kind::Gl(GlKind::TexEnvx),
    [
        GL_TEXTURE_ENV as i64,
        GL_TEXTURE_ENV_MODE as i64,
        GL_REPLACE as i64,
        0,
        0,
        0,
        0,
        0,
    ],
);

/// The texels of the bound texture.
fn image(alloc: Global, w: u32, h: u32, texels: Payload) -> Call
    ensures { result ≡ values.tex_image w h texels }
{
    Call {
        kind: Kind::Gl(GlKind::TexImage2d),
        args: [
            TEXTURE_2D,
            0,
            GL_RGBA as i64,
            i64::from(w),
            i64::from(h),
            0,
            GL_RGBA as i64,
            GL_UNSIGNED_BYTE as i64,
        ],
        list: Numbers::new(alloc),
        bytes: Some(texels),
    }
}

impl Calls {
    fn push_fixed(&mut self, alloc: Global, call: FixedCall) -> Result<(), NoMemory>
        requires { AreArguments call.0 0 call.1 }
        ensures { OnOk result (self.new ≡ self.old ++ values.fixed call ∷ []) }
    {
        self.push(plain(alloc, call.0, call.1))
    }

    fn push_gl(&mut self, alloc: Global, kind: GlKind, args: [i64; 8]) -> Result<(), NoMemory>
        requires { AreArguments (Gl kind) 0 args }
        ensures { OnOk result (self.new ≡ self.old ++ values.plain (Gl kind) args ∷ []) }
    {
        self.push(plain(alloc, Kind::Gl(kind), args))
    }

    /// A display with a pbuffer of these sides and a context, which are current then.
    fn push_context(&mut self, alloc: Global, w: u32, h: u32) -> Result<(), NoMemory>
        ensures { OnOk result (self.new ≡ self.old ++ values.context_calls w h) }
    {
        self.push_fixed(alloc, GET_DISPLAY)?;
        self.push_fixed(alloc, INITIALIZE)?;
        let sides = [
            EGL_WIDTH as i64,
            i64::from(w),
            EGL_HEIGHT as i64,
            i64::from(h),
        ];
        let args = [DISPLAY, CONFIG, 0, 0, 0, 0, 0, 0];
        self.push(listed(alloc, Kind::Egl(EglKind::CreatePbufferSurface), args, sides)?)?;
        self.push_fixed(alloc, CREATE_CONTEXT)?;
        self.push_fixed(alloc, MAKE_CURRENT)
    }

    /// The calls before all items: textures replace what is there, inside the scissor box.
    pub(crate) fn push_opening(&mut self, alloc: Global, w: u32, h: u32) -> Result<(), NoMemory>
        ensures { OnOk result (self.new ≡ self.old ++ values.opening_calls w h) }
    {
        self.push_context(alloc, w, h)?;
        self.push_fixed(alloc, REPLACE)?;
        self.push_gl(alloc, GlKind::Enable, [TEXTURE_2D, 0, 0, 0, 0, 0, 0, 0])?;
        self.push_gl(
            alloc,
            GlKind::Enable,
            [GL_SCISSOR_TEST as i64, 0, 0, 0, 0, 0, 0, 0],
        )
    }

    pub(crate) fn push_scissor(
        &mut self,
        alloc: Global,
        x: i64,
        y: i64,
        w: u32,
        h: u32,
    ) -> Result<(), NoMemory>
        requires x { IsNumber x }
        requires y { IsNumber y }
        ensures { OnOk result (self.new ≡ self.old ++ values.scissor x y w h ∷ []) }
    {
        self.push_gl(
            alloc,
            GlKind::Scissor,
            [x, y, i64::from(w), i64::from(h), 0, 0, 0, 0],
        )
    }

    pub(crate) fn push_bind(&mut self, alloc: Global, name: u32) -> Result<(), NoMemory>
        ensures { OnOk result (self.new ≡ self.old ++ values.bind_texture name ∷ []) }
    {
        self.push_gl(
            alloc,
            GlKind::BindTexture,
            [TEXTURE_2D, i64::from(name), 0, 0, 0, 0, 0, 0],
        )
    }

    fn push_nearest(&mut self, alloc: Global, pname: u64) -> Result<(), NoMemory>
        requires { pname ≤ 4294967295 }
        ensures { OnOk result (self.new ≡ self.old ++ values.set_nearest pname ∷ []) }
    {
        let args = [TEXTURE_2D, pname as i64, GL_NEAREST as i64, 0, 0, 0, 0, 0];
        self.push_gl(alloc, GlKind::TexParameterx, args)
    }

    /// A new texture is bound, with these texels.
    pub(crate) fn push_texture(
        &mut self,
        alloc: Global,
        name: u32,
        w: u32,
        h: u32,
        texels: Payload,
    ) -> Result<(), NoMemory>
        ensures { OnOk result (self.new ≡ self.old ++ values.new_texture name w h texels) }
    {
        self.push_bind(alloc, name)?;
        self.push_nearest(alloc, GL_TEXTURE_MIN_FILTER)?;
        self.push_nearest(alloc, GL_TEXTURE_MAG_FILTER)?;
        self.push(image(alloc, w, h, texels))
    }

    pub(crate) fn push_crop(
        &mut self,
        alloc: Global,
        u: u32,
        v: u32,
        w: u32,
        h: u32,
    ) -> Result<(), NoMemory>
        ensures { OnOk result (self.new ≡ self.old ++ values.crop u v w h ∷ []) }
    {
        let args = [
            TEXTURE_2D,
            GL_TEXTURE_CROP_RECT_OES as i64,
            0,
            0,
            0,
            0,
            0,
            0,
        ];
        let rect = [i64::from(u), i64::from(v), i64::from(w), i64::from(h)];
        self.push(listed(alloc, Kind::Gl(GlKind::TexParameteriv), args, rect)?)
    }

    pub(crate) fn push_crop_part(&mut self, alloc: Global, part: &Part) -> Result<(), NoMemory>
        ensures { OnOk result (self.new ≡ self.old ++ values.crop_part part.now ∷ []) }
    {
        self.push_crop(alloc, part.u, part.v, part.width, part.height)
    }

    pub(crate) fn push_draw(&mut self, alloc: Global, drawn: &ScaledPart) -> Result<(), NoMemory>
        requires x { IsNumber drawn.now.x }
        requires y { IsNumber drawn.now.y }
        ensures { OnOk result (self.new ≡ self.old ++ values.draw_tex drawn.now ∷ []) }
    {
        let (w, h) = (i64::from(drawn.width), i64::from(drawn.height));
        self.push_gl(
            alloc,
            GlKind::DrawTexi,
            [drawn.x, drawn.y, 0, w, h, 0, 0, 0],
        )
    }

    /// The whole target is read.
    pub(crate) fn push_read(&mut self, alloc: Global, w: u32, h: u32) -> Result<(), NoMemory>
        ensures { OnOk result (self.new ≡ self.old ++ values.read_all w h ∷ []) }
    {
        let (w, h) = (i64::from(w), i64::from(h));
        let args = [0, 0, w, h, GL_RGBA as i64, GL_UNSIGNED_BYTE as i64, 0, 0];
        self.push_gl(alloc, GlKind::ReadPixels, args)
    }
}
