//! The calls of OpenGL ES 1.1 (chapters 2 to 6) and of its extensions OES_framebuffer_object, OES_EGL_image and OES_draw_texture.
ghost use Rattle.std.specs.Prelude.{◌≡◌};
ghost use Rattle.call_table.specs.Rows.{gl_answers, gl_role, gl_rules};

use crate::answers::AnswerSort;
use crate::forms::Form;
use crate::gl_conditions::{GlCondition, gl_error};
use crate::roles::Role;
use egl_calls::{GlError, GlKind};
use share_group::NameKind;

/// A call: the word that names it, its kind, the forms of its arguments in the order of the standards' parameters without those that are answered, a word for each, the conditions that refuse it with their errors in the order in which they are tried, its role, and what it answers.
pub type GlRow = (
    &'static str,
    GlKind,
    &'static [Form],
    &'static [&'static str],
    &'static [(GlCondition, GlError)],
    Role,
    AnswerSort,
);

/// A call: its kind and its name, its arguments, its role, what it answers, and what refuses it.
macro_rules! calls {
    ($($kind:ident $name:literal [$($word:literal: $form:ident),*] $role:ident $(($names:ident))? -> $answers:ident $(($named:ident))? => [$($condition:ident),* $(,)?];)*) => {
        [$((
            $name,
            GlKind::$kind,
            &[$(Form::$form),*],
            &[$($word),*],
            &[$((GlCondition::$condition, gl_error!($condition))),*],
            Role::$role $((NameKind::$names))?,
            AnswerSort::$answers $((NameKind::$named))?,
        )),*]
    };
}

/// The calls, in the order of their kinds.
pub static GL_CALLS: [GlRow; 52] = calls![
    // Section 2.5
    GetError "glGetError" [] OwnState -> Same => [];
    // Section 5
    Flush "glFlush" [] Flushes -> Same => [];
    Finish "glFinish" [] Flushes -> Same => [];
    // Section 6.2
    Enable "glEnable" ["cap": Number] OwnState -> Same => [NoEnabledCapability];
    Disable "glDisable" ["cap": Number] OwnState -> Same => [NoCapability];
    // Section 4.1.2
    Scissor "glScissor" ["x": Number, "y": Number, "width": Number, "height": Number] OwnState -> Same => [
        NegativeBox,
    ];
    // Section 2.10.1
    Viewport "glViewport" ["x": Number, "y": Number, "width": Number, "height": Number] OwnState -> Same => [
        NegativeBox,
    ];
    // Section 4.2.3
    ClearColorx "glClearColorx" ["red": Number, "green": Number, "blue": Number, "alpha": Number] OwnState -> Same => [];
    // Section 2.7
    Color4x "glColor4x" ["red": Number, "green": Number, "blue": Number, "alpha": Number] OwnState -> Same => [];
    // Section 4.2.3
    ClearDepthx "glClearDepthx" ["depth": Number] OwnState -> Same => [];
    ClearStencil "glClearStencil" ["s": Number] OwnState -> Same => [];
    // Section 4.2.2
    ColorMask "glColorMask" ["red": Number, "green": Number, "blue": Number, "alpha": Number] OwnState -> Same => [];
    // Section 3.7.12
    TexEnvx "glTexEnvx" ["target": Number, "pname": Number, "param": Number] OwnState -> Same => [
        NoEnvironment,
    ];
    // Sections 3.6.1 and 4.3.1
    PixelStorei "glPixelStorei" ["pname": Number, "param": Number] OwnState -> Same => [
        NoStore,
        NoAlignment,
    ];
    // Section 6.2
    GetIntegerv "glGetIntegerv" ["pname": Number, "index": Number] OwnState -> Bindings => [
        NoContextParameter,
        NoIndex,
    ];
    // Section 4.2.3
    Clear "glClear" ["mask": Number] Clears -> Same => [NoBufferBit, NotComplete];
    // Section 4.3.1
    ReadPixels "glReadPixels" ["x": Number, "y": Number, "width": Number, "height": Number, "format": Number, "type": Number] ReadsPixels -> Reads => [
        WrongReadSides,
        NoReadKind,
        NoReadPair,
        NotComplete,
    ];
    // OES_draw_texture
    DrawTexi "glDrawTexiOES" ["x": Number, "y": Number, "z": Number, "width": Number, "height": Number] Draws -> Same => [
        DrawsNothing,
        NotComplete,
    ];
    DrawTexx "glDrawTexxOES" ["x": Number, "y": Number, "z": Number, "width": Number, "height": Number] Draws -> Same => [
        DrawsNothing,
        NotComplete,
    ];
    // Section 3.7.11
    GenTextures "glGenTextures" ["n": Number] Generates(Texture) -> MakesNames(Texture) => [
        WrongCount,
    ];
    // Section 2.9
    GenBuffers "glGenBuffers" ["n": Number] Generates(Buffer) -> MakesNames(Buffer) => [
        WrongCount,
    ];
    // OES_framebuffer_object
    GenRenderbuffers "glGenRenderbuffersOES" ["n": Number] Generates(Renderbuffer) -> MakesNames(Renderbuffer) => [
        WrongCount,
    ];
    GenFramebuffers "glGenFramebuffersOES" ["n": Number] Generates(Framebuffer) -> MakesNames(Framebuffer) => [
        WrongCount,
    ];
    // Section 3.7.11
    DeleteTextures "glDeleteTextures" ["textures": NameList] Deletes(Texture) -> FreesNames(Texture) => [];
    // Section 2.9
    DeleteBuffers "glDeleteBuffers" ["buffers": NameList] Deletes(Buffer) -> FreesNames(Buffer) => [];
    // OES_framebuffer_object
    DeleteRenderbuffers "glDeleteRenderbuffersOES" ["renderbuffers": NameList] Deletes(Renderbuffer) -> FreesNames(Renderbuffer) => [];
    DeleteFramebuffers "glDeleteFramebuffersOES" ["framebuffers": NameList] Deletes(Framebuffer) -> FreesNames(Framebuffer) => [];
    // Section 3.7.11
    IsTexture "glIsTexture" ["texture": NumberOrVariable] Asks(Texture) -> Same => [];
    // Section 2.9
    IsBuffer "glIsBuffer" ["buffer": NumberOrVariable] Asks(Buffer) -> Same => [];
    // OES_framebuffer_object
    IsRenderbuffer "glIsRenderbufferOES" ["renderbuffer": NumberOrVariable] Asks(Renderbuffer) -> Same => [];
    IsFramebuffer "glIsFramebufferOES" ["framebuffer": NumberOrVariable] Asks(Framebuffer) -> Same => [];
    // Section 3.7.11
    BindTexture "glBindTexture" ["target": Number, "texture": NumberOrVariable] Binds(Texture) -> Same => [
        NoTextureTarget,
        NegativeName,
    ];
    // Section 2.9
    BindBuffer "glBindBuffer" ["target": Number, "buffer": NumberOrVariable] Binds(Buffer) -> Same => [
        NoBufferTarget,
        NegativeName,
    ];
    // OES_framebuffer_object
    BindRenderbuffer "glBindRenderbufferOES" ["target": Number, "renderbuffer": NumberOrVariable] Binds(Renderbuffer) -> Same => [
        NoRenderbufferTarget,
        NegativeName,
    ];
    BindFramebuffer "glBindFramebufferOES" ["target": Number, "framebuffer": NumberOrVariable] Binds(Framebuffer) -> Same => [
        NoFramebufferTarget,
        NegativeName,
    ];
    // Section 3.7.4
    TexParameterx "glTexParameterx" ["target": Number, "pname": Number, "param": Number] Sets(Texture) -> Same => [
        NoTextureTarget,
        NoTextureParameter,
    ];
    // OES_draw_texture
    TexParameteriv "glTexParameteriv" ["target": Number, "pname": Number, "params": NumberList] Sets(Texture) -> Same => [
        NoTextureTarget,
        NoCropParameter,
        WrongCropLength,
    ];
    // Section 3.7.1
    TexImage2d "glTexImage2D" ["target": Number, "level": Number, "internalformat": Number, "width": Number, "height": Number, "border": Number, "format": Number, "type": Number, "pixels": Payload] Specifies(Texture) -> Same => [
        NoTextureTarget,
        NoImageKind,
        NoInternalFormat,
        NoLevel,
        WrongLevelSides,
        SomeBorder,
        OtherFormat,
        NoImagePair,
        NoImageVideo,
    ];
    // Section 3.7.2
    TexSubImage2d "glTexSubImage2D" ["target": Number, "level": Number, "xoffset": Number, "yoffset": Number, "width": Number, "height": Number, "format": Number, "type": Number, "pixels": Payload] Rewrites -> Same => [
        NoTextureTarget,
        NoImageKind,
        NoLevel,
        NoStorage,
        OutsideLevel,
        OtherLevelFormat,
        NoImagePair,
    ];
    CopyTexImage2d "glCopyTexImage2D" ["target": Number, "level": Number, "internalformat": Number, "x": Number, "y": Number, "width": Number, "height": Number, "border": Number] Copies -> Same => [
        NoTextureTarget,
        NoInternalFormat,
        NoLevel,
        WrongCopiedSides,
        SomeCopiedBorder,
        NotComplete,
        NoInternalAlpha,
        NoCopiedVideo,
    ];
    CopyTexSubImage2d "glCopyTexSubImage2D" ["target": Number, "level": Number, "xoffset": Number, "yoffset": Number, "x": Number, "y": Number, "width": Number, "height": Number] CopiesPart -> Same => [
        NoTextureTarget,
        NoLevel,
        NoStorage,
        CopiedOutsideLevel,
        NotComplete,
        NoLevelAlpha,
    ];
    // Section 2.9
    BufferData "glBufferData" ["target": Number, "size": Number, "usage": Number, "data": Payload] Specifies(Buffer) -> Same => [
        NoBufferTarget,
        NoUsage,
        NegativeSize,
        NoBufferBound,
        NoDataVideo,
    ];
    BufferSubData "glBufferSubData" ["target": Number, "offset": Number, "size": Number, "data": Payload] Sets(Buffer) -> Same => [
        NoBufferTarget,
        NegativePart,
        NoBufferBound,
        PartBehindEnd,
    ];
    // Section 6.1.12
    GetBufferParameteriv "glGetBufferParameteriv" ["target": Number, "pname": Number] Gets(Buffer) -> Same => [
        NoBufferTarget,
        NoBufferParameter,
        NoBufferBound,
    ];
    // OES_framebuffer_object
    RenderbufferStorage "glRenderbufferStorageOES" ["target": Number, "internalformat": Number, "width": Number, "height": Number] Specifies(Renderbuffer) -> Same => [
        NoRenderbufferTarget,
        NoRenderbufferFormat,
        WrongStorageSides,
        NoRenderbufferBound,
        NoStorageVideo,
    ];
    GetRenderbufferParameteriv "glGetRenderbufferParameterivOES" ["target": Number, "pname": Number] Gets(Renderbuffer) -> Same => [
        NoRenderbufferTarget,
        NoRenderbufferParameter,
        NoRenderbufferBound,
    ];
    FramebufferTexture2d "glFramebufferTexture2DOES" ["target": Number, "attachment": Number, "textarget": Number, "texture": NumberOrVariable, "level": Number] Attaches(Texture) -> Same => [
        NoFramebufferTarget,
        NoAttachment,
        NoFramebufferBound,
        NoAttachedTarget,
        NoTextureNamed,
        SomeAttachedLevel,
    ];
    FramebufferRenderbuffer "glFramebufferRenderbufferOES" ["target": Number, "attachment": Number, "renderbuffertarget": Number, "renderbuffer": NumberOrVariable] Attaches(Renderbuffer) -> Same => [
        NoFramebufferTarget,
        NoAttachment,
        NoAttachedRenderbufferTarget,
        NoFramebufferBound,
        NoRenderbufferNamed,
    ];
    CheckFramebufferStatus "glCheckFramebufferStatusOES" ["target": Number] Gets(Framebuffer) -> Same => [
        NoFramebufferTarget,
    ];
    GetFramebufferAttachmentParameteriv "glGetFramebufferAttachmentParameterivOES" ["target": Number, "attachment": Number, "pname": Number] Gets(Framebuffer) -> Attachments => [
        NoFramebufferTarget,
        NoAttachment,
        NoFramebufferBound,
        NoAttachmentParameter,
        NothingAttached,
    ];
    // OES_EGL_image
    ImageTargetTexture2d "glEGLImageTargetTexture2DOES" ["target": Number, "image": NumberOrVariable] TakesImage(Texture) -> Same => [
        NoTextureTarget,
        NoImage,
    ];
    ImageTargetRenderbufferStorage "glEGLImageTargetRenderbufferStorageOES" ["target": Number, "image": NumberOrVariable] TakesImage(Renderbuffer) -> Same => [
        NoRenderbufferTarget,
        NoImage,
        NoRenderbufferBound,
        NotRenderable,
    ];
];

/// The conditions that refuse a call, with their errors, in the order in which they are tried.
pub fn gl_rules(kind: GlKind) -> &'static [(GlCondition, GlError)]
    ensures { result.now ≡ gl_rules kind }
{
    GL_CALLS[kind as usize].4
}

/// What a call is for.
pub fn gl_role(kind: GlKind) -> Role
    ensures { result ≡ gl_role kind }
{
    GL_CALLS[kind as usize].5
}

/// What a call answers, as its row says.
pub fn gl_answers(kind: GlKind) -> AnswerSort
    ensures { result ≡ gl_answers kind }
{
    GL_CALLS[kind as usize].6
}
