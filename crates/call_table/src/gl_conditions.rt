//! What refuses calls of OpenGL ES.
/// A condition that refuses a call of OpenGL ES, or a `readBuffer`. What it is of the state and of the call stands in `call_rules`.
#[derive(Clone, Copy, Debug, PartialEq, Eq, Drop)]
pub enum GlCondition {
    NoEnabledCapability,
    NoCapability,
    NegativeBox,
    NoEnvironment,
    NoStore,
    NoAlignment,
    NoContextParameter,
    NoIndex,
    NoBufferBit,
    NotComplete,
    WrongReadSides,
    NoReadKind,
    NoReadPair,
    DrawsNothing,
    WrongCount,
    NoTextureTarget,
    NegativeName,
    NoBufferTarget,
    NoRenderbufferTarget,
    NoFramebufferTarget,
    NoTextureParameter,
    NoCropParameter,
    WrongCropLength,
    NoImageKind,
    NoInternalFormat,
    NoLevel,
    WrongLevelSides,
    SomeBorder,
    OtherFormat,
    NoImagePair,
    NoImageVideo,
    NoCopiedVideo,
    NoDataVideo,
    NoStorageVideo,
    NoStorage,
    OutsideLevel,
    OtherLevelFormat,
    WrongCopiedSides,
    SomeCopiedBorder,
    NoInternalAlpha,
    CopiedOutsideLevel,
    NoLevelAlpha,
    NoUsage,
    NegativeSize,
    NoBufferBound,
    NoRenderbufferBound,
    NoFramebufferBound,
    NegativePart,
    PartBehindEnd,
    NoBufferParameter,
    NoRenderbufferFormat,
    WrongStorageSides,
    NoRenderbufferParameter,
    NoAttachment,
    NoAttachedTarget,
    NoTextureNamed,
    NoRenderbufferNamed,
    SomeAttachedLevel,
    NoAttachedRenderbufferTarget,
    NoAttachmentParameter,
    NothingAttached,
    NoImage,
    NotRenderable,
}

/// The error of a condition: each has one, whichever call it refuses.
macro_rules! gl_error {
    (NoEnabledCapability) => { GlError::InvalidEnum };
    (NoCapability) => { GlError::InvalidEnum };
    (NegativeBox) => { GlError::InvalidValue };
    (NoEnvironment) => { GlError::InvalidEnum };
    (NoStore) => { GlError::InvalidEnum };
    (NoAlignment) => { GlError::InvalidValue };
    (NoContextParameter) => { GlError::InvalidEnum };
    (NoIndex) => { GlError::InvalidValue };
    (NoBufferBit) => { GlError::InvalidValue };
    (NotComplete) => { GlError::InvalidFramebufferOperation };
    (WrongReadSides) => { GlError::InvalidValue };
    (NoReadKind) => { GlError::InvalidEnum };
    (NoReadPair) => { GlError::InvalidOperation };
    (DrawsNothing) => { GlError::InvalidValue };
    (WrongCount) => { GlError::InvalidValue };
    (NoTextureTarget) => { GlError::InvalidEnum };
    (NegativeName) => { GlError::InvalidValue };
    (NoBufferTarget) => { GlError::InvalidEnum };
    (NoRenderbufferTarget) => { GlError::InvalidEnum };
    (NoFramebufferTarget) => { GlError::InvalidEnum };
    (NoTextureParameter) => { GlError::InvalidEnum };
    (NoCropParameter) => { GlError::InvalidEnum };
    (WrongCropLength) => { GlError::InvalidValue };
    (NoImageKind) => { GlError::InvalidEnum };
    (NoInternalFormat) => { GlError::InvalidValue };
    (NoLevel) => { GlError::InvalidValue };
    (WrongLevelSides) => { GlError::InvalidValue };
    (SomeBorder) => { GlError::InvalidValue };
    (OtherFormat) => { GlError::InvalidOperation };
    (NoImagePair) => { GlError::InvalidOperation };
    (NoImageVideo) => { GlError::OutOfMemory };
    (NoCopiedVideo) => { GlError::OutOfMemory };
    (NoDataVideo) => { GlError::OutOfMemory };
    (NoStorageVideo) => { GlError::OutOfMemory };
    (NoStorage) => { GlError::InvalidOperation };
    (OutsideLevel) => { GlError::InvalidValue };
    (OtherLevelFormat) => { GlError::InvalidOperation };
    (WrongCopiedSides) => { GlError::InvalidValue };
    (SomeCopiedBorder) => { GlError::InvalidValue };
    (NoInternalAlpha) => { GlError::InvalidOperation };
    (CopiedOutsideLevel) => { GlError::InvalidValue };
    (NoLevelAlpha) => { GlError::InvalidOperation };
    (NoUsage) => { GlError::InvalidEnum };
    (NegativeSize) => { GlError::InvalidValue };
    (NoBufferBound) => { GlError::InvalidOperation };
    (NoRenderbufferBound) => { GlError::InvalidOperation };
    (NoFramebufferBound) => { GlError::InvalidOperation };
    (NegativePart) => { GlError::InvalidValue };
    (PartBehindEnd) => { GlError::InvalidValue };
    (NoBufferParameter) => { GlError::InvalidEnum };
    (NoRenderbufferFormat) => { GlError::InvalidEnum };
    (WrongStorageSides) => { GlError::InvalidValue };
    (NoRenderbufferParameter) => { GlError::InvalidEnum };
    (NoAttachment) => { GlError::InvalidEnum };
    (NoAttachedTarget) => { GlError::InvalidEnum };
    (NoTextureNamed) => { GlError::InvalidOperation };
    (NoRenderbufferNamed) => { GlError::InvalidOperation };
    (SomeAttachedLevel) => { GlError::InvalidValue };
    (NoAttachedRenderbufferTarget) => { GlError::InvalidEnum };
    (NoAttachmentParameter) => { GlError::InvalidEnum };
    (NothingAttached) => { GlError::InvalidEnum };
    (NoImage) => { GlError::InvalidValue };
    (NotRenderable) => { GlError::InvalidOperation };
}

pub(crate) use gl_error;

impl GlCondition {
    /// What holds, in words.
    pub fn words(self) -> &'static str {
        match self {
            GlCondition::NoEnabledCapability => {
                "the capability is none of GL_TEXTURE_2D, GL_SCISSOR_TEST and GL_DITHER"
            }
            GlCondition::NoCapability => "there is no such capability",
            GlCondition::NegativeBox => "the width or the height is negative",
            GlCondition::NoEnvironment => "there is no such target, parameter or value",
            GlCondition::NoStore | GlCondition::NoContextParameter => "there is no such parameter",
            GlCondition::NoAlignment => "the alignment is none of 1, 2, 4 and 8",
            GlCondition::NoIndex => "the parameter has no value at the index",
            GlCondition::NoBufferBit => "the mask has a bit that is no buffer's",
            GlCondition::NotComplete => "the framebuffer isn't complete",
            GlCondition::WrongReadSides => "a side is negative or above 2,048",
            GlCondition::NoReadKind => "there is no such format, or no such type of its components",
            GlCondition::NoReadPair => "the format doesn't go with the type of its components",
            GlCondition::DrawsNothing => "the width or the height is below 1",
            GlCondition::WrongCount => "the number of names is negative or above 256",
            GlCondition::NoTextureTarget => "the target isn't GL_TEXTURE_2D",
            GlCondition::NegativeName => "the name is negative",
            GlCondition::NoBufferTarget => {
                "the target is neither GL_ARRAY_BUFFER nor GL_ELEMENT_ARRAY_BUFFER"
            }
            GlCondition::NoRenderbufferTarget => "the target isn't GL_RENDERBUFFER_OES",
            GlCondition::NoFramebufferTarget => "the target isn't GL_FRAMEBUFFER_OES",
            GlCondition::NoTextureParameter => "there is no such parameter or value",
            GlCondition::NoCropParameter => "the parameter isn't GL_TEXTURE_CROP_RECT_OES",
            GlCondition::WrongCropLength => "a crop rectangle has four numbers",
            GlCondition::NoImageKind => {
                "there is no such format, or no such type of its components"
            }
            GlCondition::NoInternalFormat => "there is no such internal format",
            GlCondition::NoLevel => "the level isn't from 0 to 10",
            GlCondition::WrongLevelSides => {
                "a side is no power of two and not 0, or too long for the level"
            }
            GlCondition::SomeBorder => "the border isn't 0",
            GlCondition::OtherFormat => "the internal format isn't that of the data",
            GlCondition::NoImagePair => "the format doesn't go with the type of its components",
            GlCondition::NoImageVideo
            | GlCondition::NoCopiedVideo
            | GlCondition::NoDataVideo
            | GlCondition::NoStorageVideo => "too few bytes are left",
            GlCondition::NoStorage => "the level has no pixels",
            GlCondition::OutsideLevel => "the part doesn't lie within the level",
            GlCondition::OtherLevelFormat => "the format isn't that of the level",
            GlCondition::WrongCopiedSides => {
                "a side is no power of two and not 0, or too long for the level"
            }
            GlCondition::SomeCopiedBorder => "the border isn't 0",
            GlCondition::NoInternalAlpha => {
                "the format has alpha, and the pixels that are read have none"
            }
            GlCondition::CopiedOutsideLevel => "the part doesn't lie within the level",
            GlCondition::NoLevelAlpha => {
                "the format has alpha, and the pixels that are read have none"
            }
            GlCondition::NoUsage => "the usage is neither GL_STATIC_DRAW nor GL_DYNAMIC_DRAW",
            GlCondition::NegativeSize => "the size is negative",
            GlCondition::NoBufferBound
            | GlCondition::NoRenderbufferBound
            | GlCondition::NoFramebufferBound => "nothing is bound to the target",
            GlCondition::NegativePart => "the offset or the size is negative",
            GlCondition::PartBehindEnd => "the part ends behind the buffer's end",
            GlCondition::NoBufferParameter => "there is no such parameter",
            GlCondition::NoRenderbufferFormat => "there is no such internal format",
            GlCondition::WrongStorageSides => "a side is negative or above 2,048",
            GlCondition::NoRenderbufferParameter => "there is no such parameter",
            GlCondition::NoAttachment => "there is no such attachment point",
            GlCondition::NoAttachedTarget => "the target of the texture isn't GL_TEXTURE_2D",
            GlCondition::NoTextureNamed | GlCondition::NoRenderbufferNamed => {
                "the name has no object of the kind"
            }
            GlCondition::SomeAttachedLevel => "the level isn't 0",
            GlCondition::NoAttachedRenderbufferTarget => {
                "the target of the renderbuffer isn't GL_RENDERBUFFER_OES"
            }
            GlCondition::NoAttachmentParameter => "there is no such parameter",
            GlCondition::NothingAttached => "nothing is attached there, so it has no name",
            GlCondition::NoImage => {
                "the image is none of the display of the context, or was destroyed"
            }
            GlCondition::NotRenderable => "the image's format is none that a renderbuffer may have",
        }
    }
}
