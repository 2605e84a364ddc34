//! What refuses calls of EGL.
/// A condition that refuses a call of EGL. What it is of the state and of the call stands in `call_rules`.
#[derive(Clone, Copy, Debug, PartialEq, Eq, Drop)]
pub enum EglCondition {
    NoDisplay,
    NotInitialized,
    WrongConfigList,
    WrongWindowList,
    WrongPbufferList,
    WrongContextList,
    WrongImageList,
    NoConfig,
    NoConfigAttribute,
    NoSurfaceAttribute,
    NoContextAttribute,
    NoSyncAttribute,
    NoWindowBit,
    NoWindow,
    WindowUsed,
    NoWindowVideo,
    NoPbufferVideo,
    NoHandle,
    NegativeSide,
    LongSide,
    NoSurface,
    NoSwapAttribute,
    NoSwapBehavior,
    NoApi,
    NoShare,
    ShareElsewhere,
    LaterVersion,
    NoVersion,
    NoContext,
    WrongSurface,
    WrongContext,
    WithoutContext,
    OneSurface,
    NotCompatible,
    ContextElsewhere,
    SurfaceElsewhere,
    NoReaddraw,
    NotDrawnTo,
    NoFence,
    SomeList,
    NoContextHere,
    NoSync,
    SomeFlags,
    NotCurrent,
    NoImageSource,
    NoPixels,
    NotComplete,
    NoLevel,
    Sibling,
    NoImage,
}

/// The error of a condition: each has one, whichever call it refuses.
macro_rules! egl_error {
    (NoDisplay) => { EglError::BadDisplay };
    (NotInitialized) => { EglError::NotInitialized };
    (WrongConfigList) => { EglError::BadAttribute };
    (WrongWindowList) => { EglError::BadAttribute };
    (WrongPbufferList) => { EglError::BadAttribute };
    (WrongContextList) => { EglError::BadAttribute };
    (WrongImageList) => { EglError::BadParameter };
    (NoConfig) => { EglError::BadConfig };
    (NoConfigAttribute) => { EglError::BadAttribute };
    (NoSurfaceAttribute) => { EglError::BadAttribute };
    (NoContextAttribute) => { EglError::BadAttribute };
    (NoSyncAttribute) => { EglError::BadAttribute };
    (NoWindowBit) => { EglError::BadMatch };
    (NoWindow) => { EglError::BadNativeWindow };
    (WindowUsed) => { EglError::BadAlloc };
    (NoWindowVideo) => { EglError::BadAlloc };
    (NoPbufferVideo) => { EglError::BadAlloc };
    (NoHandle) => { EglError::BadAlloc };
    (NegativeSide) => { EglError::BadParameter };
    (LongSide) => { EglError::BadAlloc };
    (NoSurface) => { EglError::BadSurface };
    (NoSwapAttribute) => { EglError::BadAttribute };
    (NoSwapBehavior) => { EglError::BadParameter };
    (NoApi) => { EglError::BadParameter };
    (NoShare) => { EglError::BadContext };
    (ShareElsewhere) => { EglError::BadMatch };
    (LaterVersion) => { EglError::BadConfig };
    (NoVersion) => { EglError::BadMatch };
    (NoContext) => { EglError::BadContext };
    (WrongSurface) => { EglError::BadSurface };
    (WrongContext) => { EglError::BadContext };
    (WithoutContext) => { EglError::BadMatch };
    (OneSurface) => { EglError::BadMatch };
    (NotCompatible) => { EglError::BadMatch };
    (ContextElsewhere) => { EglError::BadAccess };
    (SurfaceElsewhere) => { EglError::BadAccess };
    (NoReaddraw) => { EglError::BadParameter };
    (NotDrawnTo) => { EglError::BadSurface };
    (NoFence) => { EglError::BadAttribute };
    (SomeList) => { EglError::BadAttribute };
    (NoContextHere) => { EglError::BadMatch };
    (NoSync) => { EglError::BadParameter };
    (SomeFlags) => { EglError::BadParameter };
    (NotCurrent) => { EglError::BadMatch };
    (NoImageSource) => { EglError::BadParameter };
    (NoPixels) => { EglError::BadParameter };
    (NotComplete) => { EglError::BadParameter };
    (NoLevel) => { EglError::BadMatch };
    (Sibling) => { EglError::BadAccess };
    (NoImage) => { EglError::BadParameter };
}

pub(crate) use egl_error;

impl EglCondition {
    /// What holds, in words.
    pub fn words(self) -> &'static str {
        match self {
            EglCondition::NoDisplay => "the display is none that eglGetDisplay gives",
            EglCondition::NotInitialized => "the display isn't initialized",
            EglCondition::WrongConfigList
            | EglCondition::WrongWindowList
            | EglCondition::WrongPbufferList
            | EglCondition::WrongContextList
            | EglCondition::WrongImageList => {
                "the list has an attribute or a value that the call doesn't take"
            }
            EglCondition::NoConfig => "there is no such config",
            EglCondition::NoConfigAttribute => "there is no such attribute of a config",
            EglCondition::NoSurfaceAttribute => "there is no such attribute of a surface",
            EglCondition::NoContextAttribute => "there is no such attribute of a context",
            EglCondition::NoSyncAttribute => "there is no such attribute of a sync",
            EglCondition::NoWindowBit => "the config has no EGL_WINDOW_BIT in EGL_SURFACE_TYPE",
            EglCondition::NoWindow => "the window isn't declared",
            EglCondition::WindowUsed => "a surface of the window exists already",
            EglCondition::NoWindowVideo | EglCondition::NoPbufferVideo => {
                "too few bytes are left for the pixels"
            }
            EglCondition::NoHandle => "the numbers of handles are used up",
            EglCondition::NegativeSide => "EGL_WIDTH or EGL_HEIGHT is negative",
            EglCondition::LongSide => {
                "a side is above 2,048, and EGL_LARGEST_PBUFFER isn't EGL_TRUE"
            }
            EglCondition::NoSurface => "the surface is none of the display's, or was destroyed",
            EglCondition::NoSwapAttribute => "the attribute isn't EGL_SWAP_BEHAVIOR",
            EglCondition::NoSwapBehavior => {
                "the value is neither EGL_BUFFER_PRESERVED nor EGL_BUFFER_DESTROYED"
            }
            EglCondition::NoApi => "the API isn't EGL_OPENGL_ES_API",
            EglCondition::NoShare => "the context to share with is none, or was destroyed",
            EglCondition::ShareElsewhere => "the context to share with is of the other display",
            EglCondition::LaterVersion => "no config supports OpenGL ES 2.0 or later",
            EglCondition::NoVersion => "there is no such version of OpenGL ES",
            EglCondition::NoContext => "the context is none of the display's, or was destroyed",
            EglCondition::WrongSurface => "a surface is none of the display's, or was destroyed",
            EglCondition::WrongContext => "the context is none of the display's, or was destroyed",
            EglCondition::WithoutContext => "a surface is given without a context",
            EglCondition::OneSurface => "one surface is given without the other",
            EglCondition::NotCompatible => {
                "the context's config isn't compatible with that of a surface"
            }
            EglCondition::ContextElsewhere => "the context is current to another thread",
            EglCondition::SurfaceElsewhere => "a surface is current to another thread",
            EglCondition::NoReaddraw => "readdraw is neither EGL_READ nor EGL_DRAW",
            EglCondition::NotDrawnTo => {
                "the surface isn't the draw surface of the thread's current context"
            }
            EglCondition::NoFence => "the type isn't EGL_SYNC_FENCE",
            EglCondition::SomeList => "the list has an attribute",
            EglCondition::NoContextHere => "no context of the display is current to the thread",
            EglCondition::NoSync => "the sync is none of the display's, or was destroyed",
            EglCondition::SomeFlags => "the flags aren't 0",
            EglCondition::NotCurrent => "no context is current to the thread",
            EglCondition::NoImageSource => {
                "the target is neither EGL_GL_TEXTURE_2D nor EGL_GL_RENDERBUFFER"
            }
            EglCondition::NoPixels => "the name has no texture or renderbuffer with pixels",
            EglCondition::NotComplete => "the texture has levels above 0, and isn't complete",
            EglCondition::NoLevel => "the level has no pixels",
            EglCondition::Sibling => {
                "an EGL image, or what was made of one, has the pixels already"
            }
            EglCondition::NoImage => "the image is none of the display's, or was destroyed",
        }
    }
}
