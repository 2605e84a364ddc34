//! The calls of EGL (EGL 1.5, chapter 3).
ghost use Rattle.std.specs.Prelude.{◌≡◌};
ghost use Rattle.call_table.specs.Rows.{egl_answers, egl_role, egl_rules};

use crate::answers::AnswerSort;
use crate::egl_conditions::{EglCondition, egl_error};
use crate::forms::Form;
use crate::roles::Role;
use display_table::HandleKind;
use egl_calls::{EglError, EglKind};

/// A call: the word that names it, its kind, the forms of its arguments in the order of the standard's parameters without those that are answered, a word for each, the conditions that refuse it with their errors in the order in which they are tried, its role, and what it answers.
pub type EglRow = (
    &'static str,
    EglKind,
    &'static [Form],
    &'static [&'static str],
    &'static [(EglCondition, EglError)],
    Role,
    AnswerSort,
);

/// The conditions that refuse a call, with their errors. `Display` stands for the two that each call on an initialised display has first.
macro_rules! refusals {
    (Display $(, $condition:ident)*) => { refusals!(NoDisplay, NotInitialized $(, $condition)*) };
    ($($condition:ident),*) => { &[$((EglCondition::$condition, egl_error!($condition))),*] };
}

/// A call: its kind and its name, its arguments, its role, what it answers, and what refuses it.
macro_rules! calls {
    ($($kind:ident $name:literal [$($word:literal: $form:ident),*] $role:ident $(($handle:ident))? -> $answers:ident $(($made:ident))? => [$($condition:ident),* $(,)?];)*) => {
        [$((
            $name,
            EglKind::$kind,
            &[$(Form::$form),*],
            &[$($word),*],
            refusals!($($condition),*),
            Role::$role $((HandleKind::$handle))?,
            AnswerSort::$answers $((HandleKind::$made))?,
        )),*]
    };
}

/// The calls, in the order of their kinds.
pub static EGL_CALLS: [EglRow; 31] = calls![
    // Section 3.1
    GetError "eglGetError" [] OwnState -> Same => [];
    // Section 3.2
    GetDisplay "eglGetDisplay" ["display_id": Number] OwnState -> Displays => [];
    Initialize "eglInitialize" ["dpy": NumberOrVariable] Plain -> Same => [NoDisplay];
    Terminate "eglTerminate" ["dpy": NumberOrVariable] Releases -> Same => [NoDisplay];
    // Section 3.4
    GetConfigs "eglGetConfigs" ["dpy": NumberOrVariable] Plain -> ConfigLists => [Display];
    // Section 3.4.1
    ChooseConfig "eglChooseConfig" ["dpy": NumberOrVariable, "attrib_list": AttributeList] Plain -> ConfigLists => [
        Display,
        WrongConfigList,
    ];
    // Section 3.4.3
    GetConfigAttrib "eglGetConfigAttrib" ["dpy": NumberOrVariable, "config": Config, "attribute": Number] Plain -> ConfigAttributes => [
        Display,
        NoConfig,
        NoConfigAttribute,
    ];
    // Section 3.5.1
    CreateWindowSurface "eglCreateWindowSurface" ["dpy": NumberOrVariable, "config": Config, "win": Number, "attrib_list": AttributeList] Creates(Surface) -> Makes(Surface) => [
        Display,
        NoConfig,
        WrongWindowList,
        NoWindowBit,
        NoWindow,
        WindowUsed,
        NoWindowVideo,
        NoHandle,
    ];
    // Section 3.5.2
    CreatePbufferSurface "eglCreatePbufferSurface" ["dpy": NumberOrVariable, "config": Config, "attrib_list": AttributeList] Creates(Surface) -> Makes(Surface) => [
        Display,
        NoConfig,
        WrongPbufferList,
        NegativeSide,
        LongSide,
        NoPbufferVideo,
        NoHandle,
    ];
    // Section 3.5.5
    DestroySurface "eglDestroySurface" ["dpy": NumberOrVariable, "surface": NumberOrVariable] Destroys(Surface) -> Same => [
        Display,
        NoSurface,
    ];
    // Section 3.5.6
    QuerySurface "eglQuerySurface" ["dpy": NumberOrVariable, "surface": NumberOrVariable, "attribute": Number] Plain -> Attributes => [
        Display,
        NoSurface,
        NoSurfaceAttribute,
    ];
    SurfaceAttrib "eglSurfaceAttrib" ["dpy": NumberOrVariable, "surface": NumberOrVariable, "attribute": Number, "value": Number] Plain -> Same => [
        Display,
        NoSurface,
        NoSwapAttribute,
        NoSwapBehavior,
    ];
    // Section 3.7
    BindApi "eglBindAPI" ["api": Number] OwnState -> Same => [NoApi];
    QueryApi "eglQueryAPI" [] OwnState -> Same => [];
    // Section 3.7.1
    CreateContext "eglCreateContext" ["dpy": NumberOrVariable, "config": Config, "share_context": NumberOrVariable, "attrib_list": AttributeList] Creates(Context) -> Makes(Context) => [
        Display,
        NoConfig,
        WrongContextList,
        NoShare,
        ShareElsewhere,
        LaterVersion,
        NoVersion,
        NoHandle,
    ];
    // Section 3.7.2
    DestroyContext "eglDestroyContext" ["dpy": NumberOrVariable, "ctx": NumberOrVariable] Destroys(Context) -> Same => [
        Display,
        NoContext,
    ];
    // Section 3.7.3
    MakeCurrent "eglMakeCurrent" ["dpy": NumberOrVariable, "draw": NumberOrVariable, "read": NumberOrVariable, "ctx": NumberOrVariable] MakesCurrent -> Same => [
        Display,
        WrongSurface,
        WrongContext,
        WithoutContext,
        OneSurface,
        NotCompatible,
        ContextElsewhere,
        SurfaceElsewhere,
    ];
    // Section 3.7.4
    GetCurrentContext "eglGetCurrentContext" [] OwnState -> Currents(Context) => [];
    GetCurrentSurface "eglGetCurrentSurface" ["readdraw": Number] OwnState -> Currents(Surface) => [
        NoReaddraw,
    ];
    GetCurrentDisplay "eglGetCurrentDisplay" [] OwnState -> Displays => [];
    QueryContext "eglQueryContext" ["dpy": NumberOrVariable, "ctx": NumberOrVariable, "attribute": Number] Plain -> Attributes => [
        Display,
        NoContext,
        NoContextAttribute,
    ];
    // Section 3.10.1
    SwapBuffers "eglSwapBuffers" ["dpy": NumberOrVariable, "surface": NumberOrVariable] Plain -> Same => [
        Display,
        NoSurface,
        NotDrawnTo,
    ];
    // Section 3.8
    WaitClient "eglWaitClient" [] Flushes -> Same => [];
    // Section 3.12
    ReleaseThread "eglReleaseThread" [] Releases -> Same => [];
    // Section 3.8.1
    CreateSync "eglCreateSync" ["dpy": NumberOrVariable, "type": Number, "attrib_list": AttributeList] Creates(Sync) -> Makes(Sync) => [
        Display,
        NoFence,
        SomeList,
        NoContextHere,
        NoHandle,
    ];
    DestroySync "eglDestroySync" ["dpy": NumberOrVariable, "sync": NumberOrVariable] Destroys(Sync) -> Same => [
        Display,
        NoSync,
    ];
    // Section 3.8.1.1
    ClientWaitSync "eglClientWaitSync" ["dpy": NumberOrVariable, "sync": NumberOrVariable, "flags": Number, "timeout": Timeout] ClientWaits -> Same => [
        Display,
        NoSync,
    ];
    // Section 3.8.1.2
    WaitSync "eglWaitSync" ["dpy": NumberOrVariable, "sync": NumberOrVariable, "flags": Number] ServerWaits -> Same => [
        Display,
        NoSync,
        SomeFlags,
        NotCurrent,
    ];
    // Section 3.8.1.3
    GetSyncAttrib "eglGetSyncAttrib" ["dpy": NumberOrVariable, "sync": NumberOrVariable, "attribute": Number] Plain -> Same => [
        Display,
        NoSync,
        NoSyncAttribute,
    ];
    // Section 3.9
    CreateImage "eglCreateImage" ["dpy": NumberOrVariable, "ctx": NumberOrVariable, "target": Number, "buffer": NumberOrVariable, "attrib_list": AttributeList] Creates(Image) -> Makes(Image) => [
        Display,
        NoContext,
        NoImageSource,
        WrongImageList,
        NoPixels,
        NotComplete,
        NoLevel,
        Sibling,
        NoHandle,
    ];
    DestroyImage "eglDestroyImage" ["dpy": NumberOrVariable, "image": NumberOrVariable] Destroys(Image) -> Same => [
        Display,
        NoImage,
    ];
];

/// The conditions that refuse a call, with their errors, in the order in which they are tried.
pub fn egl_rules(kind: EglKind) -> &'static [(EglCondition, EglError)]
    ensures { result.now ≡ egl_rules kind }
{
    EGL_CALLS[kind as usize].4
}

/// What a call is for.
pub fn egl_role(kind: EglKind) -> Role
    ensures { result ≡ egl_role kind }
{
    EGL_CALLS[kind as usize].5
}

/// What a call answers, as its row says.
pub fn egl_answers(kind: EglKind) -> AnswerSort
    ensures { result ≡ egl_answers kind }
{
    EGL_CALLS[kind as usize].6
}
