//! Places of a call's numbers, by the standards' names of the parameters.

/// `dpy`, the first parameter of most calls of EGL.
pub const DISPLAY: usize = 0;

/// `display_id` of eglGetDisplay.
pub const DISPLAY_ID: usize = 0;

/// `api` of eglBindAPI.
pub const API: usize = 0;

/// `readdraw` of eglGetCurrentSurface.
pub const READDRAW: usize = 0;

/// `config` of the calls that make surfaces and contexts, and of eglGetConfigAttrib.
pub const CONFIG: usize = 1;

/// The surface, context or sync that a call names after its display.
pub const NAMED: usize = 1;

/// `type` of eglCreateSync.
pub const SYNC_TYPE: usize = 1;

/// `draw` of eglMakeCurrent.
pub const DRAW: usize = 1;

/// `read` of eglMakeCurrent.
pub const READ: usize = 2;

/// `ctx` of eglMakeCurrent.
pub const CONTEXT: usize = 3;

/// `win` of eglCreateWindowSurface.
pub const WINDOW: usize = 2;

/// `share_context` of eglCreateContext.
pub const SHARE_CONTEXT: usize = 2;

/// `attribute` of the calls that query or set an attribute.
pub const ATTRIBUTE: usize = 2;

/// `value` of eglSurfaceAttrib.
pub const VALUE: usize = 3;

/// `flags` of the calls that wait for a sync.
pub const FLAGS: usize = 2;

/// `timeout` of eglClientWaitSync.
pub const TIMEOUT: usize = 3;

/// `mask` of glClear.
pub const MASK: usize = 0;

/// `x` of glReadPixels, glScissor, glViewport, glDrawTexiOES and glDrawTexxOES.
pub const X: usize = 0;

/// `y` of the same calls.
pub const Y: usize = 1;

/// `width` of glReadPixels, glScissor and glViewport.
pub const WIDTH: usize = 2;

/// `height` of glReadPixels, glScissor and glViewport.
pub const HEIGHT: usize = 3;

/// `format` of glReadPixels.
pub const FORMAT: usize = 4;

/// `type` of glReadPixels.
pub const TYPE: usize = 5;

/// `cap` of glEnable and glDisable.
pub const CAP: usize = 0;

/// `red` of glClearColorx, glColor4x and glColorMask.
pub const RED: usize = 0;

/// `green` of the same calls.
pub const GREEN: usize = 1;

/// `blue` of the same calls.
pub const BLUE: usize = 2;

/// `alpha` of the same calls.
pub const ALPHA: usize = 3;

/// `target` of glTexEnvx, and of the calls on what is bound to a target.
pub const TARGET: usize = 0;

/// `pname` of glTexEnvx.
pub const ENVIRONMENT_PNAME: usize = 1;

/// `param` of glTexEnvx.
pub const ENVIRONMENT_PARAM: usize = 2;

/// `pname` of glPixelStorei and glGetIntegerv.
pub const PNAME: usize = 0;

/// `param` of glPixelStorei.
pub const PARAM: usize = 1;

/// Which of its parameter's values a glGetIntegerv answers.
pub const INDEX: usize = 1;

/// `target` of eglCreateImage.
pub const IMAGE_SOURCE: usize = 2;

/// `buffer` of eglCreateImage: the name of a texture or of a renderbuffer.
pub const CLIENT_BUFFER: usize = 3;

/// `width` of glDrawTexiOES and glDrawTexxOES.
pub const DRAWN_WIDTH: usize = 3;

/// `height` of the same calls.
pub const DRAWN_HEIGHT: usize = 4;

/// `n` of glGenTextures and its kin.
pub const COUNT: usize = 0;

/// The name of glIsTexture and its kin.
pub const ASKED_NAME: usize = 0;

/// The name of glBindTexture and its kin.
pub const BOUND_NAME: usize = 1;

/// `pname` of the calls that set or query a parameter of what is bound to a target.
pub const BOUND_PNAME: usize = 1;

/// `param` of glTexParameterx.
pub const BOUND_PARAM: usize = 2;

/// `level` of the calls that give a texture pixels.
pub const LEVEL: usize = 1;

/// `internalformat` of glTexImage2D and glCopyTexImage2D.
pub const INTERNAL_FORMAT: usize = 2;

/// `width` of glTexImage2D.
pub const IMAGE_WIDTH: usize = 3;

/// `height` of glTexImage2D.
pub const IMAGE_HEIGHT: usize = 4;

/// `border` of glTexImage2D.
pub const BORDER: usize = 5;

/// `format` of glTexImage2D and glTexSubImage2D.
pub const IMAGE_FORMAT: usize = 6;

/// `type` of the same calls.
pub const IMAGE_TYPE: usize = 7;

/// `xoffset` of glTexSubImage2D and glCopyTexSubImage2D.
pub const X_OFFSET: usize = 2;

/// `yoffset` of the same calls.
pub const Y_OFFSET: usize = 3;

/// `width` of glTexSubImage2D.
pub const PART_WIDTH: usize = 4;

/// `height` of glTexSubImage2D.
pub const PART_HEIGHT: usize = 5;

/// `x` of glCopyTexImage2D.
pub const COPIED_X: usize = 3;

/// `y` of glCopyTexImage2D.
pub const COPIED_Y: usize = 4;

/// `width` of glCopyTexImage2D.
pub const COPIED_WIDTH: usize = 5;

/// `height` of glCopyTexImage2D.
pub const COPIED_HEIGHT: usize = 6;

/// `border` of glCopyTexImage2D.
pub const COPIED_BORDER: usize = 7;

/// `x` of glCopyTexSubImage2D.
pub const COPIED_PART_X: usize = 4;

/// `y` of glCopyTexSubImage2D.
pub const COPIED_PART_Y: usize = 5;

/// `width` of glCopyTexSubImage2D.
pub const COPIED_PART_WIDTH: usize = 6;

/// `height` of glCopyTexSubImage2D.
pub const COPIED_PART_HEIGHT: usize = 7;

/// `size` of glBufferData.
pub const BUFFER_SIZE: usize = 1;

/// `usage` of glBufferData.
pub const BUFFER_USAGE: usize = 2;

/// `offset` of glBufferSubData and `readBuffer`.
pub const BUFFER_OFFSET: usize = 1;

/// `size` of the same calls.
pub const BUFFER_PART_SIZE: usize = 2;

/// `internalformat` of glRenderbufferStorageOES.
pub const STORED_FORMAT: usize = 1;

/// `width` of glRenderbufferStorageOES.
pub const STORED_WIDTH: usize = 2;

/// `height` of glRenderbufferStorageOES.
pub const STORED_HEIGHT: usize = 3;

/// `attachment` of the calls on a framebuffer's points.
pub const ATTACHMENT: usize = 1;

/// `textarget` of glFramebufferTexture2DOES and `renderbuffertarget` of glFramebufferRenderbufferOES.
pub const ATTACHED_TARGET: usize = 2;

/// The name that the same calls attach.
pub const ATTACHED_NAME: usize = 3;

/// `level` of glFramebufferTexture2DOES.
pub const ATTACHED_LEVEL: usize = 4;

/// `pname` of glGetFramebufferAttachmentParameterivOES.
pub const ATTACHMENT_PNAME: usize = 2;

/// `image` of glEGLImageTargetTexture2DOES and glEGLImageTargetRenderbufferStorageOES.
pub const TARGET_IMAGE: usize = 1;

/// The number that a `post` posts and an `await` awaits.
pub const POSTED: usize = 0;

/// The window of a `readFront`.
pub const FRONT: usize = 0;
