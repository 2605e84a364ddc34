//! The forms of the arguments of each call, held against the reader.
use call_table::{EGL_CALLS, Form, GL_CALLS, OWN_CALLS};
use egl_calls::{Bytes, NoMemory};
use std::alloc::Global;
use std::process::Abort;
use trace_reader::Trace;

/// The head of a trace that assigns a variable.
const HEAD: &[u8] = b"egl-trace 1 1\n0 $v = eglGetDisplay 0\n0 ";

/// An argument of a form.
fn argument(form: Form) -> &'static [u8] {
    match form {
        Form::Number | Form::Config => b" -1",
        Form::NumberOrVariable => b" $v",
        Form::PostNumber => b" 2147483647",
        Form::Timeout => b" 9223372036854775807",
        Form::AttributeList => b" [EGL_WIDTH,1]",
        Form::NumberList => b" [-1]",
        Form::NameList => b" [$v,1]",
        Form::Payload => b" #00",
    }
}

/// A trace with a line for a call, and `more` behind its arguments.
fn trace_of(alloc: Global, name: &str, forms: &[Form], more: &[u8]) -> Result<Bytes, NoMemory> {
    let mut bytes = Bytes::new(alloc);
    bytes.extend(HEAD)?;
    bytes.extend(name.as_bytes())?;
    for form in forms {
        bytes.extend(argument(*form))?;
    }
    bytes.extend(more)?;
    Ok(bytes)
}

fn is_read(alloc: Global, name: &str, forms: &[Form], more: &[u8]) -> Result<bool, NoMemory> {
    let bytes = trace_of(alloc, name, forms, more)?;
    Ok(Trace::read(alloc, &bytes).is_ok())
}

/// A call is read with arguments of its forms, and with no more of them.
fn expect_forms<R: Abort>(rt: &R, alloc: Global, name: &str, forms: &[Form]) {
    assert!(rt; is_read(alloc, name, forms, b"") == Ok(true));
    assert!(rt; is_read(alloc, name, forms, b" 1") == Ok(false));
}

#[test]
fn calls_of_egl_are_read_in_their_forms(rt: HostRuntime) {
    for (name, _, forms, _, _, _, _) in &EGL_CALLS {
        expect_forms(&rt, rt.alloc(), name, forms);
    }
}

#[test]
fn calls_of_opengl_es_are_read_in_their_forms(rt: HostRuntime) {
    for (name, _, forms, _, _, _, _) in &GL_CALLS {
        expect_forms(&rt, rt.alloc(), name, forms);
    }
}

#[test]
fn calls_of_this_project_are_read_in_their_forms(rt: HostRuntime) {
    for (name, _, forms, _, _) in &OWN_CALLS {
        expect_forms(&rt, rt.alloc(), name, forms);
    }
}
