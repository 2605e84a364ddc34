//! Texts that are read: as traces, and as single calls.
ghost use Rattle.std.specs.Prelude.{◌≡◌, false};
ghost use Rattle.egl_model.specs.Waits.{is_wait_end};

use egl_calls::{Bytes, Call, Kind, Numbers, OwnKind};
use std::alloc::Global;
use std::process::Abort;
use trace_reader::Trace;

/// The trace that a text is.
pub fn read_text(rt: &impl Abort, alloc: Global, text: &str) -> Trace {
    let bytes = Vec::from_slice(alloc, text.as_bytes()).expect(rt, "memory");
    Trace::read(alloc, &Bytes::from_vec(bytes)).expect(rt, "no defect")
}

fn read_call(rt: &impl Abort, alloc: Global, text: &str) -> Call {
    let text = format!(in alloc; "egl-trace 1 1\n0 {text}").expect(rt, "memory");
    let trace = read_text(rt, alloc, &text);
    let Some(line) = trace.line(0) else {
        panic!(rt; "no line");
    };
    line.call.to_call(alloc).expect(rt, "memory")
}

/// A call that no trace has: a Halt, or the end of a wait.
pub fn own_call(alloc: Global, kind: OwnKind) -> Call {
    Call {
        kind: Kind::Own(kind),
        args: [0; 8],
        list: Numbers::new(alloc),
        bytes: None,
    }
}

fn is_wait_end(kind: Kind) -> bool
    ensures { result ≡ is_wait_end kind }
{
    matches!(kind, Kind::Own(OwnKind::WaitEnd))
}

/// The call that a line has behind its thread; `halt` is a Halt.
pub fn call_of(rt: &impl Abort, alloc: Global, text: &str) -> Call
    ensures { is_wait_end result.kind ≡ false }
{
    let call = match text {
        "halt" => own_call(alloc, OwnKind::Halt),
        _ => read_call(rt, alloc, text),
    };
    assert!(rt; !is_wait_end(call.kind), "{text}");
    call
}
